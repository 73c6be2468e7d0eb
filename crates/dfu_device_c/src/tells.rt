//! State, status code and remaining time of a record's device, and the numbers that calls return.
ghost use Rattle.std.specs.Prelude.{◌≡◌, ◌⊎◌, min, pos, List, ℕ, IfSome, IfNone, ◌≤◌, if◌then◌else◌};
ghost use Rattle.dfu_wire.specs.Code.{code_byte};
ghost use Rattle.dfu_wire.specs.State.{state_byte};
ghost use Rattle.dfu_device.specs.declared.device_state.DeviceState.{DeviceState};
ghost use Rattle.dfu_device.specs.Parts.{stage_of};
ghost use Rattle.dfu_device.specs.Stage.{state_of, code_of};
ghost use Rattle.dfu_core.specs.Config.{IsConfig, config_setting};
ghost use Rattle.dfu_core.specs.Due.{LONGEST_DUE, DueResult};
ghost use Rattle.dfu_core.specs.Idle.{RefusesConfigOrRecord};
ghost use Rattle.dfu_core.specs.Mode.{HasMode};
ghost use Rattle.dfu_core.specs.Numbers.{NO_DEVICE_NUMBER, answer_number, format_number, core_refusal_of, yes_no_number};
ghost use Rattle.dfu_device.specs.Borrowed.{answer_room};

use dfu_asks::mode_due;
use dfu_core::{CoreRefusal, DfuConfig, DfuRecord, ERASE, PROGRAM, has_mode, mode_in};
use dfu_device::Answer;
use dfu_slots::FormatFault;

/// DFU_NO_ROOM: `out` is too short for the answer.
pub(crate) const NO_ROOM: i32 = -5;

/// Returns the refusal in C that corresponds to a refusal of dfu_asks.
pub(crate) fn refused(refusal: dfu_asks::Refusal) -> CoreRefusal
    ensures { result ≡ core_refusal_of refusal }
{
    match refusal {
        dfu_asks::Refusal::Asked => CoreRefusal::Asked,
        dfu_asks::Refusal::NoMedium => CoreRefusal::NoMedium,
        _ => CoreRefusal::NoDevice,
    }
}

/// Returns the number of `answer`: 0 for an acknowledgement, -1 for a stall, otherwise `count`, the number of its bytes.
pub(crate) fn number_of(answer: Answer, count: usize) -> i32
    requires { count ≤ 65535 }
    ensures { result ≡ answer_number answer count }
{
    match answer {
        Answer::Ack => 0,
        Answer::Bytes => count as i32,
        Answer::Stall => -1,
    }
}

/// Returns the number of a format's fault, -6 to -8.
pub(crate) fn format_number(fault: FormatFault) -> i32
    ensures { result ≡ format_number fault }
{
    match fault {
        FormatFault::WrongSize => -6,
        FormatFault::TooLarge => -7,
        FormatFault::Failed => -8,
    }
}

/// Returns 1 for true and 0 for false.
pub(crate) fn yes_no_number_of(said: bool) -> i32
    ensures { result ≡ yes_no_number said }
{
    if said { 1 } else { 0 }
}

/// Returns the size of `out` that any answer fits into: the transfer size, or 6 if that is more.
pub(crate) fn room_for(config: &DfuConfig) -> usize
    ensures { result ≡ answer_room (config_setting config.now) }
{
    usize::from(config.transfer).max(6)
}

/// Returns the kind of a write: 1 for an erase, 2 for a program.
pub(crate) fn kind_of(erases: bool) -> u32
    ensures { result ≡ (if erases then 1 else 2) }
{
    if erases { ERASE } else { PROGRAM }
}

/// Returns the state of the device, bState: 0 to 10; -4 if the record has no mode.
#[unsafe(no_mangle)]
pub extern "C" fn dfu_core_state(device: &DfuRecord) -> i32
    ensures state { (m : DeviceState) (spare block : List ℕ) → HasMode device.now m
        → result ≡ pos (state_byte (state_of (stage_of m spare block))) }
    ensures refused { result ≡ NO_DEVICE_NUMBER → (m : DeviceState) → ¬ HasMode device.now m }
    ensures only { ((m : DeviceState) → ¬ HasMode device.now m) → result ≡ NO_DEVICE_NUMBER }
{
    if !has_mode(device) {
        return -4;
    }
    match device.mode {
        0 => 0,
        1 => 1,
        2 => 2,
        3 => 3,
        4 => 3,
        5 => 4,
        6 => 5,
        7 => 6,
        8 => 6,
        9 => 7,
        10 => 8,
        11 => 9,
        _ => 10,
    }
}

/// Returns the status code of the device, bStatus: 0 to 15, and 0 in every state except dfuERROR; -4 if the record has no mode.
#[unsafe(no_mangle)]
pub extern "C" fn dfu_core_code(device: &DfuRecord) -> i32
    ensures code { (m : DeviceState) (spare block : List ℕ) → HasMode device.now m
        → result ≡ pos (code_byte (code_of (stage_of m spare block))) }
    ensures refused { result ≡ NO_DEVICE_NUMBER → (m : DeviceState) → ¬ HasMode device.now m }
    ensures only { ((m : DeviceState) → ¬ HasMode device.now m) → result ≡ NO_DEVICE_NUMBER }
{
    if !has_mode(device) {
        return -4;
    }
    match device.mode {
        0..=11 => 0,
        _ => i32::from(device.number),
    }
}

// Returns the milliseconds `due`, limited to 2,147,483,647, or 0 for None.
fn due_number(due: Option<u32>) -> i32
    ensures some { IfSome due (λ ms. result ≡ pos (min LONGEST_DUE ms)) }
    ensures none { IfNone due (result ≡ pos 0) }
{
    match due {
        Some(ms) => ms.min(0x7fff_ffff) as i32,
        None => 0,
    }
}

/// Returns the number of milliseconds after which `dfu_core_elapse` changes the state: at least 1, or 0 if the state doesn't change with
/// time. A number over 2,147,483,647 is returned as 2,147,483,647.
///
/// Returns -2 if the configuration is not allowed; -4 if the record has no mode.
#[unsafe(no_mangle)]
pub extern "C" fn dfu_core_due(config: &DfuConfig, device: &DfuRecord) -> i32
    ensures outcome { (IsConfig config.now × DueResult config.now device.now result) ⊎ RefusesConfigOrRecord config.now device.now result }
{
    let (settings, mode) = match mode_in(config, device) {
        Ok(found) => found,
        Err(refusal) => return refusal.number(),
    };
    let block_len = usize::from(device.length);
    due_number(mode_due(&settings.config, mode, block_len))
}
