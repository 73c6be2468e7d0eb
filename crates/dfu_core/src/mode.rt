//! Mode of a device, as the numbers of its record encode it.
ghost use Rattle.std.specs.Prelude.{◌≡◌, IfSome, IfOk, IfErr, OnOk, IsTrue, Some, not};
ghost use Rattle.dfu_wire.specs.Code.{code_byte};
ghost use Rattle.dfu_device.specs.declared.device_state.DeviceState.{DeviceState as KeptMode};
ghost use Rattle.dfu_core.specs.Config.{IsConfig};
ghost use Rattle.dfu_core.specs.RecordMeaning.{AreConfigParts};
ghost use Rattle.dfu_core.specs.Mode.{HasMode, HasModeNumbers, ChangesOnlyMode};
ghost use Rattle.dfu_core.specs.Numbers.{refusal_number};
ghost use Rattle.dfu_core.specs.Idle.{IsIdleRecord, RefusesConfigOrRecord, RefusesUnlessIdle};

use crate::config::{DfuConfig, Settings, VERSION, settings_of};
use crate::numbers::CoreRefusal;
use crate::record::DfuRecord;
use dfu_device::DeviceState;
use dfu_wire::Code;

// Returns the status code with this number, or None if there is none.
fn code_of(number: u16) -> Option<Code>
    ensures some { IfSome result (λ c. code_byte c ≡ number) }
    ensures only { (c : Code) → code_byte c ≡ number → result ≡ Some c }
{
    if number > 15 {
        return None;
    }
    match Code::from_byte(number as u8) {
        Ok(code) => Some(code),
        Err(_) => None,
    }
}

/// Returns the mode of record `kept`; None if its version is not the library's, or its numbers encode no mode.
#[inline(never)]
pub(crate) fn mode_of(kept: &DfuRecord) -> Option<DeviceState>
    ensures some { IfSome result (λ m. HasMode kept.now m) }
    ensures only { (m : DeviceState) → HasMode kept.now m → result ≡ Some m }
{
    if kept.version != VERSION {
        return None;
    }
    // Names of the three fields during a download. In other modes the fields hold other values.
    let (written, passed, number) = (kept.first, kept.second, kept.number);
    let mode = match kept.mode {
        0 => DeviceState::AppIdle,
        1 => DeviceState::AppDetach {
            timer: kept.first,
            passed,
        },
        2 => DeviceState::DfuIdle,
        3 => DeviceState::DownloadSync { written, number },
        4 => DeviceState::DownloadSyncWritten { written, number },
        5 => DeviceState::DownloadBusy {
            written,
            number,
            passed,
        },
        6 => DeviceState::DownloadIdle { written, number },
        7 => DeviceState::ManifestSync { written },
        8 => DeviceState::ManifestSyncComplete,
        9 => DeviceState::Manifest { written, passed },
        10 => DeviceState::ManifestWaitReset,
        11 => DeviceState::UploadIdle {
            place: kept.first,
            number,
        },
        12 => match code_of(number) {
            Some(code) => DeviceState::Error { code },
            None => return None,
        },
        _ => return None,
    };
    Some(mode)
}

/// Returns true if the numbers in record `kept` represent a mode.
pub fn has_mode(kept: &DfuRecord) -> bool
    ensures one { IsTrue result → (m : DeviceState) × HasMode kept.now m }
    ensures none { IsTrue (not result) → (m : DeviceState) → ¬ HasMode kept.now m }
{
    match mode_of(kept) {
        Some(_) => true,
        None => false,
    }
}

/// Returns the settings and the mode, if the configuration is allowed and the record has a mode. Otherwise returns `NoConfig`, or else
/// `NoDevice`.
pub fn mode_in(config: &DfuConfig, kept: &DfuRecord) -> Result<(Settings, DeviceState), CoreRefusal>
    ensures set_up { IfOk result (λ r. AreConfigParts config.now r.0.config r.0.unit r.0.sector) }
    ensures only { IfOk result (λ r. (x : KeptMode) → HasMode kept.now x → r.1 ≡ x) }
    ensures mode { IfOk result (λ r. HasMode kept.now r.1) }
    ensures config { OnOk result (IsConfig config.now) }
    ensures err { IfErr result (λ e. RefusesConfigOrRecord config.now kept.now (refusal_number e)) }
{
    let Some(settings) = settings_of(config) else {
        return Err(CoreRefusal::NoConfig);
    };
    match mode_of(kept) {
        Some(mode) => Ok((settings, mode)),
        None => Err(CoreRefusal::NoDevice),
    }
}

/// Returns the settings and the mode, as `mode_in` does, but refuses the record with `Asked` if writes are pending.
pub fn idle_mode(
    config: &DfuConfig,
    kept: &DfuRecord,
) -> Result<(Settings, DeviceState), CoreRefusal>
    ensures idle { OnOk result (IsIdleRecord config.now kept.now) }
    ensures err { IfErr result (λ e. RefusesUnlessIdle config.now kept.now (refusal_number e)) }
    ensures only { IfOk result (λ r. (x : KeptMode) → HasMode kept.now x → r.1 ≡ x) }
    ensures set_up { IfOk result (λ r. AreConfigParts config.now r.0.config r.0.unit r.0.sector) }
{
    let (settings, mode) = mode_in(config, kept)?;
    if kept.work != 0 {
        return Err(CoreRefusal::Asked);
    }
    Ok((settings, mode))
}

// Returns the numbers that encode a mode: `mode`, `first`, `second` and `number` of the record.
fn numbers_of(mode: DeviceState) -> (u32, u32, u32, u16)
    ensures { (r : DfuRecord) → r.mode ≡ result.0 → r.first ≡ result.1 → r.second ≡ result.2 → r.number ≡ result.3 → HasModeNumbers r mode }
{
    match mode {
        DeviceState::AppIdle => (0, 0, 0, 0),
        DeviceState::AppDetach { timer, passed } => (1, timer, passed, 0),
        DeviceState::DfuIdle => (2, 0, 0, 0),
        DeviceState::DownloadSync { written, number } => (3, written, 0, number),
        DeviceState::DownloadSyncWritten { written, number } => (4, written, 0, number),
        DeviceState::DownloadBusy {
            written,
            number,
            passed,
        } => (5, written, passed, number),
        DeviceState::DownloadIdle { written, number } => (6, written, 0, number),
        DeviceState::ManifestSync { written } => (7, written, 0, 0),
        DeviceState::ManifestSyncComplete => (8, 0, 0, 0),
        DeviceState::Manifest { written, passed } => (9, written, passed, 0),
        DeviceState::ManifestWaitReset => (10, 0, 0, 0),
        DeviceState::UploadIdle { place, number } => (11, place, 0, number),
        DeviceState::Error { code } => (12, 0, 0, u16::from(code.byte())),
    }
}

/// Writes the library's version, and the number and the values of `mode`, into record `kept`.
#[inline(never)]
pub fn set_mode(kept: &mut DfuRecord, mode: DeviceState)
    ensures mode { HasMode kept.new mode }
    ensures others { ChangesOnlyMode kept.old kept.new }
{
    let (own, first, second, number) = numbers_of(mode);
    kept.version = VERSION;
    kept.mode = own;
    kept.first = first;
    kept.second = second;
    kept.number = number;
}
