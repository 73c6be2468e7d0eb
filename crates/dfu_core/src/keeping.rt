//! Reads and writes the record of a device that lets its program write the flash.
ghost use Rattle.std.specs.Prelude.{◌≡◌, ◌≤◌, ◌<◌, IfOk, IfErr, OnOk, IfSome, IfNone, ℕ, Bool, Option, Some};
ghost use Rattle.dfu_asks.specs.declared.asking.Asking.{Asking as Device};
ghost use Rattle.dfu_asks.specs.declared.noted.Noted.{Noted as Note};
ghost use Rattle.dfu_core.specs.declared.config.DfuConfig.{DfuConfig as Given};
ghost use Rattle.dfu_core.specs.Config.{block_memory_size, IsConfig};
ghost use Rattle.dfu_core.specs.RecordMeaning.{IsFlagNumber, IsRecordOf, AreConfigParts, HasNoteNumbers, HasJobNumbers, IsPendingLengthNumber, HasWorkNumbers, ChangesOnlyJob, ChangesOnlyWork};
ghost use Rattle.dfu_core.specs.Calls.{DeviceNotFound};
ghost use Rattle.dfu_asks.specs.declared.pending_writes.PendingWrites.{PendingWrites as Due};
ghost use Rattle.dfu_asks.specs.declared.pending_writes.SlotWrite.{SlotWrite as Series};

use crate::config::{DfuConfig, Settings, settings_of};
use crate::format::WORK;
use crate::mode::{mode_of, set_mode};
use crate::numbers::CoreRefusal;
use crate::record::DfuRecord;
use dfu_asks::{Asking, Noted, PendingWrites, SlotWrite};
use dfu_slots::MAX_UNIT;

// Decodes `number` of a record: 0 means that no GETSTATUS is pending, otherwise it is wLength of the pending GETSTATUS plus 1. Returns None
// for an invalid number.
fn pending_length_of(number: u32) -> Option<Option<u16>>
    ensures some { IfSome result (λ asked. IsPendingLengthNumber number asked) }
    ensures only { (asked : Option ℕ) → IsPendingLengthNumber number asked → result ≡ Some asked }
{
    match number {
        0 => Some(None),
        1..=0x1_0000 => Some(Some((number - 1) as u16)),
        _ => None,
    }
}

// Returns true for 1, false for 0, and None for any other number.
fn flag_of(number: u8) -> Option<bool>
    ensures some { IfSome result (λ yes. IsFlagNumber yes number) }
    ensures only { (yes : Bool) → IsFlagNumber yes number → result ≡ Some yes }
{
    match number {
        0 => Some(false),
        1 => Some(true),
        _ => None,
    }
}

// Returns the job that the numbers of a record encode; None if they encode no job.
fn job_of(kept: &DfuRecord) -> Option<SlotWrite>
    ensures some { IfSome result (λ job. HasJobNumbers kept.now job) }
    ensures only { (job : Series) → HasJobNumbers kept.now job → result ≡ Some job }
{
    let (spare, generation, register) = (kept.spare, kept.generation, kept.sum);
    match kept.work {
        1 => match flag_of(kept.close) {
            Some(close) => Some(SlotWrite::Block { spare, close }),
            None => None,
        },
        2 => Some(SlotWrite::Commit {
            spare,
            generation,
            register,
        }),
        _ => None,
    }
}

// Returns the pending writes of a record, or Some(None) if none are pending. Returns None if the numbers encode neither.
fn work_of(kept: &DfuRecord) -> Option<Option<PendingWrites>>
    ensures some { IfSome result (λ work. HasWorkNumbers kept.now work) }
    ensures only { (work : Option Due) → HasWorkNumbers kept.now work → result ≡ Some work }
{
    if kept.work == 0 {
        return Some(None);
    }
    let job = job_of(kept)?;
    let asked = pending_length_of(kept.asked)?;
    Some(Some(PendingWrites {
        job,
        asked,
        done: kept.done,
    }))
}

// Stores a job in a record.
fn set_job(kept: &mut DfuRecord, job: SlotWrite)
    ensures job { HasJobNumbers kept.new job }
    ensures others { ChangesOnlyJob kept.old kept.new }
{
    match job {
        SlotWrite::Block { spare, close: true } => {
            kept.work = 1;
            kept.spare = spare;
            kept.close = 1;
        }
        SlotWrite::Block {
            spare,
            close: false,
        } => {
            kept.work = 1;
            kept.spare = spare;
            kept.close = 0;
        }
        SlotWrite::Commit {
            spare,
            generation,
            register,
        } => {
            kept.work = 2;
            kept.spare = spare;
            kept.generation = generation;
            kept.sum = register;
        }
    }
}

// Stores the pending writes in a record; None means that none are pending.
fn set_work(kept: &mut DfuRecord, work: Option<PendingWrites>)
    ensures work { HasWorkNumbers kept.new work }
    ensures others { ChangesOnlyWork kept.old kept.new }
{
    match work {
        None => kept.work = 0,
        Some(work) => {
            set_job(kept, work.job);
            kept.done = work.done;
            kept.asked = match work.asked {
                None => 0,
                Some(length) => u32::from(length) + 1,
            };
        }
    }
}

/// Returns the number of a slot: 1 if it is the `second`, otherwise 0.
pub fn slot_of(second: bool) -> u32
    ensures { IsFlagNumber second result }
{
    u32::from(second)
}

// Returns the note on the active image that a record holds; None if its slot is neither 0 nor 1.
fn note_in(kept: &DfuRecord) -> Option<Noted>
    ensures some { IfSome result (λ n. HasNoteNumbers kept.now n) }
    ensures none { IfNone result ((n : Note) → ¬ HasNoteNumbers kept.now n) }
{
    if kept.slot > 1 {
        return None;
    }
    Some(Noted {
        second: kept.slot == 1,
        header: kept.header,
    })
}

// Returns the device that a record represents, or None if it represents no device. The block must have at most 4,096 bytes.
fn asking_of(settings: Settings, kept: &DfuRecord) -> Option<Asking>
    requires { kept.now.length ≤ 4096 }
    ensures some { IfSome result (λ a. (c : Given) → AreConfigParts c settings.config settings.unit settings.sector
        → IsRecordOf c kept.now a) }
    ensures none { IfNone result ((c : Given) (a : Device) → ¬ IsRecordOf c kept.now a) }
{
    if kept.held_length > MAX_UNIT as u16 {
        return None;
    }
    let mode = mode_of(kept)?;
    let noted = note_in(kept)?;
    let work = work_of(kept)?;
    Some(Asking {
        config: settings.config,
        unit: settings.unit,
        sector: settings.sector,
        mode,
        block_len: usize::from(kept.length),
        held_len: usize::from(kept.held_length),
        put_end: kept.put_end,
        noted,
        work,
    })
}

/// Writes to `read` the device that record `kept` represents, or the reason why `kept` represents none. `room` is the size of the block
/// memory.
#[inline(never)]
pub fn found(
    config: &DfuConfig,
    kept: &DfuRecord,
    room: usize,
    read: &mut Result<Asking, CoreRefusal>,
)
    ensures ok { IfOk read.new (λ a. IsRecordOf config.now kept.now a) }
    ensures config { OnOk read.new (IsConfig config.now) }
    ensures room { OnOk read.new (block_memory_size config.now ≤ room) }
    ensures err { IfErr read.new (λ e. DeviceNotFound e config.now kept.now room) }
{
    if kept.work == WORK {
        *read = Err(CoreRefusal::Asked);
        return;
    }
    let Some(settings) = settings_of(config) else {
        *read = Err(CoreRefusal::NoConfig);
        return;
    };
    if room < usize::from(config.transfer) + settings.unit.size() as usize {
        *read = Err(CoreRefusal::NoBlock);
        return;
    }
    if kept.length > config.transfer {
        *read = Err(CoreRefusal::NoDevice);
        return;
    }
    let Some(asking) = asking_of(settings, kept) else {
        *read = Err(CoreRefusal::NoDevice);
        return;
    };
    *read = Ok(asking);
}

/// Writes `asking` into its record `kept`.
#[inline(never)]
pub fn keep(asking: &Asking, kept: &mut DfuRecord)
    ensures { (c : Given) → AreConfigParts c asking.now.config asking.now.unit asking.now.sector → IsRecordOf c kept.new asking.now }
{
    set_mode(kept, asking.mode);
    set_work(kept, asking.work);
    kept.length = asking.block_len as u16;
    kept.held_length = asking.held_len as u16;
    kept.put_end = asking.put_end;
    kept.slot = slot_of(asking.noted.second);
    kept.header = asking.noted.header;
}
