//! Calls for a trial, which programs in C make. `include/dfu_trial_core.h` describes them.
ghost use Rattle.std.specs.Prelude.{◌≡◌, ◌⊎◌, pos};
ghost use Rattle.std.specs.List.{list_all};
ghost use Rattle.dfu_boot.specs.trial.Marks.{is_erased};
ghost use Rattle.dfu_boot.specs.trial.Again.{ImagesAreWhole};
ghost use Rattle.dfu_boot_c.specs.trial.Tries.{trial_medium_state};
ghost use Rattle.dfu_boot_c.specs.trial.Again.{base_of_trial};
ghost use Rattle.dfu_boot_c.specs.trial.TrialRecords.{mark_reads_as_set, run_place_of_operation};
ghost use Rattle.dfu_boot_c.specs.trial.TrialCalls.{RefusesTrial, TrialLookResult, TrialStartResult, TrialConfirmResult, TrialEndResult, TrialUploadResult};

use crate::trial::again::start_from;
use crate::trial::flash::{DfuTries, looked};
use crate::trial::told::{DfuStanding, DfuStarting, standing_told, write_ask};
use dfu_boot::trial::Confirmation;
use dfu_core::{DfuAsk, DfuPlace, PROGRAM};
use dfu_slots::flash_byte_at;

/// DFU_ELSEWHERE: no image that may run begins at the offset.
const ELSEWHERE: i32 = -19;

/// Writes the standing of the images of `flash` into `told`, and returns 0.
///
/// Refused, in this order: -2 if the unit or sector size is not allowed; -16 without sectors, -17 with fewer than two tries, -18 if a
/// sector has no room for so many tries; -3 if the flash has no active image, or 2^32 bytes or more.
#[unsafe(no_mangle)]
pub extern "C" fn dfu_core_trial_look(tries: &DfuTries, flash: &[u8], told: &mut DfuStanding) -> i32
    ensures outcome { TrialLookResult tries.now flash.now result told.new
        ⊎ (RefusesTrial tries.now flash.now result × (told.new ≡ told.old)) }
    ensures whole { result ≡ pos 0 → ImagesAreWhole (trial_medium_state tries.now flash.now) told.new.active.at (base_of_trial told.new) }
{
    match looked(tries, flash) {
        Ok(looked) => {
            *told = standing_told(&looked.medium, tries.tries, looked.standing);
            0
        }
        Err(refusal) => refusal.number(),
    }
}

/// Writes the image that starts into `told`. Returns 0 if `told.run` starts without an operation, or -11 with the operation in `ask` that
/// must be carried out first. After that operation, `dfu_core_trial_runs` writes the image that runs.
///
/// Refused like `dfu_core_trial_look`.
#[unsafe(no_mangle)]
pub extern "C" fn dfu_core_trial_start(
    tries: &DfuTries,
    flash: &[u8],
    ask: &mut DfuAsk,
    told: &mut DfuStarting,
) -> i32
    ensures outcome { TrialStartResult tries.now flash.now result ask.old ask.new told.new
        ⊎ (RefusesTrial tries.now flash.now result × (ask.new ≡ ask.old) × (told.new ≡ told.old)) }
{
    // No image begins at offset 0. Therefore `start_from` can't use this standing, and reads the whole flash.
    let nowhere = DfuPlace { at: 0, length: 0 };
    let none = DfuStanding {
        active: nowhere,
        base: nowhere,
        on_trial: 0,
        left: 0,
        is_confirmed: 0,
    };
    start_from(tries, flash, &none, ask, told)
}

fn is_blank(flash: &[u8]) -> bool
    ensures { result ≡ list_all is_erased flash.now }
{
    let mut rest = flash;
    while !rest.is_empty() {
        if flash_byte_at(rest, 0) != 0xff {
            return false;
        }
        rest = &rest[1..];
    }
    true
}

// Returns true if the mark in `ask` reads as set: its range is within the flash, and one of its bytes is not FFh.
fn mark_reads_as_set(flash: &[u8], ask: &DfuAsk) -> bool
    ensures { result ≡ mark_reads_as_set flash.now ask.now }
{
    let at = ask.at as usize;
    let len = ask.length as usize;
    at + len <= flash.len() && !is_blank(&flash[at..at + len])
}

/// Writes into `place` the image that runs, after the operation from `dfu_core_trial_start` was carried out or failed, and returns 0. If
/// the operation is a mark, the call reads its bytes.
#[unsafe(no_mangle)]
pub extern "C" fn dfu_core_trial_runs(
    flash: &[u8],
    ask: &DfuAsk,
    starting: &DfuStarting,
    place: &mut DfuPlace,
) -> i32
    ensures result { result ≡ pos 0 }
    ensures place { place.new ≡ run_place_of_operation flash.now ask.now starting.now }
{
    *place = if ask.kind == PROGRAM && !mark_reads_as_set(flash, ask) {
        starting.otherwise
    } else {
        starting.run
    };
    0
}

/// Confirms the image whose first byte is `flash[at]`. Returns 0 if it is confirmed already, -11 with the operation in `ask` that confirms
/// it, or -19 if no image that may run begins there.
///
/// Refused like `dfu_core_trial_look`.
#[unsafe(no_mangle)]
pub extern "C" fn dfu_core_trial_confirm(
    tries: &DfuTries,
    flash: &[u8],
    at: u32,
    ask: &mut DfuAsk,
) -> i32
    ensures outcome { TrialConfirmResult tries.now flash.now at result ask.old ask.new
        ⊎ (RefusesTrial tries.now flash.now result × (ask.new ≡ ask.old)) }
{
    match looked(tries, flash) {
        Ok(looked) => match looked.standing.confirm(&looked.medium, tries.tries, at) {
            Confirmation::By(operation) => write_ask(Some(operation), tries.sector, ask),
            Confirmation::Confirmed => 0,
            Confirmation::Elsewhere => ELSEWHERE,
        },
        Err(refusal) => refusal.number(),
    }
}

/// Ends a trial. Returns 0 if no image is on trial, or -11 with the operation in `ask` that ends the trial.
///
/// Refused like `dfu_core_trial_look`.
#[unsafe(no_mangle)]
pub extern "C" fn dfu_core_trial_end(tries: &DfuTries, flash: &[u8], ask: &mut DfuAsk) -> i32
    ensures outcome { TrialEndResult tries.now flash.now result ask.old ask.new
        ⊎ (RefusesTrial tries.now flash.now result × (ask.new ≡ ask.old)) }
{
    match looked(tries, flash) {
        Ok(looked) => write_ask(
            looked.standing.end(&looked.medium, tries.tries),
            tries.sector,
            ask,
        ),
        Err(refusal) => refusal.number(),
    }
}

/// Prepares an upload. Returns 0 if the upload may begin. If the image on trial has no try left, returns -11, with the operation in `ask`
/// that ends the trial.
///
/// Refused like `dfu_core_trial_look`.
#[unsafe(no_mangle)]
pub extern "C" fn dfu_core_trial_upload(tries: &DfuTries, flash: &[u8], ask: &mut DfuAsk) -> i32
    ensures outcome { TrialUploadResult tries.now flash.now result ask.old ask.new
        ⊎ (RefusesTrial tries.now flash.now result × (ask.new ≡ ask.old)) }
{
    match looked(tries, flash) {
        Ok(looked) => write_ask(
            looked.standing.upload(&looked.medium, tries.tries),
            tries.sector,
            ask,
        ),
        Err(refusal) => refusal.number(),
    }
}
