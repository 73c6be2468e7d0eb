//! Calls for the copy between two areas, which programs in C make. `include/dfu_home_core.h` describes them.
ghost use Rattle.std.specs.Prelude.{◌≡◌, ◌⊎◌, ◌+◌, ◌-◌, ◌^◌, min, not, ◌==◌, pos, negsuc};
ghost use Rattle.dfu_home.specs.OperationReport.{IsNoteOfHomeDue};
ghost use Rattle.dfu_boot_c.specs.install.Calls.{last_of};
ghost use Rattle.dfu_boot_c.specs.home.Flash.{home_medium_state, RefusesFlash};
ghost use Rattle.dfu_boot_c.specs.home.DueRecords.{HomeNextResult, due_of_ask, DownloadAllowedResult};
ghost use Rattle.dfu_slots.specs.Image.{HasImage};

use crate::home::flash::medium;
use crate::home::numbers::{DfuHomeRecord, due_of, number_of, progress_of};
use crate::install::area::number_of as place_number;
use dfu_core::{ASKS, DfuAsk, DfuConfig, ERASE, PROGRAM};
use dfu_home::{Due, is_home, next, took};

/// Writes the next operation of the copy into `ask`, as `next` of dfu_home returns it, and returns -11. Returns 0 if the active image is in
/// the first slot.
///
/// Refused, in this order: -2 if the configured unit or sector size is not allowed, -3 if the flash has 2^32 bytes or more, -16 without
/// sectors, -3 without an active image, -8 after one operation for each 128 bytes of the flash.
#[unsafe(no_mangle)]
pub extern "C" fn dfu_core_home_next(
    config: &DfuConfig,
    kept: &DfuHomeRecord,
    flash: &[u8],
    ask: &mut DfuAsk,
) -> i32
    ensures outcome { HomeNextResult config.now kept.now flash.now result ask.old ask.new
        ⊎ (RefusesFlash config.now flash.now result × (ask.new ≡ ask.old)) }
{
    let medium = match medium(config, flash) {
        Ok(medium) => medium,
        Err(refusal) => return refusal.number(),
    };
    match next(&medium, flash, progress_of(kept), &mut ask.bytes) {
        Due::Refuse(refusal) => number_of(refusal),
        Due::Home => 0,
        Due::Erase { at } => {
            ask.kind = ERASE;
            ask.at = at;
            ask.length = config.sector;
            ASKS
        }
        Due::Program { at, len } => {
            ask.kind = PROGRAM;
            ask.at = at;
            ask.length = len;
            ASKS
        }
    }
}

/// Notes in `kept` that the operation from `dfu_core_home_next` was carried out, or that it failed if `failed` is not 0, and counts the
/// operation. Checks the bytes of the flash as `took` of dfu_home does. Returns 0.
#[unsafe(no_mangle)]
pub extern "C" fn dfu_core_home_took(
    kept: &mut DfuHomeRecord,
    flash: &[u8],
    ask: &DfuAsk,
    failed: u32,
) -> i32
    ensures result { result ≡ pos 0 }
    ensures noted { IsNoteOfHomeDue flash.now ask.now.length (due_of_ask ask.now) ask.now.bytes (not (failed == 0))
        (last_of kept.new.last) }
    ensures count { kept.new.count ≡ min (kept.old.count + 1) (2 ^ 32 - 1) }
{
    let progress = took(
        flash,
        ask.length,
        due_of(ask),
        &ask.bytes,
        failed != 0,
        progress_of(kept),
    );
    kept.last = place_number(progress.last);
    kept.count = progress.count;
    0
}

/// Returns 1 if a program in the first slot may accept a download: the active image is in the first slot, and the download is written to
/// the second. Returns 0 if the active image is in the second slot, because the download would overwrite the program. Decides as `is_home`
/// of dfu_home.
///
/// Refused, in this order: -2 if the configured unit or sector size is not allowed, -3 if the flash has no active image, or 2^32 bytes or
/// more.
#[unsafe(no_mangle)]
pub extern "C" fn dfu_core_home_may_download(config: &DfuConfig, flash: &[u8]) -> i32
    ensures outcome { DownloadAllowedResult (home_medium_state config.now flash.now) result
        ⊎ (((¬ HasImage (home_medium_state config.now flash.now)) × (result ≡ negsuc 2)) ⊎ RefusesFlash config.now flash.now result) }
{
    match medium(config, flash) {
        Ok(medium) => match is_home(&medium) {
            Some(true) => 1,
            Some(false) => 0,
            None => -3,
        },
        Err(refusal) => refusal.number(),
    }
}
