//! Calls for a run area, which programs in C make. `include/dfu_install_core.h` describes them.
ghost use Rattle.std.specs.Prelude.{◌≡◌, not, ◌==◌, pos};
ghost use Rattle.dfu_boot.specs.install.Next.{IsNextDue};
ghost use Rattle.dfu_boot.specs.install.OperationReport.{IsNoteOfDue};
ghost use Rattle.dfu_boot.specs.declared.install.due.Due.{Due};
ghost use Rattle.dfu_boot_c.specs.install.Calls.{last_of, due_of_kind};
ghost use Rattle.dfu_boot_c.specs.install.DueRecords.{InstallDueInAsk};

use crate::install::area::{DfuRunArea, last_of, number_of};
use crate::install::numbers::{due_of, number_of as refusal_number};
use dfu_boot::install::{Due, next, piece, took};
use dfu_core::{ASKS, DfuAsk, ERASE, PROGRAM};

// Writes the next operation, if there is one, into `ask`. Returns -11 for an operation, 0 for the start, and the number of a refusal.
fn write_ask(due: Due, image: &[u8], sector: u32, ask: &mut DfuAsk) -> i32
    ensures { InstallDueInAsk image.now sector due result ask.old ask.new }
{
    match due {
        Due::Refuse(refusal) => refusal_number(refusal),
        Due::Start => 0,
        Due::Erase(at) => {
            ask.kind = ERASE;
            ask.at = at;
            ask.length = sector;
            ASKS
        }
        Due::Program(at) => {
            ask.kind = PROGRAM;
            ask.at = at;
            ask.length = 256;
            piece(image, at, &mut ask.bytes);
            ASKS
        }
    }
}

/// Writes the next operation into `ask`, as `install::next` of dfu_boot returns it, and returns -11. Returns 0 if the run area holds the
/// whole image.
///
/// Refused, in this order: -6 if the length or the sector size of the run area is not allowed, -15 if the image has no bytes, -7 if the
/// image is larger than the run area.
#[unsafe(no_mangle)]
pub extern "C" fn dfu_core_install_next(
    area: &DfuRunArea,
    image: &[u8],
    run: &[u8],
    ask: &mut DfuAsk,
) -> i32
    ensures outcome { (due : Due) × (IsNextDue image.now run.now area.now.sector (last_of area.now.last) due
        × InstallDueInAsk image.now area.now.sector due result ask.old ask.new) }
{
    let due = next(image, run, area.sector, last_of(area.last));
    write_ask(due, image, area.sector, ask)
}

/// Notes in `area` that the operation from `dfu_core_install_next` was carried out, or that it failed if `failed` is not 0. Checks the
/// bytes of the run area as `install::took` of dfu_boot does. Returns 0.
#[unsafe(no_mangle)]
pub extern "C" fn dfu_core_install_took(
    area: &mut DfuRunArea,
    image: &[u8],
    run: &[u8],
    ask: &DfuAsk,
    failed: u32,
) -> i32
    ensures result { result ≡ pos 0 }
    ensures sector { area.new.sector ≡ area.old.sector }
    ensures noted { IsNoteOfDue image.now run.now area.old.sector (due_of_kind ask.now.kind ask.now.at) (not (failed == 0))
        (last_of area.new.last) }
{
    area.last = number_of(took(image, run, area.sector, due_of(ask), failed != 0));
    0
}
