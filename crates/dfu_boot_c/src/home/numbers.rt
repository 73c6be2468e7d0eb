//! Record of a copy that a program in C keeps, and numbers of its operations and refusals.
ghost use Rattle.std.specs.Prelude.{◌≡◌};
ghost use Rattle.dfu_boot_c.specs.home.Flash.{progress_of};
ghost use Rattle.dfu_boot_c.specs.home.DueRecords.{home_refusal_number, due_of_ask};

use crate::install::area::last_of;
use dfu_core::{DfuAsk, ERASE, PROGRAM};
use dfu_home::{CopyRefusal, Due, Progress};

/// Record of a copy between two calls: `struct dfu_home_record`.
#[repr(C)]
#[derive(Drop)]
pub struct DfuHomeRecord {
    /// Offset of the last operation if it succeeded after the last power on, else FFFFFFFFh.
    pub last: u32,
    /// Number of operations since the last power on.
    pub count: u32,
}

/// Returns the progress of a copy by its record.
pub(crate) fn progress_of(kept: &DfuHomeRecord) -> Progress
    ensures { result ≡ progress_of kept.now }
{
    Progress {
        last: last_of(kept.last),
        count: kept.count,
    }
}

/// Returns the operation in `ask`, or for another kind `Home`, which is not an operation.
pub(crate) fn due_of(ask: &DfuAsk) -> Due
    ensures { result ≡ due_of_ask ask.now }
{
    match ask.kind {
        ERASE => Due::Erase { at: ask.at },
        PROGRAM => Due::Program {
            at: ask.at,
            len: ask.length,
        },
        _ => Due::Home,
    }
}

/// Returns the number of `refusal`: DFU_NO_SECTORS, DFU_NO_MEDIUM or DFU_NOT_WRITTEN.
pub(crate) fn number_of(refusal: CopyRefusal) -> i32
    ensures { result ≡ home_refusal_number refusal }
{
    match refusal {
        CopyRefusal::NoSectors => -16,
        CopyRefusal::NoImage => -3,
        CopyRefusal::NotWritten => -8,
    }
}
