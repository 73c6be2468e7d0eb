//! Numbers of a run area's operations and refusals.
ghost use Rattle.std.specs.Prelude.{◌≡◌};
ghost use Rattle.dfu_boot_c.specs.install.Calls.{due_of_kind, install_refusal_number};

use dfu_boot::install::{Due, InstallRefusal};
use dfu_core::{DfuAsk, ERASE, PROGRAM};

/// Returns the operation in `ask`, or for another kind `Start`, which is not an operation.
pub(crate) fn due_of(ask: &DfuAsk) -> Due
    ensures { result ≡ due_of_kind ask.now.kind ask.now.at }
{
    match ask.kind {
        ERASE => Due::Erase(ask.at),
        PROGRAM => Due::Program(ask.at),
        _ => Due::Start,
    }
}

/// Returns the number of `refusal`: DFU_WRONG_SIZE, DFU_NO_IMAGE or DFU_TOO_LARGE.
pub(crate) fn number_of(refusal: InstallRefusal) -> i32
    ensures { result ≡ install_refusal_number refusal }
{
    match refusal {
        InstallRefusal::WrongSize => -6,
        InstallRefusal::NoImage => -15,
        InstallRefusal::TooLarge => -7,
    }
}
