//! Tests if a flash was ever written, so that a program can distinguish a new board from a damaged one.
ghost use Rattle.std.specs.Prelude.{◌⊎◌};
ghost use Rattle.dfu_core.specs.Blank.{BlankResult, RefusesBlank};

use crate::tells::yes_no_number_of;
use dfu_asks::Mapped;
use dfu_core::{DfuConfig, settings_of};

/// Returns 1 if every byte of both slots' gates and headers is FFh, as on a flash that was never written. Such a flash has no active image.
/// Returns 0 if one of these bytes is not FFh.
///
/// Returns -2 if the configuration is not allowed; -3 if the flash has 2^32 bytes or more; -6 if the size of the flash doesn't allow two
/// slots.
#[unsafe(no_mangle)]
pub extern "C" fn dfu_core_is_blank(config: &DfuConfig, flash: &[u8]) -> i32
    ensures outcome { BlankResult config.now flash.now result ⊎ RefusesBlank config.now flash.now result }
{
    let Some(settings) = settings_of(config) else {
        return -2;
    };
    let sector = settings.sector.size();
    let Some(medium) = Mapped::with_sectors(flash, settings.unit, sector) else {
        return -3;
    };
    match medium.is_blank() {
        Some(said) => yes_no_number_of(said),
        None => -6,
    }
}
