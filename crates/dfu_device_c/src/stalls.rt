//! Tests if a device will stall a request, before the body of the request arrives.
ghost use Rattle.std.specs.Prelude.{◌≡◌, ◌⊎◌, pos};
ghost use Rattle.dfu_asks.specs.Addressed.{addressed_setup};
ghost use Rattle.dfu_core.specs.Stalls.{StallResult};
ghost use Rattle.dfu_core.specs.Idle.{IsIdleRecord, RefusesUnlessIdle};

use crate::tells::yes_no_number_of;
use dfu_asks::{addressed, mode_stalls};
use dfu_core::{DfuConfig, DfuRecord, idle_mode};

/// Returns 1 if `dfu_core_handle` will stall `setup` with every body of wLength bytes, and 0 if it will stall it with no such body. `size`
/// is the size of the flash in bytes.
///
/// Returns -2 if the configuration is not allowed; -4 if the record has no mode; -12 if writes are pending.
#[unsafe(no_mangle)]
pub extern "C" fn dfu_core_would_stall(
    config: &DfuConfig,
    device: &DfuRecord,
    size: usize,
    setup: &[u8; 8],
) -> i32
    ensures outcome { (((result ≡ pos 0) ⊎ (result ≡ pos 1)) × IsIdleRecord config.now device.now
        × StallResult config.now device.now size (addressed_setup config.now.interface setup.now) result)
        ⊎ RefusesUnlessIdle config.now device.now result }
{
    let (settings, mode) = match idle_mode(config, device) {
        Ok(found) => found,
        Err(refusal) => return refusal.number(),
    };
    let own = addressed(config.interface, setup);
    yes_no_number_of(mode_stalls(
        &settings.config,
        settings.unit,
        settings.sector,
        mode,
        size,
        &own,
    ))
}
