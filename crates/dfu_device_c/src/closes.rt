//! Tests if a setup packet closes a download. The program must check the image itself before it passes such a packet to `dfu_core_handle`.
ghost use Rattle.std.specs.Prelude.{◌≡◌, ◌⊎◌, pos};
ghost use Rattle.dfu_asks.specs.Addressed.{addressed_setup};
ghost use Rattle.dfu_core.specs.Closes.{CloseResult};
ghost use Rattle.dfu_core.specs.Idle.{IsIdleRecord, RefusesUnlessIdle};

use crate::tells::yes_no_number_of;
use dfu_asks::{addressed, mode_closes};
use dfu_core::{DfuConfig, DfuRecord, idle_mode};

/// Returns 1 if `setup` closes a download: `dfu_core_handle` would acknowledge it, and the downloaded image would then wait for its
/// installation. Otherwise returns 0.
///
/// The refusals of `dfu_core_would_stall` apply.
#[unsafe(no_mangle)]
pub extern "C" fn dfu_core_closes(config: &DfuConfig, device: &DfuRecord, setup: &[u8; 8]) -> i32
    ensures outcome { (((result ≡ pos 0) ⊎ (result ≡ pos 1)) × IsIdleRecord config.now device.now
        × CloseResult config.now device.now (addressed_setup config.now.interface setup.now) result)
        ⊎ RefusesUnlessIdle config.now device.now result }
{
    let (settings, mode) = match idle_mode(config, device) {
        Ok(found) => found,
        Err(refusal) => return refusal.number(),
    };
    let own = addressed(config.interface, setup);
    yes_no_number_of(mode_closes(&settings.config, mode, &own))
}
