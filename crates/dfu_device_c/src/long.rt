//! Setup packets with a body that is longer than a block.
ghost use Rattle.std.specs.Prelude.{◌≡◌, ◌⊎◌, ◌≤◌, ℕ, List, [], length};
ghost use Rattle.dfu_asks.specs.Addressed.{addressed_setup};
ghost use Rattle.dfu_asks.specs.AfterLong.{IsLongerThanBlock};
ghost use Rattle.dfu_asks.specs.Verdict.{IsBodyOf};
ghost use Rattle.dfu_core.specs.Board.{CoreTooLong, core_board};
ghost use Rattle.dfu_core.specs.Config.{config_setting, transfer_of};
ghost use Rattle.dfu_core.specs.Happens.{CoreEventOutcome};
ghost use Rattle.dfu_core.specs.Numbers.{STALL_NUMBER, NOT_LONG_NUMBER};
ghost use Rattle.dfu_core.specs.Long.{RecordTakesTooLongRow};
ghost use Rattle.dfu_core.specs.Idle.{IsIdleRecord, RefusesUnlessIdle};

use dfu_asks::{addressed, mode_after_long};
use dfu_core::{DfuConfig, DfuRecord, idle_mode, set_mode};

/// Answers `setup` as `dfu_core_handle` does with a body of wLength bytes, longer than the transfer size. Returns -1, the stall.
///
/// The refusals of `dfu_core_would_stall` apply. Then it returns -9 if `setup` doesn't announce a body that is longer than the transfer
/// size.
#[unsafe(no_mangle)]
pub extern "C" fn dfu_core_too_long(
    config: &DfuConfig,
    device: &mut DfuRecord,
    setup: &[u8; 8],
) -> i32
    ensures outcome { let own = addressed_setup config.now.interface setup.now in
        ((result ≡ STALL_NUMBER) × IsIdleRecord config.now device.old × IsLongerThanBlock (config_setting config.now) own
        × RecordTakesTooLongRow config.now device.old own device.new)
        ⊎ ((device.new ≡ device.old) × (((result ≡ NOT_LONG_NUMBER) × IsIdleRecord config.now device.old
        × ¬ IsLongerThanBlock (config_setting config.now) own)
        ⊎ RefusesUnlessIdle config.now device.old result)) }
    ensures step { (block flash body : List ℕ) → transfer_of config.now ≤ length block →
        IsBodyOf (addressed_setup config.now.interface setup.now) body →
        CoreEventOutcome (core_board config.now device.old block flash) (CoreTooLong setup.now body) result []
        (core_board config.now device.new block flash) }
{
    let (settings, mode) = match idle_mode(config, device) {
        Ok(found) => found,
        Err(refusal) => return refusal.number(),
    };
    let own = addressed(config.interface, setup);
    let Some(after) = mode_after_long(&settings.config, mode, &own) else {
        return -9;
    };
    set_mode(device, after);
    -1
}
