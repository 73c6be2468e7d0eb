//! Calls with which the program refuses an image. They need only the configuration and the record.
ghost use Rattle.std.specs.Prelude.{◌≡◌, ℕ, List, [], IfSome, IfNone};
ghost use Rattle.dfu_asks.specs.Addressed.{addressed_setup};
ghost use Rattle.dfu_core.specs.Board.{CoreRefuseClose, CoreRefuse, core_board};
ghost use Rattle.dfu_core.specs.Happens.{CoreEventOutcome};
ghost use Rattle.dfu_core.specs.Refuse.{objection_of_status, IsObjectionStatus, RefuseOutcome, RefuseCloseOutcome};

use dfu_asks::{addressed, mode_closes};
use dfu_core::{DfuConfig, DfuRecord, idle_mode, set_mode};
use dfu_device::{DeviceState, Objection};

// Returns the objection that a status reports: errTARGET (1) or errFILE (2); None for any other status.
fn objection_of(status: u32) -> Option<Objection>
    ensures some { IfSome result (λ why. (why ≡ objection_of_status status) × IsObjectionStatus status) }
    ensures none { IfNone result (¬ IsObjectionStatus status) }
{
    match status {
        1 => Some(Objection::Target),
        2 => Some(Objection::File),
        _ => None,
    }
}

/// Refuses the image of a closed download, as `Device::refuse` does, with errTARGET (1) or errFILE (2). Returns 0.
///
/// The refusals of `dfu_core_would_stall` apply. Then it returns -14 for any other status.
#[unsafe(no_mangle)]
pub extern "C" fn dfu_core_refuse(config: &DfuConfig, device: &mut DfuRecord, status: u32) -> i32
    ensures outcome { RefuseOutcome config.now device.old status result device.new }
    ensures step { (block flash : List ℕ) → CoreEventOutcome (core_board config.now device.old block flash) (CoreRefuse status) result []
        (core_board config.now device.new block flash) }
{
    let (_, mode) = match idle_mode(config, device) {
        Ok(found) => found,
        Err(refusal) => return refusal.number(),
    };
    let Some(objection) = objection_of(status) else {
        return -14;
    };
    set_mode(device, mode.after_refusal(objection));
    0
}

/// Refuses the image whose download `setup` closes, as `Device::refuse_close` does, with errTARGET (1) or errFILE (2). Returns -1, the
/// stall.
///
/// The refusals of `dfu_core_refuse` apply. Then it returns -13 if `setup` closes no download.
#[unsafe(no_mangle)]
pub extern "C" fn dfu_core_refuse_close(
    config: &DfuConfig,
    device: &mut DfuRecord,
    setup: &[u8; 8],
    status: u32,
) -> i32
    ensures outcome { RefuseCloseOutcome config.now device.old (addressed_setup config.now.interface setup.now) status result device.new }
    ensures step { (block flash : List ℕ) →
        CoreEventOutcome (core_board config.now device.old block flash) (CoreRefuseClose setup.now status) result []
        (core_board config.now device.new block flash) }
{
    let (settings, mode) = match idle_mode(config, device) {
        Ok(found) => found,
        Err(refusal) => return refusal.number(),
    };
    let Some(objection) = objection_of(status) else {
        return -14;
    };
    let own = addressed(config.interface, setup);
    if !mode_closes(&settings.config, mode, &own) {
        return -13;
    }
    set_mode(device, DeviceState::after_refused_close(objection));
    -1
}
