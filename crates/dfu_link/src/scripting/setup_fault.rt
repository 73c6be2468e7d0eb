//! Faults of settings with which no device can be configured.

ghost use Rattle.std.specs.Prelude.{IfSome};
ghost use Rattle.dfu_link.specs.inside.SetupFaults.{HasRoomFault};
ghost use Rattle.dfu_link.specs.inside.SetupView.{settings_of};

use crate::scripting::script_config::ScriptConfig;
use crate::scripting::starting::{cuts_sector, device_config, first_image};
use dfu_device::ConfigFault;

/// Largest poll time in milliseconds, because bwPollTimeout has 24 bits.
const MAX_POLL: u32 = 16_777_215;

/// Fault of the settings that prevents the configuration of a device. The faults are checked in this order.
#[derive(Clone, Copy)]
pub enum SetupFault {
    /// The transfer size isn't 1 to 4,096 bytes.
    Transfer,
    /// The time of a block, or of manifestation, is over 16,777,215 milliseconds.
    Poll,
    /// The time of manifestation is 0, but the device isn't manifestation tolerant.
    NoTime,
    /// The least length of an image isn't 1 to 16,777,216 bytes.
    Least,
    /// The capacity is not a multiple of the unit.
    Unit,
    /// The capacity is not a multiple of the sector.
    Sector,
    /// The image at the start has more bytes than the capacity.
    Image,
}

/// Returns the fault of settings that `Config::new` refuses with `fault`.
fn device_fault(setup: &ScriptConfig<'_>, fault: ConfigFault) -> SetupFault {
    match fault {
        ConfigFault::BadTransfer => SetupFault::Transfer,
        ConfigFault::BadLeast => SetupFault::Least,
        ConfigFault::BadPoll => {
            if setup.busy_ms > MAX_POLL || setup.manifest_ms > MAX_POLL {
                SetupFault::Poll
            } else {
                SetupFault::NoTime
            }
        }
    }
}

/// Returns the first fault that involves the capacity, if there is one.
fn room_fault(setup: &ScriptConfig<'_>) -> Option<SetupFault>
    ensures { IfSome result (λ fault. HasRoomFault fault (settings_of setup.now)) }
{
    let bytes = setup.room.bytes;
    if bytes % setup.unit.size() != 0 {
        return Some(SetupFault::Unit);
    }
    if cuts_sector(setup.sector, setup.room) {
        return Some(SetupFault::Sector);
    }
    if first_image(setup).len() > bytes as usize {
        return Some(SetupFault::Image);
    }
    None
}

/// Returns the first fault of the settings, if they have one.
pub(crate) fn setup_fault(setup: &ScriptConfig<'_>) -> Option<SetupFault> {
    match device_config(setup) {
        Ok(_) => room_fault(setup),
        Err(fault) => Some(device_fault(setup, fault)),
    }
}

/// Returns the number of the line that causes this fault. If two lines cause the fault together, this is the later one. If no line does, it
/// is 0.
pub(crate) fn line_of_fault(setup: &ScriptConfig<'_>, fault: SetupFault) -> u32 {
    let lines = setup.lines;
    match fault {
        SetupFault::Unit => lines.capacity.max(lines.unit),
        SetupFault::Sector => lines.capacity.max(lines.sector),
        SetupFault::Image => lines.capacity.max(lines.image),
        _ => lines.device,
    }
}
