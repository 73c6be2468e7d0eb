//! Power-on of a device that lets its program write the flash.
ghost use Rattle.std.specs.Prelude.{◌≡◌, ◌⊎◌, true, false, ℕ, List, [], pos};
ghost use Rattle.dfu_device.specs.declared.device_state.DeviceState.TheVariants.{AppIdle, DfuIdle};
ghost use Rattle.dfu_core.specs.Board.{CoreRestart, core_board};
ghost use Rattle.dfu_core.specs.Happens.{CoreEventOutcome, IsCorePoweredOn};
ghost use Rattle.dfu_core.specs.Power.{PowerOutcome, RefusesPower};

use dfu_asks::Noted;
use dfu_core::{DfuConfig, DfuRecord, blank, settings_of, slot_of};

// Powers a device on in `mode`: 0 for appIDLE or 2 for dfuIDLE. Returns 0, or the number of a refusal, which leaves `device` unchanged.
fn start(config: &DfuConfig, device: &mut DfuRecord, flash: &[u8], mode: u32) -> i32
    ensures app { mode ≡ 0 → PowerOutcome config.now AppIdle flash.now result device.new
        ⊎ (RefusesPower config.now flash.now result × (device.new ≡ device.old)) }
    ensures dfu { mode ≡ 2 → PowerOutcome config.now DfuIdle flash.now result device.new
        ⊎ (RefusesPower config.now flash.now result × (device.new ≡ device.old)) }
{
    let Some(settings) = settings_of(config) else {
        return -2;
    };
    match Noted::find(flash, settings.unit, settings.sector) {
        Some(noted) => {
            let Noted { second, header } = noted;
            *device = blank();
            device.mode = mode;
            device.slot = slot_of(second);
            device.header = header;
            0
        }
        None => -3,
    }
}

/// Powers `device` on in appIDLE, as `Asking::power_on` does. Returns 0. The old content of `device` doesn't matter.
///
/// Returns -2 if the configuration is not allowed; -3 if the flash has no active image, or if it has 2^32 bytes or more.
#[unsafe(no_mangle)]
pub extern "C" fn dfu_core_power_on(config: &DfuConfig, device: &mut DfuRecord, flash: &[u8]) -> i32
    ensures outcome { PowerOutcome config.now AppIdle flash.now result device.new
        ⊎ (RefusesPower config.now flash.now result × (device.new ≡ device.old)) }
    ensures step { result ≡ pos 0 → (kept : DfuRecord) (before block : List ℕ) →
        CoreEventOutcome (core_board config.now kept before flash.now) (CoreRestart false) result []
        (core_board config.now device.new block flash.now) }
    ensures powered_on { result ≡ pos 0 → (block : List ℕ) → IsCorePoweredOn (core_board config.now device.new block flash.now) }
{
    start(config, device, flash, 0)
}

/// Powers `device` on in dfuIDLE: the result is the same as after `dfu_core_power_on`, a DETACH and a reset of the bus. The refusals of
/// `dfu_core_power_on` apply.
#[unsafe(no_mangle)]
pub extern "C" fn dfu_core_begin(config: &DfuConfig, device: &mut DfuRecord, flash: &[u8]) -> i32
    ensures outcome { PowerOutcome config.now DfuIdle flash.now result device.new
        ⊎ (RefusesPower config.now flash.now result × (device.new ≡ device.old)) }
    ensures step { result ≡ pos 0 → (kept : DfuRecord) (before block : List ℕ) →
        CoreEventOutcome (core_board config.now kept before flash.now) (CoreRestart true) result []
        (core_board config.now device.new block flash.now) }
    ensures powered_on { result ≡ pos 0 → (block : List ℕ) → IsCorePoweredOn (core_board config.now device.new block flash.now) }
{
    start(config, device, flash, 2)
}
