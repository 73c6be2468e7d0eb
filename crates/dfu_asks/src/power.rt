//! The calls that power a device on.
ghost use Rattle.std.specs.Prelude.{◌≡◌, ℕ, List, IfSome, IfNone, None};
ghost use Rattle.dfu_slots.specs.Image.{HasImage};
ghost use Rattle.dfu_device.specs.DeviceView.{powered_on_device};
ghost use Rattle.dfu_device.specs.Stage.{InDfuIdle};
ghost use Rattle.dfu_asks.specs.Mapped.{grain_of, mapped_medium};
ghost use Rattle.dfu_asks.specs.Lent.{lent};
ghost use Rattle.dfu_asks.specs.Asks.{device_in, IsDevice};

use crate::{Asking, Noted, Sector};
use dfu_device::{Config, DeviceState};
use dfu_slots::Unit;

impl Asking {
    /// Returns a device after power-on: in appIDLE, with no block, on `flash`. The call reads the images to find the active one. The flash
    /// is written in units of `unit`: after an erase of its sectors `sector`, or in place if there are none.
    ///
    /// None exactly if the flash has no active image, or 2^32 bytes or more.
    pub fn power_on(config: Config, unit: Unit, sector: Sector, flash: &[u8]) -> Option<Asking>
        ensures device { let m = mapped_medium (grain_of unit sector) flash.now in (block held : List ℕ) →
            IfSome result (λ a. device_in (lent a block held) flash.now ≡ powered_on_device config m) }
        ensures is_device { (block held : List ℕ) → IfSome result (λ a. IsDevice (lent a block held) flash.now) }
        ensures work { IfSome result (λ a. (a.work ≡ None) × (a.block_len ≡ 0) × (a.config ≡ config) × (a.unit ≡ unit)) }
        ensures sector { IfSome result (λ a. a.sector ≡ sector) }
        ensures fresh { IfSome result (λ a. (a.mode ≡ DeviceState.AppIdle) × (a.held_len ≡ 0) × (a.put_end ≡ 0)) }
        ensures none { IfNone result (¬ HasImage (mapped_medium (grain_of unit sector) flash.now)) }
    {
        let noted = Noted::find(flash, unit, sector)?;
        Some(Asking {
            config,
            unit,
            sector,
            mode: DeviceState::AppIdle,
            block_len: 0,
            held_len: 0,
            put_end: 0,
            noted,
            work: None,
        })
    }

    /// Returns a device that begins in dfuIDLE, as if after `power_on`, a DETACH and a reset of the bus (USB DFU 1.1, section 5.1). A
    /// bootloader that was entered to receive a download must start this way.
    ///
    /// None exactly if the flash has no active image, or 2^32 bytes or more.
    pub fn begin(config: Config, unit: Unit, sector: Sector, flash: &[u8]) -> Option<Asking>
        ensures device { let m = mapped_medium (grain_of unit sector) flash.now in (block held : List ℕ) →
            IfSome result (λ a. device_in (lent a block held) flash.now ≡ record (powered_on_device config m) { stage = InDfuIdle }) }
        ensures is_device { (block held : List ℕ) → IfSome result (λ a. IsDevice (lent a block held) flash.now) }
        ensures work { IfSome result (λ a. (a.work ≡ None) × (a.block_len ≡ 0) × (a.config ≡ config) × (a.unit ≡ unit)) }
        ensures sector { IfSome result (λ a. a.sector ≡ sector) }
        ensures fresh { IfSome result (λ a. (a.mode ≡ DeviceState.DfuIdle) × (a.held_len ≡ 0) × (a.put_end ≡ 0)) }
        ensures none { IfNone result (¬ HasImage (mapped_medium (grain_of unit sector) flash.now)) }
    {
        let mut device = Asking::power_on(config, unit, sector, flash)?;
        device.mode = DeviceState::DfuIdle;
        Some(device)
    }
}
