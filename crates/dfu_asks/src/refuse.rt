//! The calls by which the program of a device refuses an image.
ghost use Rattle.std.specs.Prelude.{◌≡◌, ◌↔◌, ℕ, List, not, IsTrue, IfOk, IfErr, OnOk, OnErr, IsSome};
ghost use Rattle.dfu_device.specs.Rows.{ClosesDownload};
ghost use Rattle.dfu_device.specs.Stage.{InError};
ghost use Rattle.dfu_device.specs.Table.{objection_code, refuse_stage};
ghost use Rattle.dfu_asks.specs.Lent.{lent, SameConfig};
ghost use Rattle.dfu_asks.specs.Asks.{device_in, IsDevice};
ghost use Rattle.dfu_asks.specs.Refused.{RoomForBlocks};

use crate::closes::mode_closes;
use crate::{Asking, Refusal};
use dfu_device::{DeviceState, Objection};

impl Asking {
    /// Refuses the image whose download `setup` would close, because of the program's `objection`, as `Device::refuse_close` does. Returns
    /// true if the setup closes a download, and then the caller must stall the request. The call needs neither the flash nor the memory of
    /// the block.
    ///
    /// # Errors
    ///
    /// `Asked` if writes are pending; nothing changes then.
    pub fn refuse_close(&mut self, setup: &[u8; 8], objection: Objection) -> Result<bool, Refusal>
        ensures closes { (block held flash : List ℕ) → IsDevice (lent self.old block held) flash →
            IfOk result (λ b. IsTrue b ↔ ClosesDownload setup.now (device_in (lent self.old block held) flash)) }
        ensures row { (block held flash : List ℕ) → let before = device_in (lent self.old block held) flash in IfOk result (λ b. IsTrue b →
            device_in (lent self.new block held) flash ≡ record before { stage = InError (objection_code objection) }) }
        ensures is_device { (block held flash : List ℕ) → OnOk result
            (IsDevice (lent self.old block held) flash → IsDevice (lent self.new block held) flash) }
        ensures block_fits { (room : ℕ) → OnOk result (RoomForBlocks self.old room → RoomForBlocks self.new room) }
        ensures other { IfOk result (λ b. IsTrue (not b) → self.new ≡ self.old) }
        ensures work { OnOk result ((self.old.work ≡ None) × (self.new.work ≡ None)) }
        ensures asked { IfErr result (λ e. (e ≡ Refusal.Asked) × IsSome self.old.work) }
        ensures same_config { SameConfig self.old self.new }
        ensures unchanged { OnErr result (self.new ≡ self.old) }
    {
        if self.work.is_some() {
            return Err(Refusal::Asked);
        }
        if !mode_closes(&self.config, self.mode, setup) {
            return Ok(false);
        }
        self.mode = DeviceState::after_refused_close(objection);
        Ok(true)
    }

    /// Refuses the image whose download was closed, because of the program's `objection`, as `Device::refuse` does. The call needs neither
    /// the flash nor the memory of the block.
    ///
    /// # Errors
    ///
    /// `Asked` if writes are pending; nothing changes then.
    pub fn refuse(&mut self, objection: Objection) -> Result<(), Refusal>
        ensures row { (block held flash : List ℕ) → let before = device_in (lent self.old block held) flash in OnOk result
            (device_in (lent self.new block held) flash ≡ record before { stage = refuse_stage objection before.stage }) }
        ensures is_device { (block held flash : List ℕ) → OnOk result
            (IsDevice (lent self.old block held) flash → IsDevice (lent self.new block held) flash) }
        ensures block_fits { (room : ℕ) → OnOk result (RoomForBlocks self.old room → RoomForBlocks self.new room) }
        ensures work { OnOk result ((self.old.work ≡ None) × (self.new.work ≡ None)) }
        ensures asked { IfErr result (λ e. (e ≡ Refusal.Asked) × IsSome self.old.work) }
        ensures same_config { SameConfig self.old self.new }
        ensures unchanged { OnErr result (self.new ≡ self.old) }
    {
        if self.work.is_some() {
            return Err(Refusal::Asked);
        }
        self.mode = self.mode.after_refusal(objection);
        Ok(())
    }
}
