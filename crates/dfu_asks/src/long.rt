//! Setups whose body is longer than the transfer size.
ghost use Rattle.std.specs.Prelude.{◌≡◌, ◌↔◌, ℕ, List, [], nat_lt, not, IsTrue, IfOk, IfErr, OnOk, OnErr, IfSome, IfNone, OnSome, IsSome, None};
ghost use Rattle.dfu_device.specs.Rows.{Handles, body_length};
ghost use Rattle.dfu_device.specs.declared.answer.Answer.TheVariants.{Stall};
ghost use Rattle.dfu_asks.specs.AfterLong.{after_long, IsLongerThanBlock};
ghost use Rattle.dfu_asks.specs.Mapped.{UnseenState};
ghost use Rattle.dfu_asks.specs.Asks.{device_with, IsDevice};
ghost use Rattle.dfu_asks.specs.InMode.{IsDeviceIn};
ghost use Rattle.dfu_asks.specs.Lent.{LentDevice, lent, SameConfig};
ghost use Rattle.dfu_asks.specs.Refused.{RoomForBlocks};
ghost use Rattle.dfu_asks.specs.Verdict.{IsBodyOf};

use crate::{Asking, Refusal};
use dfu_device::{Config, DeviceState};
use dfu_wire::{Code, Setup};

// Returns the mode of a device in `mode` after a setup whose body is longer than the transfer size.
fn after_long(mode: DeviceState) -> DeviceState
    ensures { result ≡ after_long mode }
{
    match mode {
        DeviceState::AppIdle | DeviceState::AppDetach { .. } => DeviceState::AppIdle,
        DeviceState::ManifestWaitReset => DeviceState::ManifestWaitReset,
        DeviceState::Error { code } => DeviceState::Error { code },
        _ => DeviceState::Error {
            code: Code::StalledPkt,
        },
    }
}

// Returns true if the setup announces more bytes from the host than the transfer size.
fn is_long(setup: &Setup, transfer: u16) -> bool
    ensures { result ≡ nat_lt transfer (body_length setup.now) }
{
    setup.kind == 0x21 && setup.length > transfer
}

/// Returns the mode to which `setup` leads a device with `config` in `mode`, if the host sends more bytes with it than the transfer size,
/// as `Asking::too_long` does; None exactly if the host sends no more.
pub fn mode_after_long(config: &Config, mode: DeviceState, setup: &[u8; 8]) -> Option<DeviceState>
    ensures row { IfSome result (λ after. (a : LentDevice) (flash : List ℕ) → IsDeviceIn config.now mode a flash →
        IsDevice (record a { mode = after }) flash × ((body : List ℕ) → IsBodyOf setup.now body → (u : UnseenState) →
        Handles setup.now body (device_with u a flash) Stall [] (device_with u (record a { mode = after }) flash))) }
    ensures long { OnSome result (IsLongerThanBlock config.now setup.now) }
    ensures none { IfNone result (¬ IsLongerThanBlock config.now setup.now) }
{
    let setup = Setup::decode(setup);
    if !is_long(&setup, config.functional().transfer) {
        return None;
    }
    if setup.index == 0 {
        Some(after_long(mode))
    } else {
        Some(mode)
    }
}

impl Asking {
    /// Handles `setup`, as `handle` does, if its body is longer than the transfer size, so that no memory must hold the body. Returns true
    /// if the body is longer; the caller must then stall the request (USB DFU 1.1, section 6.1.1). Returns false if it is not; nothing
    /// changes then. The call needs neither the flash nor the memory of the block.
    ///
    /// # Errors
    ///
    /// `Asked` if writes are pending; nothing changes then.
    pub fn too_long(&mut self, setup: &[u8; 8]) -> Result<bool, Refusal>
        ensures long { IfOk result (λ b. IsTrue b ↔ IsLongerThanBlock self.old.config setup.now) }
        ensures row { (block held flash : List ℕ) → IsDevice (lent self.old block held) flash →
            IfOk result (λ b. IsTrue b → (body : List ℕ) → IsBodyOf setup.now body → (u : UnseenState) → Handles setup.now body
            (device_with u (lent self.old block held) flash) Stall [] (device_with u (lent self.new block held) flash)) }
        ensures is_device { (block held flash : List ℕ) → OnOk result
            (IsDevice (lent self.old block held) flash → IsDevice (lent self.new block held) flash) }
        ensures unchanged { OnErr result (self.new ≡ self.old) }
        ensures asked { IfErr result (λ e. (e ≡ Refusal.Asked) × IsSome self.old.work) }
        ensures other { IfOk result (λ b. IsTrue (not b) → self.new ≡ self.old) }
        ensures work { OnOk result ((self.old.work ≡ None) × (self.new.work ≡ None)) }
        ensures block_fits { (room : ℕ) → OnOk result (RoomForBlocks self.old room → RoomForBlocks self.new room) }
        ensures same_config { SameConfig self.old self.new }
    {
        if self.work.is_some() {
            return Err(Refusal::Asked);
        }
        match mode_after_long(&self.config, self.mode, setup) {
            Some(after) => {
                self.mode = after;
                Ok(true)
            }
            None => Ok(false),
        }
    }
}
