//! The calls that predict if a device will stall a setup, before the body of the setup arrives.
ghost use Rattle.std.specs.Prelude.{◌≡◌, ◌-◌, ◌*◌, ◌/◌, ℕ, List, length, Some, IfOk, IfErr, OnOk, IsSome, None};
ghost use Rattle.dfu_device.specs.Stage.{Profile as TableProfile};
ghost use Rattle.dfu_device.specs.Table.{plan};
ghost use Rattle.dfu_device.specs.Rows.{request_for_table};
ghost use Rattle.dfu_device.specs.Parts.{stage_of};
ghost use Rattle.dfu_device.specs.Decision.{table_profile_of, plan_of, HasWrittenBytes, HasBodyLength};
ghost use Rattle.dfu_slots.specs.Units.{gate_room};
ghost use Rattle.dfu_asks.specs.Asks.{grain_in, device_in, IsDevice};
ghost use Rattle.dfu_asks.specs.InMode.{IsDeviceIn};
ghost use Rattle.dfu_asks.specs.Lent.{LentDevice, lent};
ghost use Rattle.dfu_asks.specs.Mapped.{grain_of};
ghost use Rattle.dfu_asks.specs.Verdict.{stall_verdict, IsStallVerdict};

use crate::gates::gate_room;
use crate::{Asking, Refusal, Sector};
use dfu_device::{Config, Decision, DeviceState, Profile, Reply, decide};
use dfu_slots::Unit;
use dfu_wire::{Request, Setup};

// Returns true if a decision stalls its request.
fn stalls(decision: Decision) -> bool
    ensures { (c : TableProfile) (image spare block body : List ℕ)
        → Some result ≡ stall_verdict (plan_of c image spare block body decision) }
{
    match decision {
        Decision::Sure { reply, .. }
        | Decision::Writes { reply, .. }
        | Decision::Commits { reply, .. } => matches!(reply, Reply::Stall),
        Decision::Holds { .. } | Decision::Sends { .. } => false,
    }
}

// Returns true if a device of this profile stalls this class request in this mode, with every body of the right length.
fn will_stall(profile: &Profile, mode: DeviceState, request: Request) -> bool
    ensures { (image spare unwritten body : List ℕ) → HasWrittenBytes mode spare → HasBodyLength request body
        → Some result ≡ stall_verdict (plan (table_profile_of profile.now) image (stage_of mode spare unwritten) (request_for_table request body)) }
{
    stalls(decide(profile, mode, request))
}

// Returns the number of bytes of a slot's data in flash of `size` bytes.
fn room_in(unit: Unit, sector: Sector, size: usize) -> u64
    ensures { result ≡ size / 2 - 2 * gate_room (grain_of unit sector) }
{
    (size as u64 / 2).saturating_sub(2 * u64::from(gate_room(unit, sector)))
}

/// Returns true if a device with `config` in `mode` stalls `setup`, as `Asking::would_stall` does, on a flash of `size` bytes that is
/// written in units of `unit` and erased in sectors of `sector`.
pub fn mode_stalls(
    config: &Config,
    unit: Unit,
    sector: Sector,
    mode: DeviceState,
    size: usize,
    setup: &[u8; 8],
) -> bool
    ensures { (a : LentDevice) (flash : List ℕ) → IsDeviceIn config.now mode a flash → grain_in a ≡ grain_of unit sector →
        length flash ≡ size → IsStallVerdict result setup.now (device_in a flash) }
{
    let profile = config.profile(room_in(unit, sector, size));
    will_stall(&profile, mode, Setup::decode(setup).request())
}

impl Asking {
    /// Returns true exactly if `handle` will stall `setup` for every body of wLength bytes (USB DFU 1.1, appendix A). `size` is the number
    /// of bytes of the flash. A stack that stalls a request before its data stage must make this call first.
    ///
    /// # Errors
    ///
    /// `Asked` if writes are pending.
    pub fn would_stall(&self, size: usize, setup: &[u8; 8]) -> Result<bool, Refusal>
        ensures told { (block held flash : List ℕ) → IsDevice (lent self.now block held) flash → length flash ≡ size →
            IfOk result (λ b. IsStallVerdict b setup.now (device_in (lent self.now block held) flash)) }
        ensures idle { OnOk result (self.now.work ≡ None) }
        ensures asked { IfErr result (λ e. (e ≡ Refusal.Asked) × IsSome self.now.work) }
    {
        if self.work.is_some() {
            return Err(Refusal::Asked);
        }
        Ok(mode_stalls(&self.config, self.unit, self.sector, self.mode, size, setup))
    }
}
