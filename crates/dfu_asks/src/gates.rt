//! Size of the gate of a slot, which depends on the unit and the sector of the flash.
ghost use Rattle.std.specs.Prelude.{◌≡◌, ◌≤◌, ◌^◌};
ghost use Rattle.dfu_slots.specs.Units.{gate_room};
ghost use Rattle.dfu_asks.specs.Mapped.{grain_of};

use crate::Sector;
use dfu_slots::Unit;

/// Returns the number of bytes that the gate of a slot occupies in flash with this unit and sector: the largest of 16, the unit and the
/// sector. The header occupies as many.
pub(crate) fn gate_room(unit: Unit, sector: Sector) -> u32
    ensures value { result ≡ gate_room (grain_of unit sector) }
    ensures at_most_256_kib { result ≤ 2 ^ 18 }
{
    unit.size().max(16).max(sector.size())
}
