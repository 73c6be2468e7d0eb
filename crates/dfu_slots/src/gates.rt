//! Closes a slot's gate, and opens it after a new header is written.
ghost use Rattle.std.specs.Prelude.{◌≡◌, ℕ, [], ◌∷◌, ◌++◌, ◌+◌, ◌%◌, ◌≤◌, ◌<◌, length};
ghost use Rattle.dfu_slots.specs.Units.{IsMultiple, filled_units};
ghost use Rattle.dfu_slots.specs.Medium.{IsWritableAhead};
ghost use Rattle.dfu_slots.specs.inside.Series.{Series};
ghost use Rattle.dfu_slots.specs.Layout.{slot_size, header};
ghost use Rattle.dfu_slots.specs.Image.{gate_of, IsSizedMedium};
ghost use Rattle.dfu_slots.specs.Operations.{held_from};
ghost use Rattle.dfu_slots.specs.Writes.{closed_gate, held_writes, open_writes};

use crate::carry::Sources;
use crate::sequence::Sequence;
use crate::{Medium, WriteFault};

/// Closes the gate of the slot that begins at `slot`. Without sectors it writes a gate unit of zeros; with sectors it erases the gate's
/// sector.
pub(crate) fn close_gate<M: Medium>(medium: &mut M, slot: u32) -> Result<(), WriteFault>
    requires sized { IsSizedMedium (M.state medium.old) }
    requires within { slot + gate_of (M.state medium.old) ≤ length (M.state medium.old).bytes }
    requires place { IsMultiple (M.state medium.old).grain.unit slot }
    requires sector { let sector = (M.state medium.old).grain.sector in 0 < sector → slot % sector ≡ 0 }
    ensures { let was = M.state medium.old in
        Series was (record { at = slot; bytes = closed_gate was.grain } ∷ []) result (M.state medium.new) }
{
    let none = Sources {
        held: &[],
        block: &[],
        header: &[0; 16],
    };
    none.carry_out(medium, Sequence::Close { slot })
}

/// Writes `held`, at most 256 bytes that end at offset `end` of the slot's data, then the header `head`, and then, in a separate write, the
/// open gate. The slot begins at `slot`.
pub(crate) fn open_slot<M: Medium>(
    medium: &mut M,
    slot: u32,
    end: u32,
    held: &[u8],
    head: &[u8; 16],
) -> Result<(), WriteFault>
    requires sized { IsSizedMedium (M.state medium.old) }
    requires slot { slot + slot_size (M.state medium.old).bytes ≤ length (M.state medium.old).bytes }
    requires place { IsMultiple (M.state medium.old).grain.unit slot }
    requires sector { let sector = (M.state medium.old).grain.sector in 0 < sector → slot % sector ≡ 0 }
    requires few { length held.now ≤ 256 }
    requires ahead { let was = M.state medium.old in IsWritableAhead was (held_from was.grain slot end (length held.now)) }
    requires within { let was = M.state medium.old in
        held_from was.grain slot end (length held.now) + length (filled_units was.grain.unit held.now) ≤ length was.bytes }
    requires whole { let was = M.state medium.old in IsMultiple was.grain.unit (held_from was.grain slot end (length held.now)) }
    ensures { (gen len crc : ℕ) → head.now ≡ header 2 gen len crc → let was = M.state medium.old in
        Series was (held_writes was.grain (held_from was.grain slot end (length held.now)) held.now
        ++ open_writes was.grain slot gen len crc) result (M.state medium.new) }
{
    let sequence = Sequence::Commit {
        slot,
        end,
        held: held.len() as u16,
    };
    let from = Sources {
        held,
        block: &[],
        header: head,
    };
    from.carry_out(medium, sequence)
}
