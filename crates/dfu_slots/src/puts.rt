//! Bytes put since `begin`: each put writes the whole units, and holds the rest back.
ghost use Rattle.std.specs.Prelude.{◌≡◌, ◌+◌, ◌≤◌, ◌<◌, ◌++◌, [], length, OnOk};
ghost use Rattle.dfu_slots.specs.Units.{IsMultiple, unit_size};
ghost use Rattle.dfu_slots.specs.Medium.{IsWritableAhead};
ghost use Rattle.dfu_slots.specs.inside.Series.{Series};
ghost use Rattle.dfu_slots.specs.Image.{IsSizedMedium};
ghost use Rattle.dfu_slots.specs.Operations.{held_from};
ghost use Rattle.dfu_slots.specs.Writes.{put_writes, put_rest};

use crate::carry::Sources;
use crate::layout::MAX_UNIT;
use crate::sequence::Sequence;
use crate::{Medium, Unit, WriteFault};
use arrayvec::ArrayVec;

/// State of the bytes put since `begin`. Their whole units are written, and the rest is held back.
#[derive(Drop)]
pub struct Puts {
    /// Bytes held back. Their number is less than a unit.
    pub held: ArrayVec<u8, MAX_UNIT>,
    /// Offset in the spare's data at which the bytes put so far end.
    pub end: u32,
}

impl Puts {
    /// Returns the state before the first put: no bytes held back, and an end of 0.
    pub(crate) fn nothing() -> Puts
        ensures held { result.held.items ≡ [] }
        ensures end { result.end ≡ 0 }
    {
        Puts {
            held: ArrayVec::new(),
            end: 0,
        }
    }

    /// Discards all bytes put: none is held back, and the end is 0.
    pub(crate) fn clear(&mut self)
        ensures held { self.new.held.items ≡ [] }
        ensures end { self.new.end ≡ 0 }
    {
        self.held.clear();
        self.end = 0;
    }
}

// Appends `bytes` to the bytes held back.
fn hold(held: &mut ArrayVec<u8, MAX_UNIT>, bytes: &[u8])
    requires { length held.old.items + length bytes.now ≤ 256 }
    ensures { held.new.items ≡ held.old.items ++ bytes.now }
{
    let _ = held.try_extend_from_slice(bytes);
}

/// Appends `bytes` to `held`, and then removes all whole units from its front.
pub(crate) fn hold_rest(held: &mut ArrayVec<u8, MAX_UNIT>, unit: Unit, bytes: &[u8])
    requires part { length held.old.items < unit_size unit }
    requires short { length bytes.now ≤ 4096 }
    ensures { held.new.items ≡ put_rest unit held.old.items bytes.now }
{
    let all = held.len() + bytes.len();
    let rest = all % unit.size() as usize;
    if rest == all {
        hold(held, bytes);
        return;
    }
    held.clear();
    hold(held, &bytes[bytes.len() - rest..]);
}

/// Puts `bytes` after `held` into the data of the slot that begins at `slot`. `end` is the offset in the data at which the held bytes end.
/// Writes the unit that the held bytes begin, if `bytes` fill it, then all other whole units in one write, and holds the rest back.
pub(crate) fn put_units<M: Medium>(
    medium: &mut M,
    held: &mut ArrayVec<u8, MAX_UNIT>,
    slot: u32,
    end: u32,
    bytes: &[u8],
) -> Result<(), WriteFault>
    requires sized { IsSizedMedium (M.state medium.old) }
    requires ahead { let was = M.state medium.old in IsWritableAhead was (held_from was.grain slot end (length held.old.items)) }
    requires part { length held.old.items < unit_size (M.state medium.old).grain.unit }
    requires short { length bytes.now ≤ 4096 }
    requires within { let was = M.state medium.old in
        held_from was.grain slot end (length held.old.items) + (length held.old.items + length bytes.now) ≤ length was.bytes }
    requires place { let was = M.state medium.old in IsMultiple was.grain.unit (held_from was.grain slot end (length held.old.items)) }
    ensures writes { let was = M.state medium.old in
        Series was (put_writes was.grain (held_from was.grain slot end (length held.old.items)) held.old.items bytes.now)
        result (M.state medium.new) }
    ensures held { OnOk result (held.new.items ≡ put_rest (M.state medium.old).grain.unit held.old.items bytes.now) }
{
    let unit = medium.unit();
    let front = held.as_slice();
    let sequence = Sequence::Put {
        slot,
        end,
        held: front.len() as u16,
        block: bytes.len() as u16,
    };
    let from = Sources {
        held: front,
        block: bytes,
        header: &[0; 16],
    };
    match from.carry_out(medium, sequence) {
        Err(fault) => Err(fault),
        Ok(()) => {
            hold_rest(held, unit, bytes);
            Ok(())
        }
    }
}
