//! Performs `begin`, `put` and `commit` on a medium and the state of its puts.
ghost use Rattle.std.specs.Prelude.{◌≡◌, ◌+◌, ◌≤◌, ◌<◌, ◌↔◌, length, IsErrOf, OnErr};
ghost use Rattle.dfu_slots.specs.inside.Series.{Series};
ghost use Rattle.dfu_slots.specs.Layout.{HasOpenGate};
ghost use Rattle.dfu_slots.specs.Image.{gate_of, IsSizedMedium, capacity_of, active_at, spare_at};
ghost use Rattle.dfu_slots.specs.Writes.{begin_writes};
ghost use Rattle.dfu_slots.specs.StoreView.{store_on, store_of, spare_slot, writes_of, Begin, Put, Commit};
ghost use Rattle.dfu_slots.specs.Store.{HasPutBytes};
ghost use Rattle.dfu_slots.specs.Changes.{CallIsBroken, CallChanges};

use crate::gates::{close_gate, open_slot};
use crate::layout::{VERSION, capacity_of, make_header};
use crate::places::Places;
use crate::puts::{Puts, put_units};
use crate::read::{generation, is_open};
use crate::register::register_of_put;
use crate::{Medium, PutFault, WriteFault};

// Closes the spare's gate if it is open.
fn close_spare<M: Medium>(medium: &mut M, places: Places) -> Result<(), WriteFault>
    requires sized { IsSizedMedium (M.state medium.old) }
    requires spare { places.spare ≡ spare_at (gate_of (M.state medium.old)) (M.state medium.old).bytes }
    ensures { let was = M.state medium.old in
        Series was (begin_writes was.grain was.bytes) result (M.state medium.new) }
{
    if is_open(medium, places.spare) {
        return close_gate(medium, places.spare);
    }
    Ok(())
}

/// Closes the spare's gate if it is open, and discards the bytes put.
pub(crate) fn begin<M: Medium>(
    medium: &mut M,
    puts: &mut Puts,
    places: Places,
) -> Result<(), PutFault>
    requires sized { IsSizedMedium (M.state medium.old) }
    requires spare { places.spare ≡ spare_at (gate_of (M.state medium.old)) (M.state medium.old).bytes }
    ensures changes { CallChanges (store_of (M.state medium.old) puts.old.held.items puts.old.end) (Begin) result
        (store_of (M.state medium.new) puts.new.held.items puts.new.end) }
    ensures fault { OnErr result (CallIsBroken result) }
{
    puts.clear();
    match close_spare(medium, places) {
        Ok(()) => Ok(()),
        Err(WriteFault::Failed) => Err(PutFault::Failed),
        Err(WriteFault::NotVerified) => Err(PutFault::NotVerified),
    }
}

/// Puts `bytes` at offset `at` of the spare's data, the end of the bytes put before: writes their whole units, and holds the rest back.
pub(crate) fn put<M: Medium>(
    medium: &mut M,
    puts: &mut Puts,
    places: Places,
    at: u32,
    bytes: &[u8],
) -> Result<(), PutFault>
    requires sized { IsSizedMedium (M.state medium.old) }
    requires spare { places.spare ≡ spare_at (gate_of (M.state medium.old)) (M.state medium.old).bytes }
    requires puts { HasPutBytes (store_of (M.state medium.old) puts.old.held.items puts.old.end) }
    requires place { at ≡ puts.old.end }
    requires short { length bytes.now ≤ 4096 }
    ensures changes { CallChanges (store_of (M.state medium.old) puts.old.held.items puts.old.end) (Put at bytes.now) result
        (store_of (M.state medium.new) puts.new.held.items puts.new.end) }
    ensures not_begun { IsErrOf result PutFault.NotBegun ↔ HasOpenGate (spare_slot (store_on (M.state medium.old))) }
    ensures too_large { IsErrOf result PutFault.TooLarge ↔
        ((¬ HasOpenGate (spare_slot (store_on (M.state medium.old)))) ×
        (capacity_of (M.state medium.old) < at + length bytes.now)) }
{
    if is_open(medium, places.spare) {
        return Err(PutFault::NotBegun);
    }
    if u64::from(at) + bytes.len() as u64 > u64::from(capacity_of(medium)) {
        return Err(PutFault::TooLarge);
    }
    match put_units(medium, &mut puts.held, places.spare, at, bytes) {
        Ok(()) => {
            puts.end += bytes.len() as u32;
            Ok(())
        }
        Err(WriteFault::Failed) => {
            puts.clear();
            Err(PutFault::Failed)
        }
        Err(WriteFault::NotVerified) => {
            puts.clear();
            Err(PutFault::NotVerified)
        }
    }
}

// Writes the bytes held back, then the spare's header, and then, in a separate write, its open gate.
fn open_spare<M: Medium>(
    medium: &mut M,
    places: Places,
    puts: &Puts,
    len: u32,
) -> Result<(), WriteFault>
    requires sized { IsSizedMedium (M.state medium.old) }
    requires puts { HasPutBytes (store_of (M.state medium.old) puts.now.held.items puts.now.end) }
    requires active { places.active ≡ active_at (gate_of (M.state medium.old)) (M.state medium.old).bytes }
    requires spare { places.spare ≡ spare_at (gate_of (M.state medium.old)) (M.state medium.old).bytes }
    requires end { len ≤ puts.now.end }
    ensures { let was = store_of (M.state medium.old) puts.now.held.items puts.now.end in
        Series (M.state medium.old) (writes_of was (Commit len)) result (M.state medium.new) }
{
    let next = generation(medium, places.active).wrapping_add(1);
    let held = puts.held.as_slice();
    let at = puts.end - held.len() as u32;
    let register = register_of_put(medium, places.spare, at, held, len);
    let head = make_header(VERSION, next, len, register);
    open_slot(medium, places.spare, puts.end, held, &head)
}

/// Writes the bytes held back and the spare's header for an image of the first `len` bytes put, opens the spare's gate, and discards the
/// bytes put.
pub(crate) fn commit<M: Medium>(
    medium: &mut M,
    puts: &mut Puts,
    places: Places,
    len: u32,
) -> Result<(), PutFault>
    requires sized { IsSizedMedium (M.state medium.old) }
    requires active { places.active ≡ active_at (gate_of (M.state medium.old)) (M.state medium.old).bytes }
    requires spare { places.spare ≡ spare_at (gate_of (M.state medium.old)) (M.state medium.old).bytes }
    requires puts { HasPutBytes (store_of (M.state medium.old) puts.old.held.items puts.old.end) }
    requires end { len ≤ puts.old.end }
    ensures changes { CallChanges (store_of (M.state medium.old) puts.old.held.items puts.old.end) (Commit len) result
        (store_of (M.state medium.new) puts.new.held.items puts.new.end) }
    ensures not_begun { IsErrOf result PutFault.NotBegun ↔ HasOpenGate (spare_slot (store_on (M.state medium.old))) }
    ensures not_too_large { ¬ IsErrOf result PutFault.TooLarge }
{
    if is_open(medium, places.spare) {
        return Err(PutFault::NotBegun);
    }
    let installed = open_spare(medium, places, puts, len);
    puts.clear();
    match installed {
        Ok(()) => Ok(()),
        Err(WriteFault::Failed) => Err(PutFault::Failed),
        Err(WriteFault::NotVerified) => Err(PutFault::NotVerified),
    }
}
