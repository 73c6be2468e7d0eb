//! Offsets of the active slot and of the spare slot on a medium.
ghost use Rattle.std.specs.Prelude.{◌≡◌, ◌+◌, ◌≤◌, ◌&&◌, not, length, OnOk, IfOk, IfErr};
ghost use Rattle.dfu_slots.specs.Layout.{slot_size, slot_place};
ghost use Rattle.dfu_slots.specs.Image.{gate_of, IsSizedMedium, slot_of, slot_counts, is_newest, active_at, spare_at, HasImage};
ghost use Rattle.dfu_slots.specs.Changes.{FirstOpenFault};

use crate::layout::is_sized;
use crate::read::{counts, generation, header_len};
use crate::{Medium, OpenFault};

/// Offsets of the active slot and of the spare slot, in bytes from the beginning of the medium.
#[derive(Clone, Copy, Drop)]
pub struct Places {
    /// Offset of the active slot's first byte.
    pub active: u32,
    /// Offset of the spare slot's first byte.
    pub spare: u32,
}

/// For each of the two slots, true if it counts in the sense of `OpenFault`.
#[derive(Clone, Copy, Drop)]
pub struct Counted {
    pub first: bool,
    pub second: bool,
}

/// Finds the slots that count. For an open slot of version 2 this reads the whole image once, to compute its CRC register.
pub(crate) fn count_slots<M: Medium>(medium: &M) -> Counted
    requires { IsSizedMedium (M.state medium.now) }
    ensures first { result.first ≡ slot_counts (slot_of (M.state medium.now) 0) }
    ensures second { result.second ≡ slot_counts (slot_of (M.state medium.now) (slot_size (M.state medium.now).bytes)) }
{
    Counted {
        first: counts(medium, 0),
        second: counts(medium, medium.len() / 2),
    }
}

/// Returns true if neither slot counts.
pub(crate) fn is_none(counted: Counted) -> bool
    ensures { result ≡ (not counted.first && not counted.second) }
{
    !counted.first && !counted.second
}

// Returns true if the slot at `mine` counts, and the slot at `other` doesn't count or is one generation older.
fn is_newest<M: Medium>(
    medium: &M,
    mine: u32,
    other: u32,
    mine_counts: bool,
    other_counts: bool,
) -> bool
    requires sized { IsSizedMedium (M.state medium.now) }
    requires mine { mine + slot_size (M.state medium.now).bytes ≤ length (M.state medium.now).bytes }
    requires other { other + slot_size (M.state medium.now).bytes ≤ length (M.state medium.now).bytes }
    requires mine_counts { mine_counts ≡ slot_counts (slot_of (M.state medium.now) mine) }
    requires other_counts { other_counts ≡ slot_counts (slot_of (M.state medium.now) other) }
    ensures { result ≡ is_newest (slot_of (M.state medium.now) mine) (slot_of (M.state medium.now) other) }
{
    mine_counts
        && (!other_counts || generation(medium, mine) == generation(medium, other).wrapping_add(1))
}

/// Returns the offsets of the slots. If `first` is true, the first slot is the active one, otherwise the second.
pub(crate) fn places_of<M: Medium>(medium: &M, first: bool) -> Places
    ensures active { result.active ≡ slot_place first (M.state medium.now).bytes }
    ensures spare { result.spare ≡ slot_place (not first) (M.state medium.now).bytes }
{
    let second = medium.len() / 2;
    if first {
        Places {
            active: 0,
            spare: second,
        }
    } else {
        Places {
            active: second,
            spare: 0,
        }
    }
}

/// Returns the offsets of the active slot and of the spare slot. If neither slot is the newest, it returns the second slot as active.
pub(crate) fn find_places<M: Medium>(medium: &M, counted: Counted) -> Places
    requires sized { IsSizedMedium (M.state medium.now) }
    requires first { counted.first ≡ slot_counts (slot_of (M.state medium.now) 0) }
    requires second { counted.second ≡ slot_counts (slot_of (M.state medium.now) (slot_size (M.state medium.now).bytes)) }
    ensures active { result.active ≡ active_at (gate_of (M.state medium.now)) (M.state medium.now).bytes }
    ensures spare { result.spare ≡ spare_at (gate_of (M.state medium.now)) (M.state medium.now).bytes }
{
    let second = medium.len() / 2;
    let first = is_newest(medium, 0, second, counted.first, counted.second);
    places_of(medium, first)
}

/// Returns true if the slot at `places.active` is the newest one.
pub(crate) fn has_newest<M: Medium>(medium: &M, places: Places, counted: Counted) -> bool
    requires sized { IsSizedMedium (M.state medium.now) }
    requires active { places.active ≡ active_at (gate_of (M.state medium.now)) (M.state medium.now).bytes }
    requires spare { places.spare ≡ spare_at (gate_of (M.state medium.now)) (M.state medium.now).bytes }
    requires first { counted.first ≡ slot_counts (slot_of (M.state medium.now) 0) }
    requires second { counted.second ≡ slot_counts (slot_of (M.state medium.now) (slot_size (M.state medium.now).bytes)) }
    ensures { result ≡ is_newest (slot_of (M.state medium.now) places.active) (slot_of (M.state medium.now) places.spare) }
{
    let Places { active, spare } = places;
    if active == 0 {
        is_newest(medium, active, spare, counted.first, counted.second)
    } else {
        is_newest(medium, active, spare, counted.second, counted.first)
    }
}

/// Returns the offsets of the active slot and of the spare slot.
pub(crate) fn look<M: Medium>(medium: &M) -> Places
    requires { IsSizedMedium (M.state medium.now) }
    ensures active { result.active ≡ active_at (gate_of (M.state medium.now)) (M.state medium.now).bytes }
    ensures spare { result.spare ≡ spare_at (gate_of (M.state medium.now)) (M.state medium.now).bytes }
{
    find_places(medium, count_slots(medium))
}

/// Returns the offsets of the two slots of a medium that has an active image.
///
/// # Errors
///
/// The first fault of the medium, in the order of `OpenFault`.
pub fn check<M: Medium>(medium: &M) -> Result<Places, OpenFault>
    ensures ok { OnOk result (HasImage (M.state medium.now)) }
    ensures active { IfOk result (λ p. p.active ≡ active_at (gate_of (M.state medium.now)) (M.state medium.now).bytes) }
    ensures spare { IfOk result (λ p. p.spare ≡ spare_at (gate_of (M.state medium.now)) (M.state medium.now).bytes) }
    ensures fault { IfErr result (λ fault. FirstOpenFault fault (M.state medium.now)) }
    ensures sized { OnOk result (IsSizedMedium (M.state medium.now)) }
{
    if !is_sized(medium) {
        return Err(OpenFault::WrongSize);
    }
    let counted = count_slots(medium);
    if is_none(counted) {
        return Err(OpenFault::NoImage);
    }
    let places = find_places(medium, counted);
    if !has_newest(medium, places, counted) {
        return Err(OpenFault::TwoImages);
    }
    match header_len(medium, places.active) {
        Some(_) => Ok(places),
        None => Err(OpenFault::BadHeader),
    }
}
