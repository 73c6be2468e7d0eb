//! Checks a medium, and also finds the image in the spare slot.
ghost use Rattle.std.specs.Prelude.{◌≡◌, ℕ, OnOk, IfOk, IfErr, IfSome, IfNone};
ghost use Rattle.dfu_slots.specs.Layout.{slot_size, HasHeader};
ghost use Rattle.dfu_slots.specs.Image.{gate_of, IsSizedMedium, slot_of, SlotCounts, slot_counts, active_at, spare_at, HasImage};
ghost use Rattle.dfu_slots.specs.Changes.{FirstOpenFault};

use crate::layout::is_sized;
use crate::places::{Counted, count_slots, find_places, has_newest, is_none};
use crate::read::header_len;
use crate::{Medium, OpenFault, Places};

/// Offsets of the two slots of a medium with an active image, and the length of the image in the spare slot, if that slot holds one.
#[derive(Clone, Copy, Drop)]
pub struct Both {
    /// Offsets of the active slot and of the spare slot.
    pub places: Places,
    /// Length in bytes of the image in the spare slot; None if the slot doesn't count or its header is not well formed.
    pub spare_len: Option<u32>,
}

// Returns the length of the image in the spare slot; None if the slot doesn't count or its header is not well formed.
fn spare_len<M: Medium>(medium: &M, spare: u32, counted: Counted) -> Option<u32>
    requires sized { IsSizedMedium (M.state medium.now) }
    requires spare { spare ≡ spare_at (gate_of (M.state medium.now)) (M.state medium.now).bytes }
    requires first { counted.first ≡ slot_counts (slot_of (M.state medium.now) 0) }
    requires second { counted.second ≡ slot_counts (slot_of (M.state medium.now) (slot_size (M.state medium.now).bytes)) }
    ensures counts { IfSome result (λ len. SlotCounts (slot_of (M.state medium.now) spare)) }
    ensures some { IfSome result (λ len. HasHeader (slot_of (M.state medium.now) spare) len) }
    ensures none { IfNone result (SlotCounts (slot_of (M.state medium.now) spare) → (len : ℕ) →
        ¬ HasHeader (slot_of (M.state medium.now) spare) len) }
{
    let counts = if spare == 0 {
        counted.first
    } else {
        counted.second
    };
    if !counts {
        return None;
    }
    header_len(medium, spare)
}

/// Returns the offsets of the two slots of a medium with an active image, and the length of the image in the spare slot, if that slot holds
/// one. Reads only bytes that `check` reads too.
///
/// # Errors
///
/// The first fault of the medium, in the order of `OpenFault`.
pub fn check_both<M: Medium>(medium: &M) -> Result<Both, OpenFault>
    ensures ok { OnOk result (HasImage (M.state medium.now)) }
    ensures active { IfOk result (λ b. b.places.active ≡ active_at (gate_of (M.state medium.now)) (M.state medium.now).bytes) }
    ensures spare { IfOk result (λ b. b.places.spare ≡ spare_at (gate_of (M.state medium.now)) (M.state medium.now).bytes) }
    ensures counts { IfOk result (λ b. IfSome b.spare_len (λ len. SlotCounts (slot_of (M.state medium.now) b.places.spare))) }
    ensures some { IfOk result (λ b. IfSome b.spare_len (λ len. HasHeader (slot_of (M.state medium.now) b.places.spare) len)) }
    ensures none { IfOk result (λ b. IfNone b.spare_len (SlotCounts (slot_of (M.state medium.now) b.places.spare) →
        (len : ℕ) → ¬ HasHeader (slot_of (M.state medium.now) b.places.spare) len)) }
    ensures fault { IfErr result (λ fault. FirstOpenFault fault (M.state medium.now)) }
    ensures sized { OnOk result (IsSizedMedium (M.state medium.now)) }
{
    if !is_sized(medium) {
        return Err(OpenFault::WrongSize);
    }
    let counted = count_slots(medium);
    if is_none(counted) {
        return Err(OpenFault::NoImage);
    }
    let places = find_places(medium, counted);
    if !has_newest(medium, places, counted) {
        return Err(OpenFault::TwoImages);
    }
    match header_len(medium, places.active) {
        Some(_) => Ok(Both {
            places,
            spare_len: spare_len(medium, places.spare, counted),
        }),
        None => Err(OpenFault::BadHeader),
    }
}
