//! Derives the standing that an earlier `look` found, without reading the images.
ghost use Rattle.std.specs.Prelude.{◌≡◌, IfSome, IsTrue};
ghost use Rattle.dfu_slots.specs.Layout.{ArePlaces};
ghost use Rattle.dfu_slots.specs.Image.{IsSizedMedium, slot_of, SlotCounts, IsNewest};
ghost use Rattle.dfu_boot.specs.trial.Marks.{AreTries};
ghost use Rattle.dfu_boot.specs.trial.Calls.{IsStanding, image_place};
ghost use Rattle.dfu_boot.specs.trial.Again.{MatchesMedium, ImagesAreWhole};

use crate::trial::marks::{is_set, starts};
use crate::trial::{Settled, Standing, Trial};
use dfu_slots::{Medium, Places, capacity_of, data_at, generation, is_open, is_sized};

// Returns the offsets of both slots, with the slot whose data begins at `at` as the active one. None means that no slot's data begins
// there.
fn places_by_data<M: Medium>(medium: &M, at: u32) -> Option<Places>
    requires { IsSizedMedium (M.state medium.now) }
    ensures places { IfSome result (λ p. ArePlaces (M.state medium.now).bytes p.active p.spare) }
    ensures at { IfSome result (λ p. image_place (M.state medium.now).grain p.active ≡ at) }
{
    let second = medium.len() / 2;
    let gates = data_at(medium, 0);
    if at == gates {
        return Some(Places {
            active: 0,
            spare: second,
        });
    }
    if at == second + gates {
        return Some(Places {
            active: second,
            spare: 0,
        });
    }
    None
}

// Returns true if the slot at `places.active` is open, and the other slot is closed or one generation older. If the slot at `places.active`
// counts (`SlotCounts`), it is the newest then.
fn is_ahead<M: Medium>(medium: &M, places: Places) -> bool
    requires sized { IsSizedMedium (M.state medium.now) }
    requires places { ArePlaces (M.state medium.now).bytes places.active places.spare }
    ensures { IsTrue result → SlotCounts (slot_of (M.state medium.now) places.active) →
        IsNewest (slot_of (M.state medium.now) places.active) (slot_of (M.state medium.now) places.spare) }
{
    if !is_open(medium, places.active) {
        return false;
    }
    !is_open(medium, places.spare)
        || generation(medium, places.active) == generation(medium, places.spare).wrapping_add(1)
}

/// Derives the standing that an earlier `look` found. The image at offset `at` was active then, and if it was on trial, the image at offset
/// `base` was the confirmed one. The call reads gates, headers and marks, and relies on the earlier `look` for the fact that both images
/// are whole. None means that no slot's data begins at `at`, that the other slot may be active now, or that an image may be on trial that
/// `look` did not report; call `look` then.
pub fn look_again<M: Medium>(medium: &M, tries: u32, at: u32, base: Option<u32>) -> Option<Standing>
    requires tries { AreTries (M.state medium.now).grain tries }
    ensures stands { IfSome result (λ s. ImagesAreWhole (M.state medium.now) at base → IsStanding (M.state medium.now) tries s) }
    ensures matches_medium { IfSome result (λ s. MatchesMedium (M.state medium.now) tries s) }
{
    if !is_sized(medium) {
        return None;
    }
    let places = places_by_data(medium, at)?;
    if !is_ahead(medium, places) {
        return None;
    }
    let slot = places.active;
    let is_confirmed = is_set(medium, slot, 0);
    if is_confirmed || !is_open(medium, places.spare) || !is_set(medium, places.spare, 0) {
        return Some(Standing::Settled(Settled { slot, is_confirmed }));
    }
    if base? != places.spare + (at - slot) {
        return None;
    }
    Some(Standing::OnTrial(Trial {
        slot,
        base: places.spare,
        starts: starts(medium, tries, slot),
    }))
}
