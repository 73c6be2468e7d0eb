//! The judge of one device, which uses the tables of the standard and of the habits.

ghost use Rattle.std.specs.Prelude.{◌≡◌, ◌<◌, ℕ, List, IsNone, IfSome, [], ◌∷◌, ◌++◌, slice_index_or, true, false};
ghost use Rattle.dfu_conformance.specs.inside.Stepped.{is_held_anywhere, has_candidate};

use crate::held::{Places, is_any_held, least_held, places_of, step};
use crate::{Departure, LogEvent, Verdict};
use std::marker::Model;

/// Candidates before the first event: every device, in every state.
const EVERY: Places = [[u64::MAX; 16]; 12];

/// A judge of one device, about which nothing is known at first. It follows all possible devices at once, with each set of habits. It has
/// 3,080 bytes, and allocates no memory.
#[derive(Drop)]
pub struct Judge {
    // True after the first departure. Before that, `since` is not used, because `whole` contains the same candidates.
    has_departed: bool,
    // Candidates for the events since the last departure.
    since: Places,
    // Candidates for all events.
    whole: Places,
}

// For contracts, `since` contains the candidates for the events since the last departure, or for all events if there was none.
impl Model for Judge {
    ghost use Rattle.dfu_conformance.specs.Candidates.{JudgedDevices, devices_since};

    ghost Value = { JudgedDevices };

    ghost view = { λ s. record { since = devices_since s.has_departed s.since s.whole; whole = s.whole } };
}

/// Returns the departure at `event` if `after` has no candidate without habits, or None.
fn departure(before: &Places, after: &Places, event: &LogEvent) -> Option<Departure>
    ensures none { IsNone result → is_held_anywhere after.now 0 ≡ true }
    ensures some { IfSome result (λ d. (d.event ≡ event.now) × (is_held_anywhere after.now 0 ≡ false)
        × ((n : ℕ) → n < 12 → slice_index_or d.before n false ≡ has_candidate (slice_index_or before.now n []) 0)) }
{
    if is_any_held(after, 0) {
        return None;
    }
    Some(Departure {
        before: places_of(before, 0),
        event: *event,
    })
}

impl Judge {
    ghost use Rattle.dfu_conformance.specs.MayAnswer.{CanAnswer, CandidatesExact, PlainCandidatesExact};
    ghost use Rattle.dfu_conformance.specs.Verdict.{IsVerdict, HasSixBits, ArePlacesAfter, EventDeparts};
    ghost use Rattle.dfu_conformance.specs.declared.event.LogEvent.{LogEvent};

    /// Returns a judge before the first event. The device may be in any state.
    pub fn new() -> Judge
        ensures whole { CandidatesExact result.whole [] }
        ensures since { PlainCandidatesExact result.since [] }
    {
        Judge {
            has_departed: false,
            since: EVERY,
            whole: EVERY,
        }
    }

    /// Processes the next event. If no device that keeps the standard could have given the answers of all events since the last departure,
    /// including this one, returns a departure, and restarts its search with every state. The verdict still covers all events.
    pub fn take(&mut self, event: &LogEvent) -> Option<Departure>
        ensures whole { (es : List LogEvent) → CandidatesExact self.old.whole es → CandidatesExact self.new.whole (es ++ event.now ∷ []) }
        ensures kept { IsNone result → (es : List LogEvent) → PlainCandidatesExact self.old.since es
            → CanAnswer 0 (es ++ event.now ∷ []) × PlainCandidatesExact self.new.since (es ++ event.now ∷ []) }
        ensures departs { IfSome result (λ d. (d.event ≡ event.now) × ((es : List LogEvent) → PlainCandidatesExact self.old.since es
            → EventDeparts es d self.new.since)) }
    {
        let whole = step(&self.whole, event);
        if self.has_departed {
            let since = step(&self.since, event);
            match departure(&self.since, &since, event) {
                Some(departure) => {
                    self.whole = whole;
                    self.since = EVERY;
                    Some(departure)
                }
                None => {
                    self.whole = whole;
                    self.since = since;
                    None
                }
            }
        } else {
            match departure(&self.whole, &whole, event) {
                Some(departure) => {
                    self.has_departed = true;
                    self.whole = whole;
                    self.since = EVERY;
                    Some(departure)
                }
                None => {
                    self.whole = whole;
                    None
                }
            }
        }
    }

    /// Returns the verdict on all events that the judge has processed.
    pub fn verdict(&self) -> Verdict
        ensures verdict { (es : List LogEvent) → CandidatesExact self.now.whole es → IsVerdict result es }
        ensures bits { HasSixBits result }
    {
        if is_any_held(&self.whole, 0) {
            return Verdict::Kept;
        }
        match least_held(&self.whole, 64) {
            Some(readings) => Verdict::KeptBy { readings },
            None => Verdict::NotKept,
        }
    }

    /// Returns, for each state in the order of [`crate::StandardState`], true if a device with the set of habits `readings`, 0 to 63, may
    /// be in it after all events.
    pub fn places(&self, readings: u8) -> [bool; 12]
        requires { readings < 64 }
        ensures { (es : List LogEvent) → CandidatesExact self.now.whole es → ArePlacesAfter readings es result }
    {
        places_of(&self.whole, readings)
    }

    /// Returns, for each state in the order of [`crate::StandardState`], true if a device without habits may be in it after the events
    /// since the last departure.
    pub fn standing(&self) -> [bool; 12]
        ensures { (es : List LogEvent) → PlainCandidatesExact self.now.since es → ArePlacesAfter 0 es result }
    {
        if self.has_departed {
            places_of(&self.since, 0)
        } else {
            places_of(&self.whole, 0)
        }
    }
}
