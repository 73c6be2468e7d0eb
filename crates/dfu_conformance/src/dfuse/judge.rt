//! The judge of a DfuSe device.

ghost use Rattle.std.specs.Prelude.{◌≡◌, List, IsNone, IfSome, [], ◌∷◌, ◌++◌};

use crate::dfuse::stands::{Places, is_anywhere, step};
use crate::{Departure, LogEvent};

/// Set of possible states before the first event. It contains every state.
const EVERYWHERE: Places = [true; 12];

/// A judge of one DfuSe device, about which nothing is known at first. It has 12 bytes, and allocates no memory.
#[derive(Clone, Copy, Drop)]
pub struct DfuseJudge {
    /// For each state, in the order of [`crate::StandardState`], true if a DfuSe device may be in it after the events since the last
    /// departure.
    pub at: [bool; 12],
}

impl DfuseJudge {
    ghost use Rattle.dfu_conformance.specs.dfuse.Runs.{DfuseCanAnswer};
    ghost use Rattle.dfu_conformance.specs.dfuse.Verdicts.{PlacesExact, DfuseDeparts};
    ghost use Rattle.dfu_conformance.specs.declared.event.LogEvent.{LogEvent};

    /// Returns a judge before the first event. The device may be in any state.
    pub fn new() -> DfuseJudge
        ensures { PlacesExact result.at [] }
    {
        DfuseJudge { at: EVERYWHERE }
    }

    /// Processes the next event. If no DfuSe device could have given the answers of all events since the last departure, including this
    /// one, returns a departure, and restarts with every state.
    pub fn take(&mut self, event: &LogEvent) -> Option<Departure>
        ensures kept { IsNone result → (es : List LogEvent) → PlacesExact self.old.at es
            → DfuseCanAnswer (es ++ event.now ∷ []) × PlacesExact self.new.at (es ++ event.now ∷ []) }
        ensures departs { IfSome result (λ d. (d.event ≡ event.now) × ((es : List LogEvent) → PlacesExact self.old.at es
            → DfuseDeparts es d self.new.at)) }
    {
        let before = self.at;
        let after = step(&before, event);
        if is_anywhere(&after) {
            self.at = after;
            return None;
        }
        self.at = EVERYWHERE;
        Some(Departure {
            before,
            event: *event,
        })
    }
}
