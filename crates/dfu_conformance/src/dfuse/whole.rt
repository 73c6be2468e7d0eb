//! The first departure in a complete list of events.

ghost use Rattle.std.specs.Prelude.{◌≡◌, IsNone, IfSome};
ghost use Rattle.dfu_conformance.specs.dfuse.Runs.{DfuseCanAnswer};
ghost use Rattle.dfu_conformance.specs.dfuse.Verdicts.{IsFirstDeparture};

use crate::dfuse::judge::DfuseJudge;
use crate::{Departure, LogEvent};

/// Returns the first departure in `events`, for a DfuSe device about which nothing is known, and the index of its event, counted from 0.
/// Returns None if a DfuSe device may have answered all events.
pub fn first_departure(events: &[LogEvent]) -> Option<(usize, Departure)>
    ensures kept { IsNone result → DfuseCanAnswer events.now }
    ensures departs { IfSome result (λ f. IsFirstDeparture events.now f.0 f.1 × (DfuseCanAnswer events.now → ⊥)) }
{
    let mut judge = DfuseJudge::new();
    for n in 0..events.len() {
        if let Some(departure) = judge.take(&events[n]) {
            return Some((n, departure));
        }
    }
    None
}
