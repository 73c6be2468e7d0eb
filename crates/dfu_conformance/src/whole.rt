//! The verdict on a complete list of events.

ghost use Rattle.dfu_conformance.specs.Verdict.{IsVerdict};

use crate::{Judge, LogEvent, Verdict};

/// Returns the verdict on `events`, for a device about which nothing is known at first.
pub fn verdict_on(events: &[LogEvent]) -> Verdict
    ensures { IsVerdict result events.now }
{
    let mut judge = Judge::new();
    for event in events {
        let _ = judge.take(event);
    }
    judge.verdict()
}
