//! The states in which a DfuSe device may be.

ghost use Rattle.std.specs.Prelude.{◌≡◌, ◌||◌, ◌&&◌, ◌==◌};
ghost use Rattle.std.specs.List.{list_any};
ghost use Rattle.dfu_conformance.specs.RowMatches.{place_number};
ghost use Rattle.dfu_conformance.specs.dfuse.Runs.{of_dfuse, dfuse_may_stay_at_event};
ghost use Rattle.dfu_conformance.specs.dfuse.Verdicts.{has_place};
ghost use Rattle.dfu_conformance.specs.inside.DfuseStep.{has_any_place, drift_leads_to, row_leads_to, may_be_at_after_event};

use crate::dfuse::rows::DFUSE;
use crate::dfuse::speaks::{is_of_dfuse, may_dfuse_stay};
use crate::{
    DRIFTS, Drift, HABITS, LogEvent, MARKS, Row, STANDARD, StandardState, When, row_fits_event,
};

/// For each state, by its index, true if a DfuSe device may be in it.
pub(crate) type Places = [bool; 12];

/// Adds state `to` to `after`, if `before` contains state `from`, and a row or move with `when` applies to a DfuSe device.
fn lead(before: &Places, from: StandardState, when: When, after: &mut Places, to: StandardState)
    ensures { (n : StandardState) → has_place after.new n
        ≡ (has_place after.old n || ((place_number to == place_number n) && (has_place before.now from && of_dfuse when))) }
{
    let to = to.number();
    after[to] = after[to] || before[from.number()] && is_of_dfuse(when);
}

/// Adds to `after` the state to which `row` leads at `event` from a state of `before`.
fn go(row: &Row, before: &Places, event: &LogEvent, after: &mut Places)
    ensures { (n : StandardState) → has_place after.new n ≡ (has_place after.old n || row_leads_to before.now event.now n row.now) }
{
    if row_fits_event(row, event) {
        lead(before, row.from, row.when, after, row.next);
    }
}

/// Adds to `after` the states to which `rows` lead at `event` from the states of `before`.
fn pass(rows: &[Row], before: &Places, event: &LogEvent, after: &mut Places)
    ensures { (n : StandardState) → has_place after.new n ≡
        (has_place after.old n || list_any (row_leads_to before.now event.now n) rows.now) }
{
    for row in rows {
        go(row, before, event, after);
    }
}

/// Returns the states of `before`, and those to which `moves` lead from them.
fn drift(moves: &[Drift], before: &Places) -> Places
    ensures { (n : StandardState) → has_place result n ≡
        (has_place before.now n || list_any (drift_leads_to before.now n) moves.now) }
{
    let mut after = *before;
    for one in moves {
        lead(before, one.from, one.when, &mut after, one.next);
    }
    after
}

/// Returns the states of `before` in which a DfuSe device may have stayed at `event`: all of them, or none.
fn rest(before: &Places, event: &LogEvent) -> Places
    ensures { (n : StandardState) → has_place result n ≡ (dfuse_may_stay_at_event event.now && has_place before.now n) }
{
    if may_dfuse_stay(event) {
        *before
    } else {
        [false; 12]
    }
}

/// Returns the states in which a DfuSe device may be after `event`, if it may be in those of `before` before it.
pub(crate) fn step(before: &Places, event: &LogEvent) -> Places
    ensures { (n : StandardState) → has_place result n ≡ may_be_at_after_event before.now event.now n }
{
    let mut after = rest(before, event);
    pass(&STANDARD, before, event, &mut after);
    pass(&MARKS, before, event, &mut after);
    pass(&HABITS, before, event, &mut after);
    pass(&DFUSE, before, event, &mut after);
    drift(&DRIFTS, &after)
}

/// Returns true if `at` contains at least one state.
pub(crate) fn is_anywhere(at: &Places) -> bool
    ensures { result ≡ has_any_place at.now }
{
    let mut is_some = false;
    for n in 0..12 {
        is_some = is_some || at[n];
    }
    is_some
}
