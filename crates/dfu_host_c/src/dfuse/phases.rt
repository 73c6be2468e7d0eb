//! Conversion between the phases of DfuSe sessions and numbers.

ghost use Rattle.std.specs.Prelude.{◌≡◌, ◌≢◌, Some};
ghost use Rattle.dfuse_host.specs.declared.phase.Phase.TheVariants.{On};
ghost use Rattle.dfu_host_c.specs.dfuse.PhaseNumbers.{dfuse_numbers_in, dfuse_phase_at, place_at, place_numbers, step_at, step_numbers, work_at, work_numbers};

use crate::dfuse::reports::{report_at, report_numbers};
use crate::tables::numbers;
use dfuse_host::{Phase, Place, Standing, Step, Work};

/// Numbers that encode a phase in the record of a DfuSe session.
#[derive(Clone, Copy)]
pub(crate) struct EncodedDfusePhase {
    pub(crate) work: u32,
    pub(crate) at: u64,
    pub(crate) end: u64,
    pub(crate) place: u32,
    pub(crate) pointer: u64,
    pub(crate) step: u32,
    pub(crate) more: u32,
    pub(crate) report: u32,
}

/// Table of the steps and their numbers.
macro_rules! steps {
    ($($way:tt)*) => {
        numbers!($($way)*, Step {
            0 Abort, 1 AskState, 2 AskStatus, 3 ClearWait(ms), 4 ClearStatus, 5 Send, 6 Probe, 7 Poll(ms), 8 PollWait(ms),
            9 BeginReading, 10 EndReading, 11 Read, 12 Close, 13 CloseProbe, 14 ClosePoll
        })
    };
}

/// Returns the work with these numbers; None if no work has these numbers.
fn work_at(number: u32, at: u64, end: u64) -> Option<Work>
    ensures { result ≡ work_at number at end }
{
    match number {
        0 => Some(Work::Erase { at }),
        1 => Some(Work::EraseAgain { page: at, end }),
        2 => Some(Work::Write { at, end }),
        3 => Some(Work::Compare { at }),
        4 => Some(Work::WriteFront { at }),
        5 => Some(Work::CompareFront { at }),
        6 => Some(Work::Leave),
        _ => None,
    }
}

/// Returns the `Place` with this number and this pointer address; None for a number over 2.
fn place_at(number: u32, pointer: u64) -> Option<Place>
    ensures { result ≡ place_at number pointer }
{
    match number {
        0 => Some(Place::Lost),
        1 => Some(Place::At(pointer)),
        2 => Some(Place::Reading(pointer)),
        _ => None,
    }
}

/// Returns the step with this number and time; None for a number over 14.
fn step_at(number: u32, ms: u32) -> Option<Step>
    ensures { result ≡ step_at number ms }
{
    steps!(read number, ms)
}

/// Returns the phase with these numbers; None if no phase has these numbers.
pub(crate) fn phase_at(n: EncodedDfusePhase) -> Option<Phase>
    ensures { result ≡ dfuse_phase_at n }
{
    if n.work == 7 {
        return match report_at(n.report, n.more) {
            Some(report) => Some(Phase::Over(report)),
            None => None,
        };
    }
    let Some(work) = work_at(n.work, n.at, n.end) else {
        return None;
    };
    let Some(place) = place_at(n.place, n.pointer) else {
        return None;
    };
    let Some(step) = step_at(n.step, n.more) else {
        return None;
    };
    Some(Phase::On(Standing { work, place, step }))
}

/// Returns the number of a work, its current address, and its end address; 0 for an address that it doesn't have.
fn work_numbers(work: Work) -> (u32, u64, u64)
    ensures work { work_at result.0 result.1 result.2 ≡ Some work }
    ensures not_7 { result.0 ≢ 7 }
    ensures numbers { result ≡ work_numbers work }
{
    match work {
        Work::Erase { at } => (0, at, 0),
        Work::EraseAgain { page, end } => (1, page, end),
        Work::Write { at, end } => (2, at, end),
        Work::Compare { at } => (3, at, 0),
        Work::WriteFront { at } => (4, at, 0),
        Work::CompareFront { at } => (5, at, 0),
        Work::Leave => (6, 0, 0),
    }
}

/// Returns the number of a `Place`, and the address to which the pointer was set, or 0 if the pointer is unknown.
fn place_numbers(place: Place) -> (u32, u64)
    ensures place { place_at result.0 result.1 ≡ Some place }
    ensures numbers { result ≡ place_numbers place }
{
    match place {
        Place::Lost => (0, 0),
        Place::At(pointer) => (1, pointer),
        Place::Reading(pointer) => (2, pointer),
    }
}

/// Returns the number of a step, and its time, or 0 for a step without a time.
fn step_numbers(step: Step) -> (u32, u32)
    ensures step { step_at result.0 result.1 ≡ Some step }
    ensures numbers { result ≡ step_numbers step }
{
    steps!(write step)
}

pub(crate) fn numbers_of(phase: Phase) -> EncodedDfusePhase
    ensures phase { dfuse_phase_at result ≡ Some phase }
    ensures numbers { result ≡ dfuse_numbers_in phase }
{
    match phase {
        Phase::On(standing) => numbers_of_standing(standing),
        Phase::Over(report) => {
            let (report, more) = report_numbers(report);
            EncodedDfusePhase {
                work: 7,
                at: 0,
                end: 0,
                place: 0,
                pointer: 0,
                step: 0,
                more,
                report,
            }
        }
    }
}

/// Returns the numbers of the phase of a session that is not over.
fn numbers_of_standing(standing: Standing) -> EncodedDfusePhase
    ensures phase { dfuse_phase_at result ≡ Some (On standing) }
    ensures numbers { result ≡ dfuse_numbers_in (On standing) }
{
    let (work, at, end) = work_numbers(standing.work);
    let (place, pointer) = place_numbers(standing.place);
    let (step, more) = step_numbers(standing.step);
    EncodedDfusePhase {
        work,
        at,
        end,
        place,
        pointer,
        step,
        more,
        report: 0,
    }
}
