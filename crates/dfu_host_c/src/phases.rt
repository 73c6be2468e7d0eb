//! Conversion between the phases of sessions and numbers.

ghost use Rattle.std.specs.Prelude.{◌≡◌, Some};
ghost use Rattle.dfu_host_core.specs.PhaseNumbers.{part_at, phase_at};
ghost use Rattle.dfu_host_core.specs.ReportNumbers.{report_at, report_numbers};
ghost use Rattle.dfu_host_core.specs.WrittenNumbers.{numbers_in};

use crate::reports::{report_at, report_numbers};
use dfu_host::{Phase, Report};
use dfu_host_core::EncodedPhase;

/// Returns the phase with these numbers; None if no phase has these numbers.
pub(crate) fn phase_at(which: u32, number: u64, more: u32) -> Option<Phase>
    ensures { result ≡ phase_at which number more }
{
    let block = number as usize;
    match which {
        0 => Some(Phase::Find),
        1 => Some(Phase::FindAgain),
        2 => Some(Phase::Detach),
        3 => Some(Phase::Enter),
        4 => Some(Phase::Clear),
        5 => Some(Phase::Quit),
        6 => Some(Phase::WaitFind(more)),
        7 => Some(Phase::ResetFind),
        8 => Some(Phase::Block(block)),
        9 => Some(Phase::Ask(block)),
        10 => Some(Phase::Poll(block)),
        11 => Some(Phase::WaitPoll(block, more)),
        12 => Some(Phase::Close),
        13 => Some(Phase::AskLast),
        14 => Some(Phase::Manifest),
        15 => Some(Phase::WaitManifest(more)),
        16 => Some(Phase::WaitLast(more)),
        17 => Some(Phase::Trouble),
        18 => match part_at(number) {
            Some(part) => Some(Phase::Fetch(part)),
            None => None,
        },
        19 => match part_at(number) {
            Some(part) => Some(Phase::Compare(part)),
            None => None,
        },
        20 => match report_at(number, more) {
            Some(report) => Some(Phase::Last(report)),
            None => None,
        },
        21 => Some(Phase::LastUploaded),
        22 => Some(Phase::GiveUp),
        23 => match report_at(number, more) {
            Some(report) => Some(Phase::Over(report)),
            None => None,
        },
        24 => Some(Phase::OverUploaded),
        _ => None,
    }
}

/// Returns `number` as the number of a part; None above 65,535.
fn part_at(number: u64) -> Option<u16>
    ensures { result ≡ part_at number }
{
    if number < 65_536 {
        Some(number as u16)
    } else {
        None
    }
}

pub(crate) fn numbers_of(phase: Phase) -> EncodedPhase
    ensures phase { phase_at result.which result.number result.more ≡ Some phase }
    ensures numbers { result ≡ numbers_in phase }
{
    match phase {
        Phase::Find => of(0, 0, 0),
        Phase::FindAgain => of(1, 0, 0),
        Phase::Detach => of(2, 0, 0),
        Phase::Enter => of(3, 0, 0),
        Phase::Clear => of(4, 0, 0),
        Phase::Quit => of(5, 0, 0),
        Phase::WaitFind(poll_ms) => of(6, 0, poll_ms),
        Phase::ResetFind => of(7, 0, 0),
        Phase::Block(block) => of(8, block as u64, 0),
        Phase::Ask(block) => of(9, block as u64, 0),
        Phase::Poll(block) => of(10, block as u64, 0),
        Phase::WaitPoll(block, poll_ms) => of(11, block as u64, poll_ms),
        Phase::Close => of(12, 0, 0),
        Phase::AskLast => of(13, 0, 0),
        Phase::Manifest => of(14, 0, 0),
        Phase::WaitManifest(poll_ms) => of(15, 0, poll_ms),
        Phase::WaitLast(poll_ms) => of(16, 0, poll_ms),
        Phase::Trouble => of(17, 0, 0),
        Phase::Fetch(part) => of(18, u64::from(part), 0),
        Phase::Compare(part) => of(19, u64::from(part), 0),
        Phase::Last(report) => reported(20, report),
        Phase::LastUploaded => of(21, 0, 0),
        Phase::GiveUp => of(22, 0, 0),
        Phase::Over(report) => reported(23, report),
        Phase::OverUploaded => of(24, 0, 0),
    }
}

/// Returns the record of three numbers: that of a phase, that of its block, part or report, and its poll time or status code.
fn of(which: u32, number: u64, more: u32) -> EncodedPhase
    ensures { result ≡ record { which = which; number = number; more = more } }
{
    EncodedPhase {
        which,
        number,
        more,
    }
}

/// Returns the numbers of a phase with a report.
fn reported(which: u32, report: Report) -> EncodedPhase
    ensures which { result.which ≡ which }
    ensures report { report_at result.number result.more ≡ Some report }
    ensures number { result.number ≡ (report_numbers report).0 }
    ensures code { result.more ≡ (report_numbers report).1 }
{
    let (number, code) = report_numbers(report);
    of(which, u64::from(number), code)
}
