//! Conversion between the reports of DfuSe sessions and numbers.

ghost use Rattle.std.specs.Prelude.{◌≡◌, Some};
ghost use Rattle.dfu_host_c.specs.dfuse.ReportNumbers.{leaving_at, leaving_number, dfuse_report_at, dfuse_report_numbers};

use crate::reports::{code_at, code_number};
use crate::tables::numbers;
use dfuse_host::{Leaving, Report};

/// Table of the reports and their numbers.
macro_rules! reports {
    ($($way:tt)*) => {
        numbers!($($way)*, Report {
            1 Verified(leaving: leaving_at, leaving_number), 2 Different, 3 Refused(code: code_at, code_number),
            4 ReadProtected, 5 GaveUp, 6 RestartsSpent, 7 NotDfu
        })
    };
}

/// Returns the `Leaving` with this number; None for a number over 2.
fn leaving_at(number: u32) -> Option<Leaving>
    ensures { result ≡ leaving_at number }
{
    match number {
        0 => Some(Leaving::Stayed),
        1 => Some(Leaving::Left),
        2 => Some(Leaving::Unknown),
        _ => None,
    }
}

/// Returns the report with this number. None for a number of 0 or over 7, or if `more` isn't the number of a `Leaving` (for Verified) or of
/// a status code (for Refused).
pub(crate) fn report_at(number: u32, more: u32) -> Option<Report>
    ensures { result ≡ dfuse_report_at number more }
{
    reports!(read number, more)
}

fn leaving_number(leaving: Leaving) -> u32
    ensures leaving { leaving_at result ≡ Some leaving }
    ensures number { result ≡ leaving_number leaving }
{
    match leaving {
        Leaving::Stayed => 0,
        Leaving::Left => 1,
        Leaving::Unknown => 2,
    }
}

/// Returns the number of a report, and its detail: the number of its `Leaving` or status code, or 0 for other reports.
pub(crate) fn report_numbers(report: Report) -> (u32, u32)
    ensures report { dfuse_report_at result.0 result.1 ≡ Some report }
    ensures numbers { result ≡ dfuse_report_numbers report }
{
    reports!(write report)
}
