//! Conversion between reports and numbers.

ghost use Rattle.std.specs.Prelude.{◌≡◌, Some};
ghost use Rattle.dfu_wire.specs.Code.{code_byte};
ghost use Rattle.dfu_host_core.specs.ReportNumbers.{code_at, report_at, report_numbers};

use crate::tables::numbers;
use dfu_host::Report;
use dfu_wire::Code;

/// Returns the status code with this number; None over 15.
pub(crate) fn code_at(number: u32) -> Option<Code>
    ensures { result ≡ code_at number }
{
    if number > 15 {
        return None;
    }
    Code::from_byte(number as u8).ok()
}

/// Returns the number of a status code.
pub(crate) fn code_number(code: Code) -> u32
    ensures code { code_at result ≡ Some code }
    ensures byte { result ≡ code_byte code }
{
    u32::from(code.byte())
}

/// Table of the reports and their numbers.
macro_rules! reports {
    ($($way:tt)*) => {
        numbers!($($way)*, Report {
            1 Installed, 2 Unconfirmed, 3 Aborted, 4 GaveUp, 5 Refused(code: code_at, code_number), 6 RestartsSpent,
            7 Uploaded, 8 TooManyBlocks, 9 NoMemory, 10 Verified, 11 Different
        })
    };
}

/// Returns the report with this number. None for a number of 0 or over 11, or for Refused if `code` is not the number of a status code.
pub(crate) fn report_at(number: u64, code: u32) -> Option<Report>
    ensures { result ≡ report_at number code }
{
    reports!(read number, code)
}

/// Returns the number of a report, and the number of its status code, or 0 for reports other than Refused.
pub(crate) fn report_numbers(report: Report) -> (u32, u32)
    ensures report { report_at result.0 result.1 ≡ Some report }
    ensures numbers { result ≡ report_numbers report }
{
    reports!(write report)
}
