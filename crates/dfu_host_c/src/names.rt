//! Names of reports.

ghost use Rattle.std.specs.Prelude.{◌≡◌, ◌≤◌, ◌<◌, ◌++◌, drop, length, pos};
ghost use Rattle.dfu_host.specs.ReportName.{report_name};
ghost use Rattle.dfu_host_c.specs.ReportNames.{name_at};

use crate::reports::report_at;
use dfu_host::Report;

/// Returns the name of a report, as `Report::name` does. All names are cut from one text, because pointers to several texts would be data,
/// and the library has no data.
fn name_of(report: Report) -> &'static [u8]
    ensures name { result.now ≡ report_name report }
{
    let (from, to) = match report {
        Report::Installed => (0, 9),
        Report::Unconfirmed => (10, 21),
        Report::Aborted => (22, 29),
        Report::GaveUp => (30, 37),
        Report::Refused(_) => (38, 45),
        Report::RestartsSpent => (46, 60),
        Report::Uploaded => (61, 69),
        Report::TooManyBlocks => (70, 85),
        Report::NoMemory => (86, 95),
        Report::Verified => (96, 104),
        Report::Different => (105, 114),
    };
    let names =
        b"installed unconfirmed aborted gave-up refused restarts-spent uploaded too-many-blocks no-memory verified different";
    &names[from..to]
}

/// Returns the name of the report with this number; empty if no report has the number.
fn name_at(number: u32) -> &'static [u8]
    ensures name { result.now ≡ name_at number }
    ensures len { length result.now ≤ 15 }
{
    match report_at(u64::from(number), 0) {
        Some(report) => name_of(report),
        None => b"",
    }
}

/// Writes the name of report `report` to `out` and returns its length. Writes nothing and returns 0 if no report has the number, or if the
/// name is longer than the buffer.
#[unsafe(no_mangle)]
pub extern "C" fn dfu_host_name(report: u32, out: &mut [u8]) -> i32
    ensures named { length (name_at report) ≤ length out.old → (result ≡ pos (length (name_at report)))
        × (out.new ≡ name_at report ++ drop (length (name_at report)) out.old) }
    ensures no_room { length out.old < length (name_at report) → (result ≡ pos 0) × (out.new ≡ out.old) }
{
    let name = name_at(report);
    if name.len() > out.len() {
        return 0;
    }
    out[..name.len()].copy_from_slice(name);
    name.len() as i32
}
