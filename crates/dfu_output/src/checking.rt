//! `dfu check`: checks a file, and writes a line about the result.

ghost use Rattle.std.specs.Prelude.{◌≡◌, IfOk, None};
ghost use Rattle.std.specs.String.{string_bytes};
ghost use Rattle.dfu_output.specs.AnswerLines.{ok_line};
ghost use Rattle.dfu_output.specs.CheckText.{HasCheckFault, HasFindings, WritesCheckLine};

use crate::exit::{Exit, fault_text, write_out};
use crate::fields::Value::{Hex4, Hex8, Number};
use crate::fields::line_of;
use dfu_suffix::{Findings, SuffixFault, Summary, check_with};
use std::alloc::{AllocError, Global};
use std::io::{Read, Write};

/// Returns the line for the valid file that `summary` describes: `ok payload P suffix S device DDDD product PPPP vendor VVVV dfu BBBB crc
/// CCCCCCCC`.
#[tactic(auto, unfolding(crate::specs::AnswerLines::ok_line))]
fn ok_line(alloc: Global, summary: &Summary) -> Result<String, AllocError>
    ensures { IfOk result (λ t. string_bytes t ≡ ok_line summary.now) }
{
    let fields = [
        (" payload ", Number(summary.payload as u64)),
        (" suffix ", Number(summary.suffix as u64)),
        (" device ", Hex4(summary.ids.device)),
        (" product ", Hex4(summary.ids.product)),
        (" vendor ", Hex4(summary.ids.vendor)),
        (" dfu ", Hex4(summary.dfu)),
        (" crc ", Hex8(summary.crc as u64)),
    ];
    line_of(alloc, "ok", &fields)
}

/// Checks the bytes of the reader, and writes one line: `ok payload P suffix S device DDDD product PPPP vendor VVVV dfu BBBB crc CCCCCCCC`
/// with Done, `refused NAME` with Refused, or `fault Read` with Fault. Only the line `ok ..` needs memory. If it runs out, the line is
/// `refused NoMemory`.
///
/// If the writer fails, the exit is Fault, and only a proper prefix of the line is written.
pub fn check_text<R: Read + Drop, W: Write>(alloc: Global, reader: R, writer: &mut W) -> Exit
    ensures { WritesCheckLine (R.remaining reader) (W.contents writer.old) (W.contents writer.new) result }
{
    let mut findings = Findings::new();
    let (exit, _) = check_with_fault(alloc, reader, writer, &mut findings);
    exit
}

/// Checks the bytes as `check_text` does. Returns the exit, and the fault that the line reports, if there is one. Stores in `findings` the
/// numbers that explain BadLength or BadCrc. After TooShort, TooLarge and Read the findings have no meaning.
pub fn check_with_fault<R: Read + Drop, W: Write>(
    alloc: Global,
    reader: R,
    writer: &mut W,
    findings: &mut Findings,
) -> (Exit, Option<SuffixFault>)
    ensures line { WritesCheckLine (R.remaining reader) (W.contents writer.old) (W.contents writer.new) result.0 }
    ensures fault { HasCheckFault (R.remaining reader) result.1 }
    ensures findings { HasFindings (R.remaining reader) result.1 findings.new }
    ensures done { result.0 ≡ Exit.Done → result.1 ≡ None }
{
    match check_with(reader, findings) {
        Ok(summary) => match ok_line(alloc, &summary) {
            Ok(line) => (write_out(writer, line.as_bytes(), Exit::Done), None),
            Err(_) => {
                let fault = SuffixFault::NoMemory;
                (fault_text(fault, writer), Some(fault))
            }
        },
        Err(fault) => (fault_text(fault, writer), Some(fault)),
    }
}
