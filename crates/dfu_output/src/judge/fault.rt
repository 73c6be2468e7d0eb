//! Faults at which judging a log stops, and their lines.

ghost use Rattle.std.specs.Prelude.{◌≡◌, IfOk};
ghost use Rattle.std.specs.String.{string_bytes};
ghost use Rattle.dfu_output.specs.judge.Judging.{WritesLineOfStop, bad_line};

use crate::exit::{Exit, fault_text, write_out};
use crate::fields::Value::Number;
use crate::fields::line_of;
use dfu_conformance::LineFault;
use dfu_suffix::SuffixFault;
use std::alloc::{AllocError, Global};
use std::io::Write;

/// Fault at which judging a log stopped.
#[derive(Clone, Copy)]
pub enum LogFault {
    /// A line is invalid.
    BadLine {
        /// Number of the line, counted from 1.
        number: u64,
        /// Fault of the line.
        why: LineFault,
    },
    /// The log has more than 1,099,511,627,775 bytes.
    TooLarge,
    /// An allocation failed.
    NoMemory,
    /// The reader failed.
    Read,
    /// The writer failed.
    Write,
}

/// Returns the line for a bad line of a log: `refused BadLine N`, where N is the number of the bad line.
#[tactic(auto, unfolding(crate::specs::judge::Judging::bad_line))]
fn bad_line(alloc: Global, number: u64) -> Result<String, AllocError>
    ensures { IfOk result (λ t. string_bytes t ≡ bad_line number) }
{
    line_of(alloc, "refused BadLine ", &[("", Number(number))])
}

/// Writes the line for `fault`, at which judging a log stopped, and returns the exit. It writes nothing after Write, because the writer has
/// failed.
pub fn stop_text<W: Write>(alloc: Global, fault: LogFault, writer: &mut W) -> Exit
    ensures { WritesLineOfStop fault (W.contents writer.old) (W.contents writer.new) result }
{
    match fault {
        LogFault::BadLine { number, .. } => match bad_line(alloc, number) {
            Ok(line) => write_out(writer, line.as_bytes(), Exit::Refused),
            Err(_) => fault_text(SuffixFault::NoMemory, writer),
        },
        LogFault::TooLarge => fault_text(SuffixFault::TooLarge, writer),
        LogFault::NoMemory => fault_text(SuffixFault::NoMemory, writer),
        LogFault::Read => fault_text(SuffixFault::Read, writer),
        LogFault::Write => Exit::Fault,
    }
}
