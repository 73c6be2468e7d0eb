//! `dfu run`: runs a script, and writes a line for the fault if the script stops.

ghost use Rattle.std.specs.Prelude.{◌≡◌, ℕ, List, Option, None, IfSome};
ghost use Rattle.dfu_link.specs.LineContent.{given_bytes};
ghost use Rattle.dfu_link.specs.Falls.{ScriptEnding};
ghost use Rattle.dfu_link.specs.Printed.{HasPrinted};
ghost use Rattle.dfu_cmd.specs.RunText.{StopLineIsOut, IsRunText, HeadlineIsOut};

use crate::numbering::number_text;
use dfu_link::{ScriptFault, Stopped, script_traced_with, script_with};
use dfu_output::{Exit, fault_text, write_out};
use dfu_suffix::SuffixFault;
use std::alloc::Global;
use std::io::{Read, Write};

/// Writes the line for a script that stopped at `fault` to `writer`. It writes nothing if the fault is Write.
pub(crate) fn stop_text<W: Write>(alloc: Global, fault: ScriptFault, writer: &mut W) -> Exit
    ensures { StopLineIsOut fault (W.contents writer.old) (W.contents writer.new) result }
{
    match fault {
        ScriptFault::BadLine(number) => number_text(alloc, "refused BadLine ", number, writer),
        ScriptFault::LateConfig(number) => {
            number_text(alloc, "refused LateConfig ", number, writer)
        }
        ScriptFault::BadConfig => write_out(writer, b"refused BadConfig\n", Exit::Refused),
        // The script printed a line other than the expected one, and this line has no line feed yet.
        ScriptFault::Expected(number) => {
            number_text(alloc, "\nrefused Expected ", number, writer)
        }
        ScriptFault::NonePrinted(number) => {
            number_text(alloc, "refused Expected ", number, writer)
        }
        ScriptFault::TooLarge => fault_text(SuffixFault::TooLarge, writer),
        ScriptFault::NoMemory => fault_text(SuffixFault::NoMemory, writer),
        ScriptFault::Read => fault_text(SuffixFault::Read, writer),
        ScriptFault::Write => Exit::Fault,
    }
}

/// If the script stopped, writes the line for the fault in `answer`. Returns the exit and the fault.
pub(crate) fn end_text<W: Write>(
    alloc: Global,
    answer: Result<(), ScriptFault>,
    writer: &mut W,
) -> (Exit, Option<ScriptFault>)
    ensures run { (file given old : Option (List ℕ)) → IfSome given (λ text. ScriptEnding file text old (W.contents writer.old) answer) →
        IsRunText file given old (W.contents writer.new) result.0 }
    ensures printed { (file given old : Option (List ℕ)) → IfSome given (λ text. HasPrinted file text old (W.contents writer.old) answer) →
        HeadlineIsOut file given old (W.contents writer.new) result.0 }
    ensures fault { result.1 ≡ None → result.0 ≡ Exit.Done }
{
    match answer {
        Ok(()) => (Exit::Done, None),
        Err(fault) => (stop_text(alloc, fault, writer), Some(fault)),
    }
}

/// Runs the script of the reader, and writes its output. If the script runs to its end, the exit is Done, and the last line shows the
/// active image. If it stops, the last line is `refused NAME` with Refused or `fault Read` with Fault, after the output so far. BadLine,
/// LateConfig and Expected are followed by the number of the line. If there is no memory for such a line, it is `refused NoMemory`.
///
/// If the writer fails, the exit is Fault, and only a proper prefix of the text is written.
pub fn run_text<R: Read + Drop, W: Write>(alloc: Global, reader: R, writer: &mut W) -> Exit
    ensures run { IsRunText None (R.remaining reader) (W.contents writer.old) (W.contents writer.new) result }
    ensures printed { HeadlineIsOut None (R.remaining reader) (W.contents writer.old) (W.contents writer.new) result }
{
    let (exit, _) = run_with_fault(alloc, None, reader, writer, &Stopped::new());
    exit
}

/// Runs the script as `run_text` does, with the bytes of `file`, if given, as FILE. Also returns the fault at which the script stopped, and
/// stores the reason in `stopped`.
pub(crate) fn run_with_fault<R: Read + Drop, W: Write>(
    alloc: Global,
    file: Option<&[u8]>,
    reader: R,
    writer: &mut W,
    stopped: &Stopped,
) -> (Exit, Option<ScriptFault>)
    ensures run { IsRunText (given_bytes file.entry) (R.remaining reader) (W.contents writer.old) (W.contents writer.new) result.0 }
    ensures printed { HeadlineIsOut (given_bytes file.entry) (R.remaining reader) (W.contents writer.old) (W.contents writer.new) result.0 }
    // If there is no fault, the script ran to its end.
    ensures fault { result.1 ≡ None → result.0 ≡ Exit.Done }
{
    let answer = script_with(alloc, file, reader, writer, stopped);
    end_text(alloc, answer, writer)
}

/// Runs the script as `run_with_fault` does, and writes a line for each action of the host to `trace`, as `dfu_link::script_traced_with`
/// does. Returns the exit, the fault, and true if each line of the trace was written.
pub(crate) fn run_traced_with_fault<R: Read + Drop, W: Write, N: Write>(
    alloc: Global,
    file: Option<&[u8]>,
    reader: R,
    writer: &mut W,
    trace: &mut N,
    stopped: &Stopped,
) -> (Exit, Option<ScriptFault>, bool)
    ensures run { IsRunText (given_bytes file.entry) (R.remaining reader) (W.contents writer.old) (W.contents writer.new) result.0 }
    ensures printed { HeadlineIsOut (given_bytes file.entry) (R.remaining reader) (W.contents writer.old) (W.contents writer.new) result.0 }
    // If there is no fault, the script ran to its end.
    ensures fault { result.1 ≡ None → result.0 ≡ Exit.Done }
{
    let (answer, is_traced) = script_traced_with(alloc, file, reader, writer, trace, stopped);
    let (exit, fault) = end_text(alloc, answer, writer);
    (exit, fault, is_traced)
}
