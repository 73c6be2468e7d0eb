//! `dfu run`: runs the script in a file or on standard input, with buffered output.

ghost use Rattle.std.specs.Prelude.{◌≡◌, None};

use crate::buffering::run_buffered_with_fault;
use crate::line::{line_why, setup_why};
use crate::running::run_traced_with_fault;
use crate::sharing::Shared;
use crate::watching::ErrorKeeper;
use dfu_fs::{error_reason, file_reason, open};
use dfu_link::{Reason, ScriptFault, Stopped};
use dfu_output::{Exit, Outcome, fault_text};
use dfu_suffix::SuffixFault;
use std::alloc::Global;
use std::io::{self, BufWriter, IsTerminal, Printer, Read, Write};
use std::rt::Files;

/// Size of the buffer of `dfu run` in bytes. Two successive writes together pass on at least this number of bytes. A run therefore makes at
/// most one write for each 8,192 bytes of its output, plus one.
const BUFFER: usize = 16_384;

/// Returns a buffer of `room` bytes for the output. If there is no memory for it, the buffer has no room, and each text is written at once.
fn buffer_of<R: Print + AllocGlobal>(rt: &R, room: usize) -> BufWriter<Printer<'_, R>> {
    if let Ok(buffer) = BufWriter::with_capacity(rt.alloc(), room, io::writer(rt)) {
        return buffer;
    }
    let Ok(buffer) = BufWriter::with_capacity(rt.alloc(), 0, io::writer(rt)) else {
        unreachable!()
    };
    buffer
}

/// Options for running a script.
#[derive(Clone, Copy)]
pub(crate) struct RunOptions<'f> {
    /// True if the run prints each action of the host.
    pub trace: bool,
    /// Bytes of FILE, if it is given.
    pub file: Option<&'f [u8]>,
    /// True if the outcome must contain the reason when the script stops.
    pub explain: bool,
}

impl RunOptions<'_> {
    /// Returns options without a FILE.
    pub(crate) fn without_file(trace: bool, explain: bool) -> RunOptions<'static>
        ensures trace { result.trace ≡ trace }
        ensures file { result.file ≡ None }
        ensures explain { result.explain ≡ explain }
    {
        RunOptions {
            trace,
            file: None,
            explain,
        }
    }
}

/// Returns the line with the reason why script `name` stopped at `fault`. Returns None for Write, if no reason is known, or if memory runs
/// out.
fn fault_reason<S>(
    alloc: Global,
    name: &str,
    fault: ScriptFault,
    stopped: &Stopped,
    watched: &ErrorKeeper<S>,
) -> Option<String> {
    match fault {
        ScriptFault::BadLine(number) => {
            let why = line_why(alloc, stopped.reason()).ok()?;
            line_reason(alloc, name, number, &why)
        }
        ScriptFault::BadConfig => match stopped.reason() {
            Some(Reason::Setup(fault, number)) => {
                line_reason(alloc, name, number, setup_why(fault))
            }
            _ => None,
        },
        ScriptFault::Read => watched.reason(alloc, name),
        ScriptFault::LateConfig(number) => line_reason(
            alloc,
            name,
            number,
            "it sets up the device, and stands behind a line that does something; move it up",
        ),
        ScriptFault::Expected(number) => line_reason(
            alloc,
            name,
            number,
            "the last line that was printed isn't the one that it expects; correct either",
        ),
        ScriptFault::NonePrinted(number) => line_reason(
            alloc,
            name,
            number,
            "nothing was printed since the one before that expects a line; take one of them out",
        ),
        ScriptFault::TooLarge => file_reason(
            alloc,
            name,
            "it has over 16,777,216 bytes; shorten it",
        ),
        ScriptFault::NoMemory => file_reason(alloc, name, "there is no memory for it"),
        ScriptFault::Write => None,
    }
}

/// Returns the line with the reason `why` for line `number` of script `name`, or None if memory runs out.
fn line_reason(alloc: Global, name: &str, number: u32, why: &str) -> Option<String> {
    match format!(in alloc; "line {number}: {why}") {
        Ok(why) => file_reason(alloc, name, &why),
        Err(_) => None,
    }
}

/// Runs a script with a trace. Output and trace share the buffer, which keeps the order of their writes. If a line of either can't be
/// written, the exit is Fault.
fn run_traced<R: Read + Drop, W: Write + Drop>(
    alloc: Global,
    file: Option<&[u8]>,
    reader: R,
    buffer: BufWriter<W>,
    stopped: &Stopped,
) -> (Exit, Option<ScriptFault>) {
    let shared = Shared::new(buffer);
    let mut writer = shared.writer();
    let mut trace = shared.writer();
    let (exit, fault, is_traced) = run_traced_with_fault(
        alloc,
        file,
        reader,
        &mut writer,
        &mut trace,
        stopped,
    );
    if shared.finish() && is_traced {
        (exit, fault)
    } else {
        (Exit::Fault, fault)
    }
}

/// Runs the script of `reader` with the options `ways`.
fn run_with_options<R: Read + Drop, W: Write + Drop>(
    alloc: Global,
    ways: RunOptions<'_>,
    reader: R,
    buffer: BufWriter<W>,
    stopped: &Stopped,
) -> (Exit, Option<ScriptFault>) {
    if ways.trace {
        return run_traced(alloc, ways.file, reader, buffer, stopped);
    }
    let (exit, fault, _) = run_buffered_with_fault(alloc, ways.file, reader, buffer, stopped);
    (exit, fault)
}

/// Runs a script with buffered output, which needs fewer writes. If the script is typed at a terminal, the buffer has no room, so that the
/// output of a line appears before the next line is read.
fn run_opened_script<R: Print + AllocGlobal, S: Read + IsTerminal + Drop>(
    rt: &R,
    name: &str,
    script: S,
    ways: RunOptions<'_>,
) -> Outcome {
    let alloc = rt.alloc();
    let room = if script.is_terminal() { 0 } else { BUFFER };
    let mut watched = ErrorKeeper::new(script);
    let stopped = Stopped::new();
    let (exit, fault) = run_with_options(alloc, ways, &mut watched, buffer_of(rt, room), &stopped);
    let reason = match fault {
        Some(fault) if ways.explain => fault_reason(alloc, name, fault, &stopped, &watched),
        _ => None,
    };
    Outcome { exit, reason }
}

/// Runs the script in file `script`, or on standard input if the name is `-`, with the options `ways`.
pub(crate) fn run_script<R: Files + Input + Print + AllocGlobal>(
    rt: &R,
    script: &str,
    ways: RunOptions<'_>,
) -> Outcome
where
    R::File: IsTerminal,
    R::Reader: IsTerminal,
{
    match open(rt, script) {
        Ok(reader) => run_opened_script(rt, script, reader, ways),
        Err(error) => Outcome {
            exit: fault_text(SuffixFault::Read, &mut io::writer(rt)),
            reason: error_reason(rt.alloc(), script, &error),
        },
    }
}
