//! Runs whole scripts, from the configuration lines to the line of the image.

ghost use Rattle.std.specs.Prelude.{IfOk, IfErr, IfSome, None};
ghost use Rattle.dfu_link.specs.LineContent.{given_bytes};
ghost use Rattle.dfu_link.specs.Falls.{ScriptEnding};
ghost use Rattle.dfu_link.specs.Printed.{HasPrinted};
ghost use Rattle.dfu_link.specs.inside.Moving.{LinesConfigured, IsConfigureFault};
ghost use Rattle.dfu_link.specs.inside.SetupView.{settings_of};

use crate::scripting::expectation::ScriptContext;
use crate::scripting::fault::{ScriptFault, Stopped};
use crate::scripting::line::Line;
use crate::scripting::reading::{note_line, parse};
use crate::scripting::run_events::run_on;
use crate::scripting::script_config::{ScriptConfig, beginning, check_in, set, set_limits};
use crate::scripting::source::LineReader;
use crate::scripting::starting::start;
use crate::trace::{NoTrace, TraceWriter, Tracer};
use dfu_host::Limits;
use dfu_sim::laws::image_shown;
use dfu_slots::SimMedium;
use std::alloc::Global;
use std::io::{Read, Write};

/// Performs the lines of `source` before the first event line, `show` or `expect`. Returns true if it stops at such a line, and false at
/// the end of the text.
fn configure<R: Read + Drop>(
    alloc: Global,
    setup: &mut ScriptConfig<'_>,
    source: &mut LineReader<R>,
    stopped: &Stopped,
) -> Result<bool, ScriptFault>
    ensures ok { IfOk result (λ more. LinesConfigured (settings_of setup.old) source.old (settings_of setup.new) more source.new) }
    ensures fault { IfErr result (λ f. IsConfigureFault (settings_of setup.old) source.old f) }
{
    'settings: loop {
        if !source.next()? {
            return Ok(false);
        }
        match parse(setup.given, source.line()) {
            None => {
                note_line(stopped, setup.given, source.line());
                return Err(ScriptFault::BadLine(source.number()));
            }
            Some(Line::Blank) => {}
            Some(Line::Set(setting)) => set(alloc, setup, setting, source.number())?,
            Some(Line::Limits { actions, restarts }) => {
                set_limits(setup, Limits { actions, restarts });
            }
            Some(Line::Do(_)) => return Ok(true),
            Some(Line::Show) => return Ok(true),
            Some(Line::Expect(_)) => return Ok(true),
        }
    }
}

/// Runs the script of a reader. `given` holds the bytes that FILE stands for.
pub(super) fn run_lines<T: Tracer<SimMedium>, R: Read + Drop, W: Write>(
    alloc: Global,
    given: Option<&[u8]>,
    reader: R,
    writer: &mut W,
    tracer: &mut T,
    stopped: &Stopped,
) -> Result<(), ScriptFault>
    ensures { IfSome (R.remaining reader)
        (λ text. ScriptEnding (given_bytes given.entry) text (W.contents writer.old) (W.contents writer.new) result) }
{
    let mut source = LineReader::new(alloc, reader)?;
    let mut setup = beginning(given);
    let more = configure(alloc, &mut setup, &mut source, stopped)?;
    let device = start(alloc, &setup, stopped)?;
    let context = ScriptContext {
        given: setup.given,
        check: check_in(&setup),
        limits: setup.limits,
        next: None,
        stopped,
    };
    run_on::<T, R, SimMedium, W>(alloc, device, &mut source, more, context, writer, tracer)
}

/// Runs a script: reads it line by line, and performs each line before it reads the next one. Configuration lines configure a device, event
/// lines apply events to the link of that device and a host, and the texts that they print are written. With Ok, the last line written is
/// that of the device's image.
///
/// In `offer` and `verify` the word FILE stands for the given bytes, which are not copied. If none are given, FILE is not a word of the
/// language.
///
/// If the script stops at BadLine or BadConfig, the reason is stored in `stopped`.
///
/// Of the text, one line and one piece of 16,384 bytes are held in memory at a time, so this memory does not grow with the length of the
/// text.
///
/// # Errors
///
/// See `ScriptFault`. The first fault in the order of the lines is returned, and the text of the lines before it is written completely.
/// TooLarge is returned if byte 16,777,217 of the text is reached before the end of a line, and before byte 65,537 of that line; nothing is
/// read after that byte was read. Read is returned at the first error of the reader, without a retry. With BadConfig nothing is written;
/// with Write a prefix of the text is written.
pub fn script_with<R: Read + Drop, W: Write>(
    alloc: Global,
    given: Option<&[u8]>,
    reader: R,
    writer: &mut W,
    stopped: &Stopped,
) -> Result<(), ScriptFault>
    // With Ok the written text is that of a run of the read text. A fault determines the line at which the run stopped, and the text that
    // was written before it.
    ensures ended { IfSome (R.remaining reader)
        (λ text. ScriptEnding (given_bytes given.entry) text (W.contents writer.old) (W.contents writer.new) result) }
    // The headline, for the whole text or up to the line at which the script stopped: each printed image is the factory image or a payload
    // offered so far. If `report installed` or `report verified` is printed, the device is in appIDLE and exactly the payload of the last
    // session is active. This clause relies only on the effect of each line.
    ensures printed { IfSome (R.remaining reader)
        (λ text. HasPrinted (given_bytes given.entry) text (W.contents writer.old) (W.contents writer.new) result) }
{
    // The proof of `printed` needs the clause of this call: the image that a bench shows is the only active one.
    image_shown();
    run_lines::<NoTrace, R, W>(alloc, given, reader, writer, &mut NoTrace, stopped)
}

/// Runs a script as `script_with` does, and writes a line for each action of the host to `trace`, before the text that the action prints.
/// The line has the number of the action, the phase of the host, its request, wait or reset, the fate, the answer of the device, the state
/// of the device before and after, the writes of the medium, and the milliseconds from the start of the script to the end of the action.
/// Such a line begins with `# `, and no line of `script_with` begins with `#`. The call also returns true if every line of the trace was
/// written.
///
/// Each line of the trace is built in memory. If there is no memory for a line, or `trace` fails, the script continues without any more
/// lines of the trace.
///
/// # Errors
///
/// Those of `script_with`.
pub fn script_traced_with<R: Read + Drop, W: Write, N: Write>(
    alloc: Global,
    given: Option<&[u8]>,
    reader: R,
    writer: &mut W,
    trace: &mut N,
    stopped: &Stopped,
) -> (Result<(), ScriptFault>, bool)
    ensures ended { IfSome (R.remaining reader)
        (λ text. ScriptEnding (given_bytes given.entry) text (W.contents writer.old) (W.contents writer.new) result.0) }
    ensures printed { IfSome (R.remaining reader)
        (λ text. HasPrinted (given_bytes given.entry) text (W.contents writer.old) (W.contents writer.new) result.0) }
{
    // The proof of `printed` needs the clause of this call: the image that a bench shows is the only active one.
    image_shown();
    let mut trace_writer = TraceWriter::new(alloc, trace);
    let answer = run_lines::<TraceWriter<'_, N>, R, W>(
        alloc,
        given,
        reader,
        writer,
        &mut trace_writer,
        stopped,
    );
    (answer, !trace_writer.is_broken)
}

/// Runs a script as `script_with` does, with no bytes given, so that FILE is not a word of the language.
///
/// # Errors
///
/// Those of `script_with`.
pub fn script<R: Read + Drop, W: Write>(
    alloc: Global,
    reader: R,
    writer: &mut W,
) -> Result<(), ScriptFault>
    // With Ok the written text is that of a run of the read text. A fault determines the line at which the run stopped, and the text that
    // was written before it.
    ensures ended { IfSome (R.remaining reader)
        (λ text. ScriptEnding None text (W.contents writer.old) (W.contents writer.new) result) }
    // The headline, for the whole text or up to the line at which the script stopped: each printed image is the factory image or a payload
    // offered so far. If `report installed` or `report verified` is printed, the device is in appIDLE and exactly the payload of the last
    // session is active. This clause relies only on the effect of each line.
    ensures printed { IfSome (R.remaining reader)
        (λ text. HasPrinted None text (W.contents writer.old) (W.contents writer.new) result) }
{
    script_with::<R, W>(alloc, None, reader, writer, &Stopped::new())
}

/// Runs a script as `script_traced_with` does, with no bytes given.
///
/// # Errors
///
/// Those of `script_with`.
pub fn script_traced<R: Read + Drop, W: Write, N: Write>(
    alloc: Global,
    reader: R,
    writer: &mut W,
    trace: &mut N,
) -> (Result<(), ScriptFault>, bool)
    ensures ended { IfSome (R.remaining reader)
        (λ text. ScriptEnding None text (W.contents writer.old) (W.contents writer.new) result.0) }
    ensures printed { IfSome (R.remaining reader)
        (λ text. HasPrinted None text (W.contents writer.old) (W.contents writer.new) result.0) }
{
    script_traced_with::<R, W, N>(alloc, None, reader, writer, trace, &Stopped::new())
}
