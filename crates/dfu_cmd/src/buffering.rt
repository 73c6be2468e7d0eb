//! `dfu run` with buffered output.

ghost use Rattle.std.specs.Prelude.{None};
ghost use Rattle.std.specs.Io.Buffered.{writer_contents};
ghost use Rattle.dfu_link.specs.LineContent.{given_bytes};
ghost use Rattle.dfu_cmd.specs.Buffering.{IsBufferedRun};

use crate::running::run_with_fault;
use dfu_link::{ScriptFault, Stopped};
use dfu_output::Exit;
use std::alloc::Global;
use std::io::{BufWriter, Read, Write};

/// Runs the script into the buffer as `run_text` does, and then flushes the buffer. Returns the exit and the buffer's writer.
///
/// If the writer fails, the exit is Fault, and the writer has received a prefix of the text.
pub fn run_buffered<R: Read + Drop, W: Write + Drop>(
    alloc: Global,
    reader: R,
    buffer: BufWriter<W>,
) -> (Exit, W)
    ensures { IsBufferedRun None (R.remaining reader) (writer_contents W.contents buffer) (W.contents result.1) result.0 }
{
    let (exit, _, writer) = run_buffered_with_fault(alloc, None, reader, buffer, &Stopped::new());
    (exit, writer)
}

/// Runs the script as `run_buffered` does, with the bytes of `file`, if given, as FILE. Also returns the fault at which the script stopped.
pub(crate) fn run_buffered_with_fault<R: Read + Drop, W: Write + Drop>(
    alloc: Global,
    file: Option<&[u8]>,
    reader: R,
    mut buffer: BufWriter<W>,
    stopped: &Stopped,
) -> (Exit, Option<ScriptFault>, W)
    ensures { IsBufferedRun (given_bytes file.entry) (R.remaining reader) (writer_contents W.contents buffer) (W.contents result.2)
        result.0 }
{
    let (exit, fault) = run_with_fault(alloc, file, reader, &mut buffer, stopped);
    match buffer.into_inner() {
        Ok(writer) => (exit, fault, writer),
        Err(error) => {
            // Dropping the buffer would write its bytes again, so the buffer is taken apart.
            let (writer, _) = error.into_inner().into_parts();
            (Exit::Fault, fault, writer)
        }
    }
}
