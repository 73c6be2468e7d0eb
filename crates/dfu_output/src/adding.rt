//! `dfu add`: writes a file with a suffix, and a line about the result.

ghost use Rattle.std.specs.Prelude.{◌≡◌, IfOk, None};
ghost use Rattle.std.specs.String.{string_bytes};
ghost use Rattle.dfu_output.specs.AddText.{HasAddFault, WritesAddLine, wrote_line};

use crate::exit::{Exit, fault_text, write_out};
use crate::fields::Value::Number;
use crate::fields::line_of;
use dfu_suffix::{SuffixFault, add};
use dfu_wire::Ids;
use std::alloc::{AllocError, Global};
use std::io::{Read, Write};

/// Returns the line for a written file: `wrote N`, where N is `count`, the file's number of bytes.
///
/// # Errors
///
/// AllocError if there is no memory for the line.
#[tactic(auto, unfolding(crate::specs::AddText::wrote_line))]
pub fn wrote_line(alloc: Global, count: u32) -> Result<String, AllocError>
    ensures { IfOk result (λ t. string_bytes t ≡ wrote_line count) }
{
    line_of(alloc, "wrote", &[(" ", Number(count as u64))])
}

/// Writes the bytes of the reader with a suffix to `file`, and one line to `out`: `wrote N` with Done, where N is the number of bytes in
/// `file`, `refused NAME` with Refused, or `fault Read` or `fault Write` with Fault. After `fault Write` only a proper prefix of the bytes
/// is in `file`, and after any other refusal or fault none. If there is no memory for the line `wrote N`, the line is `refused NoMemory`
/// and `file` is complete.
///
/// If `out` fails, the exit is Fault, and only a proper prefix of the line is written.
pub fn add_text<R: Read + Drop, F: Write, W: Write>(
    alloc: Global,
    reader: R,
    ids: Ids,
    file: &mut F,
    out: &mut W,
) -> Exit
    ensures { WritesAddLine (R.remaining reader) ids (F.contents file.old) (F.contents file.new) (W.contents out.old)
        (W.contents out.new) result }
{
    let (exit, _) = add_with_fault(alloc, reader, ids, file, out);
    exit
}

/// Adds a suffix as `add_text` does. Returns the exit, and the fault that the line reports, if there is one.
pub fn add_with_fault<R: Read + Drop, F: Write, W: Write>(
    alloc: Global,
    reader: R,
    ids: Ids,
    file: &mut F,
    out: &mut W,
) -> (Exit, Option<SuffixFault>)
    ensures line { WritesAddLine (R.remaining reader) ids (F.contents file.old) (F.contents file.new) (W.contents out.old)
        (W.contents out.new) result.0 }
    ensures fault { HasAddFault (R.remaining reader) ids (F.contents file.old) (F.contents file.new) result.1 }
    ensures done { result.0 ≡ Exit.Done → result.1 ≡ None }
{
    match add(alloc, reader, ids, file) {
        Ok(count) => match wrote_line(alloc, count) {
            Ok(line) => (write_out(out, line.as_bytes(), Exit::Done), None),
            Err(_) => {
                let fault = SuffixFault::NoMemory;
                (fault_text(fault, out), Some(fault))
            }
        },
        Err(fault) => (fault_text(fault, out), Some(fault)),
    }
}
