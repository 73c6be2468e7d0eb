//! The line that a script expects to be printed next.

ghost use Rattle.std.specs.Prelude.{◌≡◌, ◌≢◌, ◌<◌, ◌++◌, ◌∷◌, [], Some, None, true, false, length, OnOk, IfErr};
ghost use Rattle.dfu_link.specs.inside.Expected.{expectation_of, PrintEnds, IsExpectFault};

use crate::scripting::fault::{ScriptFault, Stopped};
use crate::scripting::output::write_out;
use dfu_host::Limits;
use std::alloc::Global;
use std::io::Write;

/// Line that the script expects to be printed next, without its line feed, and the number of the `expect` line. The printed line is first
/// stored in memory of `alloc`, and then compared with `text`.
#[derive(Drop)]
pub(crate) struct Expectation {
    pub number: u32,
    pub text: Vec<u8>,
    pub alloc: Global,
}

/// Context of the lines after the start of the device: the bytes that the word FILE stands for, if they are given; the first bytes of each
/// image that the program accepts; the limits of later sessions; and the expected line. `stopped` receives the fault of a line.
#[derive(Drop)]
pub(crate) struct ScriptContext<'g> {
    pub given: Option<&'g [u8]>,
    pub check: &'g [u8],
    pub limits: Limits,
    pub next: Option<Expectation>,
    pub stopped: &'g Stopped,
}

/// Stores in `next` that line `number` expects `text`, if no line is expected yet.
///
/// # Errors
///
/// NonePrinted if a line is expected already, NoMemory if there is no memory for the text.
pub(crate) fn expect(
    alloc: Global,
    next: &mut Option<Expectation>,
    number: u32,
    text: &[u8],
) -> Result<(), ScriptFault>
    ensures free { OnOk result (expectation_of next.old ≡ None) }
    ensures ok { OnOk result (expectation_of next.new ≡ Some (record { number = number; text = text.now })) }
    ensures fault { IfErr result (λ f. IsExpectFault (expectation_of next.old) f) }
{
    if let Some(first) = next {
        return Err(ScriptFault::NonePrinted(first.number));
    }
    let mut copy = Vec::new(alloc);
    let Ok(()) = copy.extend_from_slice(text) else {
        return Err(ScriptFault::NoMemory);
    };
    *next = Some(Expectation {
        number,
        text: copy,
        alloc,
    });
    Ok(())
}

/// Returns true if a text is the expected line with its line feed.
fn is_line(expected: &[u8], text: &[u8]) -> bool
    ensures same_text { result ≡ true → text.now ≡ expected.now ++ 10 ∷ [] }
    ensures other { result ≡ false → text.now ≢ expected.now ++ 10 ∷ [] }
{
    match text.split_last() {
        Some((last, front)) => *last == b'\n' && front == expected,
        None => false,
    }
}

/// Writes a whole text if it is the expected line. Otherwise writes it without its last byte, and returns Expected. Returns Write if the
/// writer fails.
fn write_expected<W: Write>(
    writer: &mut W,
    expected: &Expectation,
    text: &[u8],
) -> Result<(), ScriptFault>
    requires { 0 < length text.now }
    ensures { PrintEnds (expectation_of (Some expected.now)) (W.contents writer.old) text.now None (W.contents writer.new) result }
{
    if is_line(&expected.text, text) {
        return write_out(writer, text);
    }
    let Some((_, front)) = text.split_last() else {
        unreachable!()
    };
    write_out(writer, front)?;
    Err(ScriptFault::Expected(expected.number))
}

/// Writes a text. If a line is expected and the text is not empty, `write_expected` writes the text, and no line is expected afterwards.
pub(crate) fn write_next<W: Write>(
    writer: &mut W,
    next: &mut Option<Expectation>,
    text: &[u8],
) -> Result<(), ScriptFault>
    ensures { PrintEnds (expectation_of next.old) (W.contents writer.old) text.now (expectation_of next.new)
        (W.contents writer.new) result }
{
    if text.is_empty() {
        return Ok(());
    }
    match next.take() {
        None => write_out(writer, text),
        Some(expected) => write_expected(writer, &expected, text),
    }
}
