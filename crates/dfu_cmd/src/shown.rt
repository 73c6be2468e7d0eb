//! `dfu show`, and the reasons for its refusals, which are derived from the printed line.

ghost use Rattle.std.specs.Prelude.{◌≤◌, length, IfOk};

use crate::hexing::bare;
use crate::words::{WordFault, word_reason};
use dfu_fs::JsonLines;
use dfu_output::{Exit, Outcome, fault_text, reason_line, show_text};
use dfu_suffix::SuffixFault;
use std::alloc::Global;
use std::io::{self, Write};

/// Number of first bytes of the output that are kept. No line of a refusal of `dfu show` is longer.
const REMEMBERED_BYTES: usize = 32;

/// Output that keeps the first bytes that are written to it.
#[derive(Drop)]
struct PrefixKeeper<W> {
    out: W,
    kept: [u8; REMEMBERED_BYTES],
    count: usize,
}

impl<W> PrefixKeeper<W> {
    /// Returns a new output that passes its bytes on to `out`.
    fn new(out: W) -> PrefixKeeper<W> {
        PrefixKeeper {
            out,
            kept: [0; REMEMBERED_BYTES],
            count: 0,
        }
    }

    /// Returns the first 32 bytes that were written, or fewer if there were fewer.
    fn front(&self) -> &[u8] {
        self.kept.get(..self.count).unwrap_or(&[])
    }

    /// Keeps the first of `bytes`, as many as there is room for.
    fn keep(&mut self, bytes: &[u8]) {
        for byte in bytes {
            match self.kept.get_mut(self.count) {
                Some(slot) => *slot = *byte,
                None => return,
            }
            self.count = self.count.saturating_add(1);
        }
    }
}

impl<W: Write> Write for PrefixKeeper<W> {
    fn write(&mut self, buf: &[u8]) -> io::Result<usize> {
        let taken = self.out.write(buf)?;
        self.keep(&buf[..taken]);
        Ok(taken)
    }

    fn flush(&mut self) -> io::Result<()> {
        self.out.flush()
    }
}

/// Returns an explanation of a refusal, and what to do. Returns None if `line` isn't a refusal of bytes.
fn why(line: &str) -> Option<&'static str> {
    match line {
        "refused BadHex\n" => Some(
            "HEX isn't two hexadecimal digits for each byte; spaces, colons, commas and 0x may stand between bytes",
        ),
        "refused Short\n" => Some(
            "there are too few bytes; functional has as many as its first byte says, status 6, state 1, setup 8, configuration as many as bytes 2 and 3 say",
        ),
        "refused Long\n" => Some(
            "there are too many bytes; functional has as many as its first byte says, status 6, state 1, setup 8, configuration as many as bytes 2 and 3 say",
        ),
        "refused WrongLength\n" => Some(
            "the first byte of a descriptor is its length: 9, or 7 of DFU 1.0, and 09 of a configuration",
        ),
        "refused WrongType\n" => Some(
            "the second byte of a functional descriptor is 21, and that of a configuration 02",
        ),
        "refused UnknownCode\n" => Some("the first byte of a status is 00 to 0f"),
        "refused UnknownState\n" => Some(
            "a state is 00 to 0a: the fifth byte of a status, or the one of state",
        ),
        "refused NoMemory\n" => Some("there is no memory for it"),
        _ => None,
    }
}

/// Returns the line with the reason for refusing bytes of `kind`. Returns None if `line` isn't a refusal of `dfu show`, or if memory runs
/// out.
fn show_reason(alloc: Global, kind: &str, line: &[u8]) -> Option<String> {
    // Every line of a refusal is ASCII.
    let why = why(std::str::from_utf8(line).unwrap_or(""))?;
    match reason_line(alloc, "", kind, why) {
        Ok(line) => Some(line),
        Err(_) => None,
    }
}

/// Returns true if `dfu show` can decode bytes of `kind`.
fn is_kind(kind: &str) -> bool {
    matches!(
        kind,
        "functional" | "status" | "state" | "setup" | "configuration"
    )
}

/// Decodes the bytes of `words` as `kind`, and prints their fields. If the kind or the bytes are refused, the outcome contains the reason.
pub(crate) fn perform_show<R: Print + AllocGlobal>(
    rt: &R,
    kind: &str,
    words: &[String],
    json: bool,
) -> Outcome {
    let alloc = rt.alloc();
    // The line `bad words` is never printed as an object.
    let lines = JsonLines::new(alloc, json && is_kind(kind), None, io::writer(rt));
    let mut out = PrefixKeeper::new(lines);
    let Ok(digits) = bare(alloc, words) else {
        return Outcome {
            exit: fault_text(SuffixFault::NoMemory, &mut out),
            reason: None,
        };
    };
    // UTF-8 text without some of its ASCII characters is still UTF-8.
    let hex = std::str::from_utf8(&digits).unwrap_or("?");
    let exit = show_text(alloc, kind, hex, &mut out);
    let reason = match exit {
        Exit::BadWords => word_reason(alloc, WordFault::Kind, kind),
        Exit::Refused => show_reason(alloc, kind, out.front()),
        _ => None,
    };
    Outcome { exit, reason }
}
