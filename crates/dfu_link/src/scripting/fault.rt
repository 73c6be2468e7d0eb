//! Faults that end a script before its last line is written, faults of a line that is not of the language, and the reason why a run
//! stopped.

use crate::scripting::setup_fault::SetupFault;
use std::cell::Cell;
use std::fmt;
use thiserror::Error;

/// Faults that end a script before its last line is written. Lines are counted from 1, and blank lines and comments count too.
#[derive(Clone, Copy, Debug, Error)]
pub enum ScriptFault {
    /// This line is not one of the language, or has over 65,536 bytes. A line is checked for BadLine before it is checked for LateConfig
    /// and BadConfig.
    BadLine(u32),
    /// This line configures the device after the first event line, `show` or `expect`.
    LateConfig(u32),
    /// No device can be configured with these settings (`ConfigFault`), or the capacity is not a multiple of the unit or of the sector, or
    /// the image has more bytes than the capacity. The settings are checked at the first event line, `show` or `expect`, or at the end.
    BadConfig,
    /// This `expect` line expects a line, but another one was printed next. That one is written without its line feed.
    Expected(u32),
    /// This `expect` line expects a line, but the next `expect` follows before anything is printed.
    NonePrinted(u32),
    /// The text has over 16,777,216 bytes.
    TooLarge,
    /// An allocation failed.
    NoMemory,
    /// The reader failed.
    Read,
    /// The writer failed, or accepted none of the remaining bytes.
    Write,
}

impl fmt::Display for ScriptFault {
    fn fmt<W: fmt::Write>(&self, f: &mut fmt::Formatter<W>) -> fmt::Result {
        f.write_str(match self {
            ScriptFault::BadLine(line) => return write!(f, "line {line} is not understood"),
            ScriptFault::LateConfig(line) => return write!(
                f,
                "line {line} sets up a device that has begun"
            ),
            ScriptFault::BadConfig => "no device can be set up like this",
            ScriptFault::TooLarge => "the script has over 16777216 bytes",
            ScriptFault::NoMemory => "out of memory",
            ScriptFault::Read => "the script can't be read",
            ScriptFault::Write => "the output can't be written",
            ScriptFault::Expected(line) => return write!(
                f,
                "line {line} expects another line than the one that is printed next"
            ),
            ScriptFault::NonePrinted(line) => return write!(
                f,
                "no line is printed that line {line} could expect"
            ),
        })
    }
}

/// Kind of field in a line of a script, which determines the form of its word.
#[derive(Clone, Copy)]
pub enum Field {
    /// Four hexadecimal digits.
    Identifier,
    /// Two hexadecimal digits, 00 to 0f.
    Attributes,
    /// 1 to 10 decimal digits, at most 4,294,967,295.
    Number,
    /// A number of at most 65,535.
    Short,
    /// 1, 16, 64 or 256.
    Unit,
    /// 0 or a multiple of 256 up to 131,072.
    Sector,
    /// A number from 1 to 1,048,576.
    Capacity,
    /// A number from 1 to 1,000,000.
    Times,
    /// The word `report`.
    Report,
    /// `errTARGET` or `errFILE`.
    Objection,
    /// An even number of hexadecimal digits of either case, or `-` for no bytes.
    Bytes,
}

/// Reason why a line is not of the language. The words are checked from left to right, and counted from 1.
#[derive(Clone, Copy)]
pub enum LineFault {
    /// The line has over 65,536 bytes.
    Long,
    /// No line of the language begins with this line's first word.
    Keyword,
    /// No word follows `go`.
    NoFate,
    /// The word after `go` is neither a fate nor `until`.
    Fate,
    /// No text follows `expect` and one space.
    NoText,
    /// The word after `offer` or `verify` is FILE, but no bytes are given.
    NoFile,
    /// The word with this number does not have the form of this field.
    Word(Field, usize),
    /// Number of words that the line must have, but does not have.
    Count(usize),
    /// A comment follows the last word of the line.
    Comment,
}

/// Reason why a script stopped, in more detail than the `ScriptFault` of its run.
#[derive(Clone, Copy)]
pub enum Reason {
    /// With BadLine: the line has a byte outside 20h to 7Eh. `begins` is true if the line begins with a byte order mark, and `ends` is true
    /// if the line ends in a carriage return.
    Unprintable { begins: bool, ends: bool },
    /// With BadLine: the fault of the line, and the number of its words.
    Line(LineFault, usize),
    /// With BadConfig: the reason why no device can be configured, and the number of the line that causes it (0 if no line does).
    Setup(SetupFault, u32),
}

/// Reason why a run of a script stopped; None at first. The run and its printed text do not depend on this value.
#[derive(Drop)]
pub struct Stopped {
    reason: Cell<Option<Reason>>,
}

impl Stopped {
    /// Makes an empty `Stopped`, for a run that has not stopped.
    pub fn new() -> Stopped {
        Stopped {
            reason: Cell::new(None),
        }
    }

    /// Returns the stored reason, or None. A script that stops at BadLine or BadConfig stores one, except for a line of over 65,536 bytes.
    pub fn reason(&self) -> Option<Reason> {
        self.reason.get()
    }

    /// Stores the reason why the script stopped.
    pub(crate) fn note_reason(&self, reason: Reason) {
        self.reason.set(Some(reason));
    }
}
