//! Reasons for stopping a script, as sentences.

use dfu_link::{Field, LineFault, Reason, SetupFault};
use std::alloc::{AllocError, Global};

/// Returns a description of the values of `field`.
fn wanted(field: Field) -> &'static str {
    match field {
        Field::Identifier => "four hexadecimal digits",
        Field::Attributes => "two hexadecimal digits, 00 to 0f",
        Field::Number => "a number of 1 to 10 digits, at most 4,294,967,295",
        Field::Short => "a number, at most 65,535",
        Field::Unit => "1, 16, 64 or 256",
        Field::Sector => "0 or a multiple of 256 up to 131,072",
        Field::Capacity => "a number from 1 to 1,048,576",
        Field::Times => "a number from 1 to 1,000,000",
        Field::Report => "report",
        Field::Objection => "errTARGET or errFILE",
        Field::Bytes => "an even count of hexadecimal digits, or - for no bytes",
    }
}

/// Returns an explanation of `fault`, the fault of a line with `words` words.
fn words_why(alloc: Global, fault: LineFault, words: usize) -> Result<String, AllocError> {
    let why = match fault {
        LineFault::Word(field, number) => {
            let wanted = wanted(field);
            return format!(in alloc; "its word {number} isn't {wanted}");
        }
        LineFault::Count(of) => {
            return format!(in alloc; "it has {words} words in place of {of}");
        }
        LineFault::Long => "it has over 65,536 bytes",
        LineFault::Keyword => "its first word is none of the language",
        LineFault::NoFate => "behind go a word is missing, as pass",
        LineFault::Fate => "the word behind go is none of the language",
        LineFault::NoText => "behind expect and a space the line is missing",
        LineFault::NoFile => "FILE stands for a file only with --file",
        LineFault::Comment => "a comment is a line of its own",
    };
    String::from_str(alloc, why)
}

/// Returns an explanation for a line with a byte that isn't printable ASCII.
fn unprintable_why(begins: bool, ends: bool) -> &'static str {
    if begins {
        "it begins with a byte order mark"
    } else if ends {
        "it ends in a carriage return, and a line ends in a line feed alone"
    } else {
        "it has a tab or another character that isn't printable ASCII"
    }
}

/// Returns the reason why a line isn't valid in a script. A line over 65,536 bytes has no `reason`.
pub(crate) fn line_why(alloc: Global, reason: Option<Reason>) -> Result<String, AllocError> {
    match reason {
        Some(Reason::Line(fault, words)) => words_why(alloc, fault, words),
        Some(Reason::Unprintable { begins, ends }) => {
            String::from_str(alloc, unprintable_why(begins, ends))
        }
        _ => words_why(alloc, LineFault::Long, 0),
    }
}

/// Returns the reason why no device can be set up.
pub(crate) fn setup_why(fault: SetupFault) -> &'static str {
    match fault {
        SetupFault::Transfer => "TRANSFER isn't 1 to 4,096",
        SetupFault::Poll => "BUSY or MANIFEST is over 16,777,215",
        SetupFault::NoTime => "MANIFEST is 0 on a device that isn't tolerant",
        SetupFault::Least => "LEAST isn't 1 to 16,777,216",
        SetupFault::Unit => "the capacity is no multiple of the unit",
        SetupFault::Sector => "the capacity is no multiple of the sector",
        SetupFault::Image => "the factory image is longer than the capacity",
    }
}
