//! Reasons for refusing arguments of the command line.

ghost use Rattle.std.specs.Prelude.{◌≡◌, IfOk, IfSome, None, is_some, true};
ghost use Rattle.std.specs.String.{string_bytes};
ghost use Rattle.dfu_output.specs.ReasonLines.{reason_line};
ghost use Rattle.dfu_cmd.specs.Identifiers.{ids_in_texts};
ghost use Rattle.dfu_cmd.specs.WordReasons.{label_and_why};

use crate::identifiers::{IdTexts, wrong_option};
use dfu_output::{Outcome, bad_words, reason_line};
use std::alloc::{AllocError, Global};
use std::io;

/// Refuses the command line: writes the line `bad words`, and returns the outcome with `reason`.
pub(crate) fn refused<R: Print>(rt: &R, reason: Option<String>) -> Outcome {
    Outcome {
        exit: bad_words(&mut io::writer(rt)),
        reason,
    }
}

/// Refuses the argument `word` because of `fault`.
pub(crate) fn refused_word<R: Print + AllocGlobal>(
    rt: &R,
    fault: WordFault,
    word: &str,
) -> Outcome {
    refused(rt, word_reason(rt.alloc(), fault, word))
}

/// Returns the line, or None if there was no memory for it.
fn made(line: Result<String, AllocError>) -> Option<String>
    ensures { (t : _) → IfOk line (λ s. string_bytes s ≡ t) → IfSome result (λ s. string_bytes s ≡ t) }
{
    match line {
        Ok(line) => Some(line),
        Err(_) => None,
    }
}

/// Returns the reason for refusing the first wrong one of the three identifiers. Returns None if all are right, or if memory runs out.
pub(crate) fn bad_identifier_reason(alloc: Global, texts: &IdTexts<'_>) -> Option<String>
    ensures sound { is_some (ids_in_texts texts.now.vendor.now texts.now.product.now texts.now.device.now) ≡ true → result ≡ None }
{
    match wrong_option(texts) {
        Some((option, text)) => {
            let why = "it has to be four hexadecimal digits, as 1209";
            made(reason_line(alloc, option, text, why))
        }
        None => None,
    }
}

/// Fault of an argument of the command line.
#[derive(Clone, Copy)]
pub(crate) enum WordFault {
    /// KIND is unknown.
    Kind,
    /// OUT can't be `-`.
    Out,
    /// FILE of `dfu set` can't be `-`, because it is changed in place.
    Place,
    /// The format is unknown.
    Format,
    /// The fill byte doesn't have two hexadecimal digits.
    Fill,
    /// `--fill` is given, but FILE is read as a raw image, which has no gaps.
    LoneFill,
    /// No option sets an identifier of FILE.
    NoChange,
    /// A script and its file can't both be standard input.
    File,
    /// The interface isn't a number from 0 to 255.
    Interface,
    /// The device of a capture is neither `only` nor a bus and a device.
    Device,
    /// The value of `--boot` isn't a valid size.
    Boot,
    /// The number of areas is neither 2 nor 3.
    Areas,
}

/// Returns the label for an argument with `fault`, and the reason for refusing it.
fn label_and_why(fault: WordFault) -> (&'static str, &'static str)
    ensures label { result.0.now ≡ (label_and_why fault).0 }
    ensures why { result.1.now ≡ (label_and_why fault).1 }
{
    match fault {
        WordFault::Kind => (
            "KIND ",
            "it has to be functional, status, state, setup or configuration",
        ),
        WordFault::Out => ("OUT ", "it has to be a file, as ./- for one with this name"),
        WordFault::Place => (
            "FILE ",
            "it has to be a file, as ./- for one with this name",
        ),
        WordFault::Format => (
            "--format ",
            "it has to be raw, auto, ihex, srec, uf2 or elf",
        ),
        WordFault::Fill => ("--fill ", "it has to be two hexadecimal digits, as ff"),
        WordFault::LoneFill => ("--fill ", "a raw image has no gaps; it goes with --format"),
        WordFault::NoChange => ("FILE ", "nothing is to change: give --vid, --pid or --did"),
        WordFault::File => ("--file ", "the script is standard input already"),
        WordFault::Interface => ("--interface ", "it has to be a number from 0 to 255"),
        WordFault::Device => (
            "--device ",
            "it has to be only, or a bus and a device, as 1.7",
        ),
        WordFault::Boot => (
            "--boot ",
            "it has to be a size of at most 4,294,967,295 bytes, as 32k, 0x8000 or 32768",
        ),
        WordFault::Areas => ("--areas ", "it has to be 2 or 3"),
    }
}

/// Returns the line with the reason for refusing `word` because of `fault`, or None if memory runs out.
pub(crate) fn word_reason(alloc: Global, fault: WordFault, word: &str) -> Option<String>
    ensures { IfSome result (λ t. string_bytes t ≡ reason_line (label_and_why fault).0 word.now (label_and_why fault).1) }
{
    let (label, why) = label_and_why(fault);
    made(reason_line(alloc, label, word, why))
}
