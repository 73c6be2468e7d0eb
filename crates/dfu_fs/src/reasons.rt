//! Reasons why a file can't be read or written, or is refused.

ghost use Rattle.std.specs.Prelude.{◌≡◌, ◌≢◌, [], IfOk, IfSome, List, ℕ, codes};
ghost use Rattle.std.specs.String.{string_bytes};
ghost use Rattle.dfu_output.specs.ReasonLines.{reason_line};
ghost use Rattle.dfu_fs.specs.SuffixReasons.{length_why, sums_why};

use crate::given::RecordingReader;
use dfu_output::reason_line;
use dfu_suffix::{Findings, SuffixFault};
use std::alloc::{AllocError, Global};
use std::io;

/// Returns the name of a file for a reason: `standard input` for the name `-`, and the name itself otherwise.
fn name_in_reason(name: &str) -> &str
    ensures input { name.now ≡ codes "-" → result.now ≡ codes "standard input" }
    ensures file { name.now ≢ codes "-" → result.now ≡ name.now }
{
    if name == "-" { "standard input" } else { name }
}

/// Returns the line with the reason `why` for file `name`, or for standard input if `name` is `-`. Returns None if memory runs out.
pub fn file_reason(alloc: Global, name: &str, why: &str) -> Option<String>
    ensures input { name.now ≡ codes "-" → IfSome result (λ t. string_bytes t ≡ reason_line [] (codes "standard input") why.now) }
    ensures file { name.now ≢ codes "-" → IfSome result (λ t. string_bytes t ≡ reason_line [] name.now why.now) }
{
    match reason_line(alloc, "", name_in_reason(name), why) {
        Ok(line) => Some(line),
        Err(_) => None,
    }
}

/// Returns the line with the system's text for `error` on file `name`, or on standard input if `name` is `-`. Returns None if memory runs
/// out.
pub fn error_reason(alloc: Global, name: &str, error: &io::Error) -> Option<String>
    ensures input { name.now ≡ codes "-" →
        IfSome result (λ t. (why : List ℕ) × (string_bytes t ≡ reason_line [] (codes "standard input") why)) }
    ensures file { name.now ≢ codes "-" → IfSome result (λ t. (why : List ℕ) × (string_bytes t ≡ reason_line [] name.now why)) }
{
    match format!(in alloc; "{error}") {
        Ok(why) => file_reason(alloc, name, &why),
        Err(_) => None,
    }
}

/// Returns the line with the reason `why` for file `name`. Returns None if there is no memory for `why` or for the line.
fn made_reason(alloc: Global, name: &str, why: Result<String, AllocError>) -> Option<String> {
    match why {
        Ok(why) => file_reason(alloc, name, &why),
        Err(_) => None,
    }
}

/// Returns the reason for a wrong CRC: the CRC in the suffix and the one of the bytes before it.
#[tactic(auto, unfolding(crate::specs::SuffixReasons::sums_why))]
fn sums_why(alloc: Global, written: u32, found: u32) -> Result<String, AllocError>
    ensures { IfOk result (λ t. string_bytes t ≡ sums_why written found) }
{
    format!(in alloc;
        "the check sum in the suffix is {written:08x}, and that of the bytes before it {found:08x}"
    )
}

/// Returns the reason for a wrong length of a suffix: the length in the suffix and the number of bytes in the file.
#[tactic(auto, unfolding(crate::specs::SuffixReasons::length_why))]
fn length_why(alloc: Global, said: u8, count: u32) -> Result<String, AllocError>
    ensures { IfOk result (λ t. string_bytes t ≡ length_why said count) }
{
    format!(in alloc;
        "the suffix says that it has {said} bytes, at least 16 are wanted, and the file has {count}"
    )
}

/// Returns an explanation of a fault of a file, and advice for the user. Returns None for BadLength, BadCrc, Read and Write.
fn fault_why(fault: SuffixFault) -> Option<&'static str> {
    match fault {
        SuffixFault::TooShort => {
            Some("it has under 16 bytes, and so no suffix; dfu add gives a raw image one")
        }
        SuffixFault::NoSignature => {
            Some("it has no suffix, which has the letters UFD; dfu add gives a raw image one")
        }
        SuffixFault::DfuSe => Some(
            "it is of another format, DfuSe: dfu-flash takes it, and dfu does not",
        ),
        SuffixFault::AlreadySuffixed => {
            Some("it has a suffix already: use it as it is, or dfu set changes its identifiers")
        }
        SuffixFault::TooLarge => {
            Some(
                "it has over 16,777,216 bytes, with a suffix that is added; is it a firmware file?",
            )
        }
        SuffixFault::NoMemory => Some("there is no memory for it"),
        _ => None,
    }
}

/// Returns the reason for refusing the bytes of a file because of `fault`, with the numbers that the check found. Returns None for Read and
/// Write, or if memory runs out.
pub(crate) fn found_reason(
    alloc: Global,
    name: &str,
    fault: SuffixFault,
    findings: &Findings,
) -> Option<String> {
    match fault {
        SuffixFault::BadCrc => made_reason(
            alloc,
            name,
            sums_why(alloc, findings.crc, findings.register),
        ),
        SuffixFault::BadLength => made_reason(
            alloc,
            name,
            length_why(alloc, findings.suffix, findings.count),
        ),
        _ => match fault_why(fault) {
            Some(why) => file_reason(alloc, name, why),
            None => None,
        },
    }
}

/// Returns the reason for refusing the bytes of a reader because of `fault`. For Read, it is the error of the failed read.
pub(crate) fn reader_reason<R>(
    alloc: Global,
    name: &str,
    fault: SuffixFault,
    noting: &RecordingReader<R>,
    findings: &Findings,
) -> Option<String> {
    match (fault, &noting.error) {
        (SuffixFault::Read, Some(error)) => error_reason(alloc, name, error),
        _ => found_reason(alloc, name, fault, findings),
    }
}
