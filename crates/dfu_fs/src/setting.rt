//! `dfu extract`, which copies the payload of a DFU file, and `dfu set`, which changes its identifiers.

use crate::changing::{Change, with_ids};
use crate::gathering::{gathered, refused, refused_bytes};
use crate::replacing::replace;
use crate::temp_file::Owned;
use dfu_output::{Exit, Outcome, check_text, wrote_line};
use dfu_suffix::{SuffixFault, read};
use std::rt::Files;

/// Writes the payload of `file`, or of standard input if the name is `-`, to file `to`, if the input is a DFU file. After a fault, the
/// outcome contains the reason; for a wrong CRC or length, the numbers in the reason are right only if `explain` is set.
pub fn extract_file<R: Files + Input + Print + AllocGlobal>(
    rt: &R,
    file: &str,
    to: &str,
    explain: bool,
) -> Outcome
where
    R::File: Owned,
{
    let alloc = rt.alloc();
    let (bytes, noting) = match gathered(rt, file) {
        Ok(gathered) => gathered,
        Err(outcome) => return outcome,
    };
    let payload = match read(&bytes) {
        Ok(found) => found.payload(),
        Err(fault) => return refused_bytes(rt, file, fault, &bytes, explain),
    };
    let count = u32::try_from(payload.len()).unwrap_or(u32::MAX);
    match wrote_line(alloc, count) {
        Ok(line) => replace(rt, to, payload, line.as_bytes()),
        Err(_) => refused(rt, file, SuffixFault::NoMemory, &noting),
    }
}

/// Replaces a file by one with other identifiers, and prints the line of `dfu check` for the new file. After a fault, the outcome contains
/// the reason; for a wrong CRC or length, the numbers in the reason are right only if `explain` is set.
pub fn set_file<R: Files + Input + Print + AllocGlobal>(
    rt: &R,
    file: &str,
    change: &Change,
    explain: bool,
) -> Outcome
where
    R::File: Owned,
{
    let alloc = rt.alloc();
    let (bytes, noting) = match gathered(rt, file) {
        Ok(gathered) => gathered,
        Err(outcome) => return outcome,
    };
    let text = match with_ids(alloc, &bytes, change) {
        Ok(text) => text,
        Err(fault) => return refused_bytes(rt, file, fault, &bytes, explain),
    };
    let mut line = Vec::new(alloc);
    match check_text(alloc, text.as_slice(), &mut line) {
        Exit::Done => replace(rt, file, &text, &line),
        _ => refused(rt, file, SuffixFault::NoMemory, &noting),
    }
}
