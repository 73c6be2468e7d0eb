//! `dfu check`: checks files.

use crate::JsonLines;
use crate::given::RecordingReader;
use crate::reasons::{error_reason, reader_reason};
use dfu_output::{Exit, Outcome, check_with_fault, fault_text, name_before, write_out};
use dfu_suffix::{Findings, SuffixFault};
use std::fs;
use std::io::{self, Read};
use std::rt::Files;

/// Checks the bytes of `reader`, which reads `file`. If `explain` is set, the outcome contains the reason of a refusal. If `json` is set,
/// the line is a JSON object.
fn check_given<R: Print + AllocGlobal, S: Read + Drop>(
    rt: &R,
    file: &str,
    reader: S,
    explain: bool,
    json: bool,
) -> Outcome {
    let alloc = rt.alloc();
    let mut out = JsonLines::new(alloc, json, Some(file), io::writer(rt));
    let mut noting = RecordingReader::new(reader);
    let mut findings = Findings::new();
    let (exit, fault) = check_with_fault(alloc, &mut noting, &mut out, &mut findings);
    let reason = match fault {
        Some(fault) if explain => reader_reason(alloc, file, fault, &noting, &findings),
        _ => None,
    };
    Outcome { exit, reason }
}

/// Checks a file, or standard input if the name is `-`. File and standard input have separate reader types, because a common type would
/// contain the 8,192-byte buffer of standard input. This buffer would be cleared and moved in vain for a file.
fn check_file<R: Files + Input + Print + AllocGlobal>(
    rt: &R,
    file: &str,
    explain: bool,
    json: bool,
) -> Outcome {
    if file == "-" {
        return check_given(rt, file, rt.reader(), explain, json);
    }
    match fs::open(rt, file) {
        Ok(reader) => check_given(rt, file, reader, explain, json),
        Err(error) => {
            let alloc = rt.alloc();
            let mut out = JsonLines::new(alloc, json, Some(file), io::writer(rt));
            Outcome {
                exit: fault_text(SuffixFault::Read, &mut out),
                reason: error_reason(alloc, file, &error),
            }
        }
    }
}

/// Checks `file`, one of several, and prints its name before the line.
fn check_named<R: Files + Input + Print + AllocGlobal>(
    rt: &R,
    file: &str,
    explain: bool,
) -> Outcome {
    let exit = match name_before(rt.alloc(), file) {
        Ok(text) => write_out(&mut io::writer(rt), text.as_bytes(), Exit::Done),
        Err(_) => fault_text(SuffixFault::NoMemory, &mut io::writer(rt)),
    };
    match exit {
        Exit::Done => check_file(rt, file, explain, false),
        _ => Outcome { exit, reason: None },
    }
}

/// Checks files, or standard input for the name `-`. If `explain` is set, the outcome contains the reason of each refusal. If `json` is
/// set, each line is a JSON object with the name of the file as its member `file`. Otherwise, if there are several files, each line begins
/// with the name of its file. The exit is the worst of all files.
pub fn check_files<R: Files + Input + Print + AllocGlobal>(
    rt: &R,
    files: &[String],
    explain: bool,
    json: bool,
) -> Outcome {
    if let [file] = files {
        return check_file(rt, file, explain, json);
    }
    let mut all = Outcome {
        exit: Exit::Done,
        reason: None,
    };
    for file in files {
        let answer = if json {
            check_file(rt, file, explain, true)
        } else {
            check_named(rt, file, explain)
        };
        all = all.and(rt.alloc(), answer);
    }
    all
}
