//! `dfu judge`: judges logs and captures, from files or standard input.

use crate::captures::{MAX_CAPTURE, PeekedReader};
use crate::dfusing::judge_dfuse;
use crate::eventful::NoEventsFilter;
use crate::line_ends::LineEnds;
use crate::passes::{can_be_reread, judge_in_passes, refuse_capture};
use crate::prefixing::Prefixed;
use crate::watching::ErrorKeeper;
use dfu_conformance::LineFault;
use dfu_conformance::captures::{Address, is_capture, log_of};
use dfu_fs::{JsonLines, error_reason, file_reason, gather_fault, open};
use dfu_output::{Exit, LogFault, Outcome, fault_text, judge_with_fault, name_before, write_out};
use dfu_suffix::{SuffixFault, gather};
use std::alloc::Global;
use std::io::{self, Printer, Read};
use std::rt::Files;

/// Returns an explanation of `why`, the fault of a line.
fn fault_why(why: LineFault) -> &'static str {
    match why {
        LineFault::Long => "it has over 262,158 bytes",
        LineFault::Setup => {
            "its first field isn't the sixteen hexadecimal digits of a setup, and it isn't reset or power"
        }
        LineFault::Body => "its second field isn't the bytes of a body in hexadecimal digits, or -",
        LineFault::Answer => {
            "behind its second field isn't ack, stall, nothing or the bytes of an answer in hexadecimal digits"
        }
    }
}

/// Returns the line with the reason why judging log `name` stopped at `fault`, or None for Write or if memory runs out.
fn stop_reason<S>(
    alloc: Global,
    name: &str,
    fault: LogFault,
    watched: &ErrorKeeper<S>,
) -> Option<String> {
    match fault {
        LogFault::BadLine { number, why } => {
            let why = fault_why(why);
            match format!(in alloc; "line {number}: {why}") {
                Ok(why) => file_reason(alloc, name, &why),
                Err(_) => None,
            }
        }
        LogFault::Read => watched.reason(alloc, name),
        LogFault::TooLarge => file_reason(
            alloc,
            name,
            "it has over 1,099,511,627,775 bytes; cut it",
        ),
        LogFault::NoMemory => file_reason(alloc, name, "there is no memory for it"),
        LogFault::Write => None,
    }
}

/// Options of `dfu judge`.
#[derive(Clone, Copy)]
pub(crate) struct JudgeOptions {
    /// Number of the DFU interface.
    pub interface: u8,
    /// Address of the device to judge in a capture, or None if `--device` doesn't name one.
    pub only: Option<Address>,
    /// True if the device is judged by the rules of DfuSe.
    pub dfuse: bool,
    /// True if each line is printed as a JSON object.
    pub json: bool,
}

/// File to judge, with the options.
#[derive(Clone, Copy)]
pub(crate) struct JudgedFile<'w> {
    /// The name of the file.
    pub name: &'w str,
    /// Prefix of each printed line.
    pub before: &'w str,
    /// Options for judging the file.
    pub how: JudgeOptions,
}

impl<'w> JudgedFile<'w> {
    /// Returns the file `name` with the options and without a prefix.
    fn bare(name: &'w str, how: JudgeOptions) -> JudgedFile<'w> {
        JudgedFile {
            name,
            before: "",
            how,
        }
    }
}

/// Returns the output for the lines about `judged`.
pub(crate) fn output<'o, R: Print + AllocGlobal>(
    rt: &'o R,
    judged: JudgedFile<'o>,
) -> Prefixed<'o, JsonLines<'o, Printer<'o, R>>> {
    Prefixed::new(
        judged.before,
        JsonLines::new(
            rt.alloc(),
            judged.how.json,
            Some(judged.name),
            io::writer(rt),
        ),
    )
}

/// Judges the log that the reader `log` returns, and returns the outcome. A log without events is refused.
pub(crate) fn judge_log<R: Print + AllocGlobal, S: Read + Drop>(
    rt: &R,
    judged: JudgedFile<'_>,
    log: S,
) -> Outcome {
    let alloc = rt.alloc();
    let mut watched = ErrorKeeper::new(log);
    let mut out = NoEventsFilter::new(output(rt, judged));
    let (exit, fault) = if judged.how.dfuse {
        judge_dfuse(alloc, judged.how.interface, &mut watched, &mut out)
    } else {
        judge_with_fault(alloc, judged.how.interface, &mut watched, &mut out)
    };
    if out.is_verdict_held() {
        let why =
            "no request of DFU at the interface is in it; record a session, or see --interface";
        return Outcome {
            exit: write_out(out.behind(), b"refused NoEvents\n", Exit::Refused),
            reason: file_reason(alloc, judged.name, why),
        };
    }
    let reason = match fault {
        Some(fault) => stop_reason(alloc, judged.name, fault, &watched),
        None => None,
    };
    Outcome { exit, reason }
}

/// Judges the log of one device in the bytes of a capture, and returns the outcome. Refuses a capture from which no log can be read.
fn judge_bytes<R: Print + AllocGlobal>(rt: &R, judged: JudgedFile<'_>, capture: &[u8]) -> Outcome {
    let alloc = rt.alloc();
    match log_of(alloc, capture, judged.how.interface, judged.how.only) {
        Ok(log) => judge_log(rt, judged, log.as_slice()),
        Err(fault) => refuse_capture(rt, judged, fault),
    }
}

/// Judges the capture that the reader `capture` returns, and returns the outcome.
fn judge_capture<R: Print + AllocGlobal, S: Read + Drop>(
    rt: &R,
    judged: JudgedFile<'_>,
    capture: S,
) -> Outcome {
    let alloc = rt.alloc();
    let mut watched = ErrorKeeper::new(capture);
    match gather(alloc, &mut watched, MAX_CAPTURE) {
        Ok(bytes) => judge_bytes(rt, judged, &bytes),
        Err(fault) => Outcome {
            exit: fault_text(gather_fault(fault), &mut output(rt, judged)),
            reason: watched.reason(alloc, judged.name),
        },
    }
}

/// Writes the line for a file or standard input that can't be read, and returns the outcome with `error` as its reason.
pub(crate) fn unread<R: Print + AllocGlobal>(
    rt: &R,
    judged: JudgedFile<'_>,
    error: &io::Error,
) -> Outcome {
    Outcome {
        exit: fault_text(SuffixFault::Read, &mut output(rt, judged)),
        reason: error_reason(rt.alloc(), judged.name, error),
    }
}

/// Judges the log or capture in a file, or on standard input if the name is `-`. If judging stops early, the outcome contains the reason.
fn judge_file<R: Files + Input + Print + AllocGlobal>(rt: &R, judged: JudgedFile<'_>) -> Outcome {
    let given = match open(rt, judged.name) {
        Ok(given) => given,
        Err(error) => return unread(rt, judged, &error),
    };
    match PeekedReader::new(given) {
        Ok(given) => {
            if is_capture(given.head()) {
                if can_be_reread(rt, judged.name) {
                    return judge_in_passes(rt, judged);
                }
                judge_capture(rt, judged, given)
            } else {
                judge_log(rt, judged, LineEnds::new(given))
            }
        }
        Err(error) => unread(rt, judged, &error),
    }
}

/// Judges file `name`, one of several, and prints its name before each line. Returns the outcome.
fn judge_named<R: Files + Input + Print + AllocGlobal>(
    rt: &R,
    name: &str,
    how: JudgeOptions,
) -> Outcome {
    match name_before(rt.alloc(), name) {
        Ok(before) => judge_file(
            rt,
            JudgedFile {
                before: &before,
                ..JudgedFile::bare(name, how)
            },
        ),
        Err(_) => Outcome {
            exit: fault_text(SuffixFault::NoMemory, &mut io::writer(rt)),
            reason: None,
        },
    }
}

/// Judges the logs and captures in files, or on standard input for the name `-`. The outcome has the worst exit, and the reasons why
/// judging stopped early. If there are several files, each line begins with the name of its file. With `json`, each line is a JSON object
/// instead, with the name as its member `file`.
pub(crate) fn judge_files<R: Files + Input + Print + AllocGlobal>(
    rt: &R,
    names: &[String],
    how: JudgeOptions,
) -> Outcome {
    if let [name] = names {
        return judge_file(rt, JudgedFile::bare(name, how));
    }
    let mut all = Outcome {
        exit: Exit::Done,
        reason: None,
    };
    for name in names {
        let answer = if how.json {
            judge_file(rt, JudgedFile::bare(name, how))
        } else {
            judge_named(rt, name, how)
        };
        all = all.and(rt.alloc(), answer);
    }
    all
}
