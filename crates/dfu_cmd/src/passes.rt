//! Captures in files. Each file is read three times, so that only a small part of it is in memory at a time.

use crate::captures::{capture_line, capture_why};
use crate::judging::{JudgedFile, judge_log, output, unread};
use dfu_conformance::captures::{CaptureFault, CaptureStream, Devices, checked, devices_in};
use dfu_fs::file_reason;
use dfu_output::{Exit, Outcome, write_out};
use std::fs;
use std::io::Error;
use std::rt::Files;

/// Writes the line for a capture that is refused because of `fault`, and returns the outcome with the reason.
pub(crate) fn refuse_capture<R: Print + AllocGlobal>(
    rt: &R,
    judged: JudgedFile<'_>,
    fault: CaptureFault,
) -> Outcome {
    let line = capture_line(fault).as_bytes();
    Outcome {
        exit: write_out(&mut output(rt, judged), line, Exit::Refused),
        reason: match capture_why(fault) {
            Some(why) => file_reason(rt.alloc(), judged.name, why),
            None => None,
        },
    }
}

/// Returns true if file `name` can be read again from its beginning, which a regular file allows and standard input doesn't.
pub(crate) fn can_be_reread<R: Files>(rt: &R, name: &str) -> bool {
    if name == "-" {
        return false;
    }
    match fs::metadata(rt, name) {
        Ok(file) => file.is_file(),
        Err(_) => false,
    }
}

/// Returns the devices in `found`, the result of a pass over a capture. After a fault or an error, writes the line for it and returns the
/// outcome.
fn devices_of_pass<R: Print + AllocGlobal>(
    rt: &R,
    judged: JudgedFile<'_>,
    found: Result<Result<Devices, CaptureFault>, Error>,
) -> Result<Devices, Outcome> {
    match found {
        Ok(Ok(devices)) => Ok(devices),
        Ok(Err(fault)) => Err(refuse_capture(rt, judged, fault)),
        Err(error) => Err(unread(rt, judged, &error)),
    }
}

/// Reads the capture in file `judged` twice, to find its devices and to check it. The check precedes all judging, because no line may be
/// judged if the capture has a fault.
fn looked_at<R: Files + Print + AllocGlobal>(
    rt: &R,
    judged: JudgedFile<'_>,
) -> Result<Devices, Outcome> {
    let alloc = rt.alloc();
    let found = match fs::open(rt, judged.name) {
        Ok(file) => devices_in(alloc, file, judged.how.interface),
        Err(error) => Err(error),
    };
    let devices = devices_of_pass(rt, judged, found)?;
    let found = match fs::open(rt, judged.name) {
        Ok(file) => checked(alloc, file, devices, judged.how.only),
        Err(error) => Err(error),
    };
    devices_of_pass(rt, judged, found)
}

/// Judges the capture in file `judged` in three passes over the file. The file may have any size.
pub(crate) fn judge_in_passes<R: Files + Print + AllocGlobal>(
    rt: &R,
    judged: JudgedFile<'_>,
) -> Outcome {
    let devices = match looked_at(rt, judged) {
        Ok(devices) => devices,
        Err(outcome) => return outcome,
    };
    match fs::open(rt, judged.name) {
        Ok(file) => {
            let only = judged.how.only;
            let log = CaptureStream::of_log(rt.alloc(), file, devices, only);
            judge_log(rt, judged, log)
        }
        Err(error) => unread(rt, judged, &error),
    }
}
