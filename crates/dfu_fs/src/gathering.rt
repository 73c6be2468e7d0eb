//! Reading of whole files, and outcomes for files that can't be read or are refused.

use crate::given::{Given, RecordingReader, open};
use crate::reasons::{error_reason, found_reason, reader_reason};
use dfu_output::{Outcome, fault_text};
use dfu_suffix::{Findings, GatherFault, SuffixFault, check_with, gather};
use std::io;
use std::rt::Files;

/// Largest size of a file in bytes.
pub(crate) const MAX_FILE: usize = 16_777_216;

/// Bytes of a file, or of standard input if the name is `-`, and the reader, which has recorded its first bytes and its last error for the
/// reason of a refusal.
pub(crate) type Gathered<F, I> = (Vec<u8>, RecordingReader<Given<F, I>>);

/// Reads a whole file, or standard input if the name is `-`. Returns the outcome of the command if reading fails.
pub(crate) fn gathered<R: Files + Input + Print + AllocGlobal>(
    rt: &R,
    file: &str,
) -> Result<Gathered<R::File, R::Reader>, Outcome> {
    let reader = match open(rt, file) {
        Ok(reader) => reader,
        Err(error) => return Err(unread(rt, file, &error)),
    };
    let mut noting = RecordingReader::new(reader);
    match gather(rt.alloc(), &mut noting, MAX_FILE) {
        Ok(bytes) => Ok((bytes, noting)),
        Err(fault) => Err(refused(rt, file, gather_fault(fault), &noting)),
    }
}

/// Writes the line for `file`, which can't be opened for reading, and returns the outcome.
pub(crate) fn unread<R: Print + AllocGlobal>(rt: &R, file: &str, error: &io::Error) -> Outcome {
    Outcome {
        exit: fault_text(SuffixFault::Read, &mut io::writer(rt)),
        reason: error_reason(rt.alloc(), file, error),
    }
}

/// Writes the line for `fault`, and returns the outcome. `file` couldn't be read completely, or there was no memory for the result.
pub(crate) fn refused<R: Print + AllocGlobal, S>(
    rt: &R,
    file: &str,
    fault: SuffixFault,
    noting: &RecordingReader<S>,
) -> Outcome {
    Outcome {
        exit: fault_text(fault, &mut io::writer(rt)),
        reason: reader_reason(rt.alloc(), file, fault, noting, &Findings::new()),
    }
}

/// Writes the line for `file`, whose `bytes` are refused because of `fault`, and returns the outcome. If `explain` is set, the bytes are
/// checked again, because the reason for a wrong CRC or length contains numbers from the check.
pub(crate) fn refused_bytes<R: Print + AllocGlobal>(
    rt: &R,
    file: &str,
    fault: SuffixFault,
    bytes: &[u8],
    explain: bool,
) -> Outcome {
    let mut findings = Findings::new();
    if explain {
        let _ = check_with(bytes, &mut findings);
    }
    Outcome {
        exit: fault_text(fault, &mut io::writer(rt)),
        reason: found_reason(rt.alloc(), file, fault, &findings),
    }
}

/// Returns the `SuffixFault` for `fault`, at which reading a whole file stopped.
pub fn gather_fault(fault: GatherFault) -> SuffixFault {
    match fault {
        GatherFault::TooLarge => SuffixFault::TooLarge,
        GatherFault::NoMemory => SuffixFault::NoMemory,
        GatherFault::Read => SuffixFault::Read,
    }
}
