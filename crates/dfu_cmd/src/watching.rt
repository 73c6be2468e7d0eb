//! Reader that keeps the error of a failed read, and reading of whole files.

use dfu_fs::{error_reason, gather_fault, open};
use dfu_output::{Outcome, fault_text};
use dfu_suffix::{SuffixFault, gather};
use std::alloc::Global;
use std::io::{self, Read};
use std::rt::Files;

/// Largest size of a file in bytes.
const MAX_FILE: usize = 16_777_216;

/// Reader that keeps the error of a failed read.
#[derive(Drop)]
pub(crate) struct ErrorKeeper<R> {
    reader: R,
    error: Option<io::Error>,
}

impl<R> ErrorKeeper<R> {
    /// Returns a new reader of the bytes of `reader`.
    pub(crate) fn new(reader: R) -> ErrorKeeper<R> {
        ErrorKeeper {
            reader,
            error: None,
        }
    }

    /// Returns the reason why file `name` couldn't be read, or None if no read failed.
    pub(crate) fn reason(&self, alloc: Global, name: &str) -> Option<String> {
        match &self.error {
            Some(error) => error_reason(alloc, name, error),
            None => None,
        }
    }
}

impl<R: Read> Read for ErrorKeeper<R> {
    fn read(&mut self, buf: &mut [u8]) -> io::Result<usize> {
        match self.reader.read(buf) {
            Ok(count) => Ok(count),
            Err(error) => {
                let kind = error.kind();
                self.error = Some(error);
                Err(io::Error::from(kind))
            }
        }
    }
}

/// Reads the whole file `name`, or standard input if the name is `-`. If reading fails, writes the line for the fault and returns the
/// outcome.
pub(crate) fn read_file<R: Files + Input + Print + AllocGlobal>(
    rt: &R,
    name: &str,
) -> Result<Vec<u8>, Outcome> {
    let alloc = rt.alloc();
    let given = match open(rt, name) {
        Ok(given) => given,
        Err(error) => {
            return Err(Outcome {
                exit: fault_text(SuffixFault::Read, &mut io::writer(rt)),
                reason: error_reason(alloc, name, &error),
            });
        }
    };
    let mut watched = ErrorKeeper::new(given);
    match gather(alloc, &mut watched, MAX_FILE) {
        Ok(bytes) => Ok(bytes),
        Err(fault) => Err(Outcome {
            exit: fault_text(gather_fault(fault), &mut io::writer(rt)),
            reason: watched.reason(alloc, name),
        }),
    }
}
