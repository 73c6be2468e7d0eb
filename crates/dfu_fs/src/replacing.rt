//! Replacement of a file in a single step, so that a power cut leaves the old file or the new one.

ghost use Rattle.std.specs.Prelude.{◌≤◌, length, IfOk};

use crate::reasons::error_reason;
use crate::temp_file::{Owned, TempFile, begin, put, remove};
use dfu_output::{Exit, Outcome, fault_text, write_out};
use dfu_suffix::{SuffixFault, write_whole};
use std::io::{self, ErrorKind, Write};
use std::rt::Files;

/// New file that replaces OUT in a single step, or the file at the end of the links if OUT is a symbolic link. The bytes of the new file
/// are written into the part, a second file in the same folder, which gets the name of the old file at the end. A power cut therefore
/// leaves the old file or the new one. The part is created at the first write, so OUT isn't looked up if nothing is written.
#[derive(Drop)]
pub(crate) struct Replacement<'a, R: Files> {
    rt: &'a R,
    // FILE of `dfu add`, for the check if OUT may be replaced, or None for other commands.
    file: Option<&'a str>,
    out: &'a str,
    part: Option<TempFile<R::File>>,
    /// Last error in creating or writing the part, or None.
    pub error: Option<io::Error>,
}

impl<'a, R: Files> Replacement<'a, R> {
    /// Returns a new file for `out`, whose part doesn't exist yet. For `dfu add`, `file` is FILE.
    pub(crate) fn new(rt: &'a R, file: Option<&'a str>, out: &'a str) -> Self {
        Replacement {
            rt,
            file,
            out,
            part: None,
            error: None,
        }
    }

    /// Replaces OUT by the part. If that fails, the old file stays unchanged, and the part is removed.
    pub(crate) fn finish(self) -> io::Result<()> {
        let Some(part) = &self.part else {
            return Err(io::Error::from(ErrorKind::NotFound));
        };
        let placed = put(self.rt, part);
        if placed.is_err() {
            remove(self.rt, part);
        }
        placed
    }

    /// Removes the part if it exists, and leaves OUT unchanged.
    pub(crate) fn abandon(self) {
        if let Some(part) = &self.part {
            remove(self.rt, part);
        }
    }
}

impl<R: Files + AllocGlobal> Replacement<'_, R>
where
    R::File: Owned,
{
    /// Creates the part unless it exists.
    fn make(&mut self) -> io::Result<()> {
        if self.part.is_none() {
            self.part = Some(begin(self.rt, self.file, self.out)?);
        }
        Ok(())
    }

    /// Creates the part even if there is no byte to write, and returns true. If that fails, records the error and returns false.
    fn try_make(&mut self) -> bool {
        match self.make() {
            Ok(()) => true,
            Err(error) => {
                self.error = Some(error);
                false
            }
        }
    }

    /// Creates the part unless it exists, and writes `buf` to it. Returns the number of bytes written.
    fn put(&mut self, buf: &[u8]) -> io::Result<usize>
        ensures { IfOk result (λ n. n ≤ length buf.now) }
    {
        self.make()?;
        match &mut self.part {
            Some(part) => part.file.write(buf),
            None => Ok(0),
        }
    }
}

impl<R: Files + AllocGlobal> Write for Replacement<'_, R>
where
    R::File: Owned,
{
    fn write(&mut self, buf: &[u8]) -> io::Result<usize> {
        match self.put(buf) {
            Ok(count) => Ok(count),
            Err(error) => {
                let kind = error.kind();
                self.error = Some(error);
                Err(io::Error::from(kind))
            }
        }
    }

    fn flush(&mut self) -> io::Result<()> {
        Ok(())
    }
}

/// Replaces OUT by the part, and writes `line`. If that fails, writes the line `fault Write`, and the outcome contains the reason.
pub(crate) fn finish<R: Files + Print + AllocGlobal>(
    rt: &R,
    to: &str,
    made: Replacement<'_, R>,
    line: &[u8],
) -> Outcome {
    let mut out = io::writer(rt);
    match made.finish() {
        Ok(()) => Outcome {
            exit: write_out(&mut out, line, Exit::Done),
            reason: None,
        },
        Err(error) => Outcome {
            exit: fault_text(SuffixFault::Write, &mut out),
            reason: error_reason(rt.alloc(), to, &error),
        },
    }
}

/// Replaces OUT by a file with `text`, and writes `line`. If that fails, writes the line `fault Write`, and the outcome contains the
/// reason.
pub(crate) fn replace<'a, R: Files + Print + AllocGlobal>(
    rt: &'a R,
    to: &'a str,
    text: &[u8],
    line: &[u8],
) -> Outcome
where
    R::File: Owned,
{
    let mut made = Replacement::new(rt, None, to);
    if made.try_make() && write_whole(&mut made, text).is_ok() {
        return finish(rt, to, made, line);
    }
    let reason = match &made.error {
        Some(error) => error_reason(rt.alloc(), to, error),
        None => None,
    };
    made.abandon();
    Outcome {
        exit: fault_text(SuffixFault::Write, &mut io::writer(rt)),
        reason,
    }
}
