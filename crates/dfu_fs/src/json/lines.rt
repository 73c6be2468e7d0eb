//! Output that writes each line as a JSON object.

ghost use Rattle.std.specs.Prelude.{◌≤◌, length, IfOk};

use crate::json::objects::object;
use std::alloc::Global;
use std::io::{self, ErrorKind, Write};

/// Output that writes each line as a JSON object, or unchanged. It writes an object when its line ends.
#[derive(Drop)]
pub struct JsonLines<'t, W> {
    alloc: Global,
    is_on: bool,
    file: Option<&'t str>,
    line: Vec<u8>,
    out: W,
}

impl<'t, W> JsonLines<'t, W> {
    /// Returns a new output that writes to `out`, with the name of `file`, if given, in each object. If `is_on` is set, it writes each line
    /// as an object, and otherwise unchanged.
    pub fn new(alloc: Global, is_on: bool, file: Option<&'t str>, out: W) -> JsonLines<'t, W> {
        JsonLines {
            alloc,
            is_on,
            file,
            line: Vec::new(alloc),
            out,
        }
    }

    /// Stores more bytes of the open line.
    fn keep(&mut self, bytes: &[u8]) -> io::Result<()> {
        match self.line.extend_from_slice(bytes) {
            Ok(()) => Ok(()),
            Err(_) => Err(io::Error::from(ErrorKind::OutOfMemory)),
        }
    }
}

impl<W: Write> JsonLines<'_, W> {
    /// Writes the object of the line that ended, and a line feed.
    fn end_line(&mut self) -> io::Result<()> {
        let Ok(mut text) = object(self.alloc, self.file, &self.line) else {
            return Err(io::Error::from(ErrorKind::OutOfMemory));
        };
        if text.extend_from_slice(b"\n").is_err() {
            return Err(io::Error::from(ErrorKind::OutOfMemory));
        }
        self.line.clear();
        self.out.write_all(&text)
    }
}

impl<W: Write> Write for JsonLines<'_, W> {
    /// Takes bytes up to the end of a line. If lines stay unchanged, passes the bytes on to the output.
    ///
    /// # Errors
    ///
    /// `OutOfMemory` if there is no memory for the line or its object, or the error of the output.
    fn write(&mut self, buf: &[u8]) -> io::Result<usize> {
        if !self.is_on {
            return self.out.write(buf);
        }
        let Some(end) = buf.iter().position(|byte| *byte == b'\n') else {
            self.keep(buf)?;
            return Ok(buf.len());
        };
        self.keep(&buf[..end])?;
        self.end_line()?;
        Ok(end + 1)
    }

    fn flush(&mut self) -> io::Result<()> {
        self.out.flush()
    }
}
