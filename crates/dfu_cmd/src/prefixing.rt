//! Output that begins each line with a prefix, such as the name of a file.

ghost use Rattle.std.specs.Prelude.{◌≤◌, length, IfOk};

use std::io::{self, Write};

/// Output that begins each line with `text`.
#[derive(Drop)]
pub(crate) struct Prefixed<'t, W> {
    text: &'t str,
    is_begun: bool,
    out: W,
}

impl<'t, W> Prefixed<'t, W> {
    /// Returns an output that writes `text` to `out` before each line.
    pub(crate) fn new(text: &'t str, out: W) -> Prefixed<'t, W> {
        Prefixed {
            text,
            is_begun: false,
            out,
        }
    }
}

impl<W: Write> Prefixed<'_, W> {
    /// Writes the prefix at the beginning of a line.
    fn begin(&mut self) -> io::Result<()> {
        if self.is_begun || self.text.is_empty() {
            return Ok(());
        }
        self.is_begun = true;
        self.out.write_all(self.text.as_bytes())
    }
}

impl<W: Write> Write for Prefixed<'_, W> {
    fn write(&mut self, buf: &[u8]) -> io::Result<usize> {
        if buf.is_empty() {
            return Ok(0);
        }
        self.begin()?;
        let end = match buf.iter().position(|byte| *byte == b'\n') {
            Some(end) => end + 1,
            None => buf.len(),
        };
        let taken = self.out.write(&buf[..end])?;
        self.is_begun = taken < end || buf[end - 1] != b'\n';
        Ok(taken)
    }

    fn flush(&mut self) -> io::Result<()> {
        self.out.flush()
    }
}
