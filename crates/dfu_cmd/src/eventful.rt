//! Output of `dfu judge` that holds back the verdict on a log without events.

ghost use Rattle.std.specs.Prelude.{◌≤◌, length, IfOk};

use std::io::{self, Write};

/// First bytes of the verdict on a log without events.
const NONE: &[u8] = b"kept events 0 ";

/// Output that holds back the verdict on a log without events if this is its first line. It passes on all other text.
#[derive(Drop)]
pub(crate) struct NoEventsFilter<W> {
    out: W,
    // Number of bytes of `NONE` that were held back.
    held: usize,
    is_passing: bool,
}

impl<W> NoEventsFilter<W> {
    /// Returns a new filter that passes its text on to `out`.
    pub(crate) fn new(out: W) -> NoEventsFilter<W> {
        NoEventsFilter {
            out,
            held: 0,
            is_passing: false,
        }
    }

    /// Returns true if the verdict on a log without events was held back.
    pub(crate) fn is_verdict_held(&self) -> bool {
        !self.is_passing && self.held == NONE.len()
    }

    /// Returns the output that receives the text.
    pub(crate) fn behind(&mut self) -> &mut W {
        &mut self.out
    }
}

impl<W: Write> NoEventsFilter<W> {
    /// Holds back `byte` if it continues `NONE`, or if all of `NONE` has been held back. Otherwise writes the held bytes and `byte`, and
    /// passes on all later bytes.
    fn hold(&mut self, byte: u8) -> io::Result<()> {
        if self.is_verdict_held() {
            return Ok(());
        }
        if NONE.get(self.held).copied() == Some(byte) {
            self.held = self.held.saturating_add(1);
            return Ok(());
        }
        self.is_passing = true;
        let front = NONE.get(..self.held).unwrap_or(&[]);
        self.out.write_all(front)?;
        self.out.write_all(&[byte])
    }
}

impl<W: Write> Write for NoEventsFilter<W> {
    fn write(&mut self, buf: &[u8]) -> io::Result<usize> {
        let Some(first) = buf.first() else {
            return Ok(0);
        };
        if self.is_passing {
            return self.out.write(buf);
        }
        self.hold(*first)?;
        Ok(1)
    }

    fn flush(&mut self) -> io::Result<()> {
        self.out.flush()
    }
}
