//! Conversion of Windows line ends, CR LF, to LF.

ghost use Rattle.std.specs.Prelude.{◌≤◌, length, IfOk};

use std::io::{self, Read};

/// Number of bytes per read.
const BUFFER_BYTES: usize = 4096;

/// Reader that replaces each CR LF by LF. Any other carriage return stays unchanged.
#[derive(Drop)]
pub(crate) struct LineEnds<R> {
    reader: R,
    piece: [u8; BUFFER_BYTES],
    from: usize,
    to: usize,
    // True if the reader has consumed a carriage return, but hasn't read the next byte yet.
    is_return_pending: bool,
    is_ended: bool,
}

/// Copies the bytes before the first carriage return to `to`, as many as fit. Returns the number of bytes copied.
fn copied(bytes: &[u8], to: &mut [u8]) -> usize {
    let most = bytes.len().min(to.len());
    for at in 0..most {
        if bytes[at] == b'\r' {
            to[..at].copy_from_slice(&bytes[..at]);
            return at;
        }
    }
    to[..most].copy_from_slice(&bytes[..most]);
    most
}

impl<R> LineEnds<R> {
    /// Returns a new reader of the bytes of `reader`.
    pub(crate) fn new(reader: R) -> LineEnds<R> {
        LineEnds {
            reader,
            piece: [0; BUFFER_BYTES],
            from: 0,
            to: 0,
            is_return_pending: false,
            is_ended: false,
        }
    }

    /// Returns the next byte of the buffer without consuming it, or None if the buffer is empty.
    fn ahead(&self) -> Option<u8> {
        if self.from < self.to {
            self.piece.get(self.from).copied()
        } else {
            None
        }
    }

    /// Consumes and returns the next byte of the converted text. Returns None if more bytes must be read first, or if none remain.
    fn next(&mut self) -> Option<u8> {
        if self.is_return_pending {
            return self.byte_for_return();
        }
        let byte = self.ahead()?;
        self.from = self.from.saturating_add(1);
        if byte == b'\r' {
            self.is_return_pending = true;
            return self.byte_for_return();
        }
        Some(byte)
    }

    /// Copies the buffered bytes before the next carriage return to `buf`, as many as fit. If there are none, stores the byte that replaces
    /// the carriage return. Returns the number of bytes stored.
    fn give(&mut self, buf: &mut [u8]) -> usize {
        let count = if self.is_return_pending {
            0
        } else {
            let ahead = self.piece.get(self.from..self.to).unwrap_or(&[]);
            copied(ahead, buf)
        };
        if count > 0 {
            self.from = self.from.saturating_add(count);
            return count;
        }
        let Some(slot) = buf.first_mut() else {
            return 0;
        };
        match self.next() {
            Some(byte) => {
                *slot = byte;
                1
            }
            None => 0,
        }
    }

    /// Returns the byte that replaces a carriage return: the line feed after it, or the carriage return itself. Returns None if the next
    /// byte must be read first.
    fn byte_for_return(&mut self) -> Option<u8> {
        let ahead = self.ahead();
        if ahead.is_none() && !self.is_ended {
            return None;
        }
        self.is_return_pending = false;
        if ahead != Some(b'\n') {
            return Some(b'\r');
        }
        self.from = self.from.saturating_add(1);
        ahead
    }
}

impl<R: Read> LineEnds<R> {
    /// Refills the buffer if it is empty and the reader hasn't ended.
    fn fill(&mut self) -> io::Result<()> {
        if self.from < self.to || self.is_ended {
            return Ok(());
        }
        self.from = 0;
        self.to = 0;
        let count = self.reader.read(&mut self.piece)?;
        self.to = count;
        self.is_ended = count == 0;
        Ok(())
    }
}

impl<R: Read> Read for LineEnds<R> {
    fn read(&mut self, buf: &mut [u8]) -> io::Result<usize> {
        let mut count = 0usize;
        // If a carriage return ends the buffer, another read is necessary to know the byte that replaces it.
        for _turn in 0..3 {
            if count > 0 {
                break;
            }
            self.fill()?;
            count = self.give(buf);
        }
        Ok(count.min(buf.len()))
    }
}
