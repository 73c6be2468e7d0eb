//! A buffer for the bytes of a capture that were read but not processed yet.

use crate::captures::numbers::from;
use std::alloc::Global;
use std::io::{self, ErrorKind, Read};

/// Largest number of bytes that one read returns.
const CAPTURE_READ_BYTES: usize = 65_536;

/// A reader, and a buffer of its bytes that were not processed yet.
#[derive(Drop)]
pub(crate) struct Window<R> {
    // The reader of the capture.
    reader: R,
    // Bytes that were read and are still in the buffer.
    bytes: Vec<u8>,
    // Number of bytes at the front of the buffer that were taken.
    taken: usize,
}

impl<R> Window<R> {
    /// Returns an empty window over `reader`.
    pub(crate) fn new(alloc: Global, reader: R) -> Window<R> {
        Window {
            reader,
            bytes: Vec::new(alloc),
            taken: 0,
        }
    }

    /// Returns the bytes that were read but not taken.
    pub(crate) fn rest(&self) -> &[u8] {
        from(&self.bytes, self.taken)
    }

    /// Marks the next `count` bytes as taken.
    pub(crate) fn take(&mut self, count: usize) {
        self.taken = self.taken.saturating_add(count);
    }

    /// Removes the bytes that were taken.
    fn forget_taken(&mut self) {
        if self.taken >= self.bytes.len() {
            self.bytes.clear();
        } else {
            let count = self.bytes.len() - self.taken;
            self.bytes.copy_within(self.taken.., 0);
            self.bytes.truncate(count);
        }
        self.taken = 0;
    }
}

impl<R: Read> Window<R> {
    /// Reads more bytes into the window. Returns false at the end of the capture.
    pub(crate) fn read_on(&mut self) -> io::Result<bool> {
        self.forget_taken();
        let mut piece = [0u8; CAPTURE_READ_BYTES];
        let count = self.reader.read(&mut piece)?;
        match self.bytes.extend_from_slice(&piece[..count]) {
            Ok(()) => Ok(count > 0),
            Err(_) => Err(io::Error::from(ErrorKind::OutOfMemory)),
        }
    }
}
