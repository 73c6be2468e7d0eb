//! Input of a command: a file, standard input, or bytes in memory. A recording reader keeps the bytes and the error that the reason of a
//! refusal contains.

use std::fs;
use std::io::{self, IsTerminal, Read};
use std::rt::Files;

/// Reader of bytes in memory.
#[derive(Drop)]
pub struct Held {
    bytes: Vec<u8>,
    from: usize,
}

impl Held {
    /// Returns a reader of all of `bytes`.
    pub(crate) fn new(bytes: Vec<u8>) -> Held {
        Held { bytes, from: 0 }
    }
}

impl Read for Held {
    fn read(&mut self, buf: &mut [u8]) -> io::Result<usize> {
        let rest = self.bytes.get(self.from..).unwrap_or(&[]);
        let count = rest.len().min(buf.len());
        buf[..count].copy_from_slice(&rest[..count]);
        self.from = self.from.saturating_add(count);
        Ok(count)
    }
}

/// An open file, standard input, or bytes in memory. A single type for all three lets the reading code be compiled once.
#[derive(Drop)]
pub enum Given<F, I> {
    /// An open file.
    File(F),
    /// Standard input.
    Input(I),
    /// Bytes in memory.
    Bytes(Held),
}

impl<F: Read, I: Read> Read for Given<F, I> {
    fn read(&mut self, buf: &mut [u8]) -> io::Result<usize> {
        match self {
            Given::File(file) => file.read(buf),
            Given::Input(input) => input.read(buf),
            Given::Bytes(held) => held.read(buf),
        }
    }
}

impl<F: IsTerminal, I: IsTerminal> IsTerminal for Given<F, I> {
    fn is_terminal(&self) -> bool {
        match self {
            Given::File(file) => file.is_terminal(),
            Given::Input(input) => input.is_terminal(),
            Given::Bytes(_) => false,
        }
    }
}

/// Reader that records its first 64 bytes, and the error of the last failed read.
#[derive(Drop)]
pub(crate) struct RecordingReader<R> {
    reader: R,
    head: [u8; 64],
    held: usize,
    pub error: Option<io::Error>,
}

impl<R> RecordingReader<R> {
    /// Returns a new recording reader of the bytes of `reader`.
    pub(crate) fn new(reader: R) -> RecordingReader<R> {
        RecordingReader {
            reader,
            head: [0; 64],
            held: 0,
            error: None,
        }
    }

    /// Returns the first 64 bytes that were read, or fewer if there were fewer.
    pub(crate) fn head(&self) -> &[u8] {
        self.head.get(..self.held).unwrap_or(&[])
    }

    /// Records the first of `bytes`, as many as there is room for.
    fn keep(&mut self, bytes: &[u8]) {
        for byte in bytes {
            match self.head.get_mut(self.held) {
                Some(slot) => *slot = *byte,
                None => return,
            }
            self.held = self.held.saturating_add(1);
        }
    }
}

impl<R: Read> Read for RecordingReader<R> {
    fn read(&mut self, buf: &mut [u8]) -> io::Result<usize> {
        match self.reader.read(buf) {
            Ok(count) => {
                self.keep(&buf[..count]);
                Ok(count)
            }
            Err(error) => {
                let kind = error.kind();
                self.error = Some(error);
                Err(io::Error::from(kind))
            }
        }
    }
}

/// Opens a file, or standard input if the name is `-`.
pub fn open<R: Files + Input>(rt: &R, name: &str) -> io::Result<Given<R::File, R::Reader>> {
    if name == "-" {
        return Ok(Given::Input(rt.reader()));
    }
    Ok(Given::File(fs::open(rt, name)?))
}
