//! The text of a log.

use crate::captures::exchange::{Body, Exchange, Seen};
use crate::captures::fault::CaptureFault;
use std::alloc::Global;

/// Returns the lower-case hexadecimal digit of `value`, which must be below 16.
fn digit(value: u8) -> u8 {
    if value < 10 {
        b'0' + value
    } else {
        b'a' + value % 16 - 10
    }
}

/// The text of a log, with one line for each packet so far.
#[derive(Drop)]
pub(crate) struct Log {
    // The text so far.
    text: Vec<u8>,
    // Number of the packet for which `push` added the last line.
    lines: usize,
    // True if an allocation for the text failed.
    is_torn: bool,
}

impl Log {
    /// Returns a log without lines.
    pub(crate) fn new(alloc: Global) -> Log {
        Log {
            text: Vec::new(alloc),
            lines: 0,
            is_torn: false,
        }
    }

    /// Appends `bytes` to the text.
    fn put(&mut self, bytes: &[u8]) {
        if self.text.extend_from_slice(bytes).is_err() {
            self.is_torn = true;
        }
    }

    /// Appends `bytes` to the text as hexadecimal digits.
    fn put_hex(&mut self, bytes: &[u8]) {
        for byte in bytes {
            self.put(&[digit(*byte / 16), digit(*byte % 16)]);
        }
    }

    /// Appends the field of `body`, the bytes that the host sent. It is `00` for each byte if only their number is known, and `-` for no
    /// bytes.
    fn put_body(&mut self, body: Body<'_>) {
        match body {
            Body::Bytes([]) | Body::Count(0) => self.put(b"-"),
            Body::Bytes(bytes) => self.put_hex(bytes),
            Body::Count(count) => {
                for _byte in 0..count {
                    self.put(b"00");
                }
            }
        }
    }

    /// Appends the field of the answer `seen`.
    fn put_answer(&mut self, seen: Seen<'_>) {
        match seen {
            Seen::Stall => self.put(b"stall"),
            Seen::Nothing => self.put(b"nothing"),
            Seen::Bytes([]) => self.put(b"ack"),
            Seen::Bytes(bytes) => self.put_hex(bytes),
        }
    }

    /// Appends the line of `exchange`, a request and its answer.
    fn put_exchange(&mut self, exchange: &Exchange<'_>) {
        self.put_hex(&exchange.setup);
        self.put(b" ");
        self.put_body(exchange.body);
        self.put(b" ");
        self.put_answer(exchange.seen);
        self.put(b"\n");
    }

    /// Appends the line of a packet that completes `exchange`.
    pub(crate) fn push_line(&mut self, exchange: &Exchange<'_>) {
        if exchange.given.is_some() {
            self.put(b"reset\n");
        } else {
            self.put_exchange(exchange);
        }
    }

    /// Appends an empty line, for a packet that completes no request to the followed device.
    pub(crate) fn push_empty(&mut self) {
        self.put(b"\n");
    }

    /// Appends empty lines for the packets before `exchange`, and then its line.
    pub(crate) fn push(&mut self, exchange: &Exchange<'_>) {
        for _line in self.lines.saturating_add(1)..exchange.packet {
            self.push_empty();
        }
        self.lines = exchange.packet;
        self.push_line(exchange);
    }

    /// Returns the text so far.
    pub(crate) fn bytes(&self) -> &[u8] {
        &self.text
    }

    /// Removes the text.
    pub(crate) fn clear(&mut self) {
        self.text.clear();
    }

    /// Checks that the text is complete.
    ///
    /// # Errors
    ///
    /// NoMemory if an allocation for the text failed.
    pub(crate) fn is_whole(&self) -> Result<(), CaptureFault> {
        if self.is_torn {
            Err(CaptureFault::NoMemory)
        } else {
            Ok(())
        }
    }

    /// Returns the whole text.
    ///
    /// # Errors
    ///
    /// NoMemory if an allocation for the text failed; otherwise NoDevice if the text is empty.
    pub(crate) fn whole(self) -> Result<Vec<u8>, CaptureFault> {
        let Log { text, is_torn, .. } = self;
        if is_torn {
            return Err(CaptureFault::NoMemory);
        }
        if text.is_empty() {
            return Err(CaptureFault::NoDevice);
        }
        Ok(text)
    }
}
