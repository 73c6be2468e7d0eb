//! Lines of a log, read one byte at a time.

ghost use Rattle.std.specs.Prelude.{◌≡◌, ◌≢◌, false, ◌+◌, ◌<◌, ◌≤◌, ◌++◌, ◌∷◌, [], IfErr, IfOk, IfSome, List, OnErr, OnOk, length, take, vec_capacity, ℕ};
ghost use Rattle.std.specs.List.{list_any};
ghost use Rattle.dfu_output.specs.judge.Lines.{ByteRefused, ByteEndsLine, BytesInLine, ByteInLine, ByteAccepted, is_end};

use crate::judge::fault::LogFault;
use dfu_conformance::{Line, LineFault, read_line, why_unread};
use std::alloc::Global;
use std::marker::Model;

/// Largest number of bytes in a line, without its 0Ah. A longer line is refused, even if it is a comment.
const MAX_LINE: usize = 262_158;

/// Largest number of bytes in a log, including the 0Ah that is added to end its last line.
const MAX_LOG: u64 = 1_099_511_627_776;

/// Reader of a log's lines. It holds one line in a buffer that is allocated once.
///
/// In contracts it is a `LinesState`.
#[derive(Drop)]
pub struct LogLines {
    // Bytes of the open line.
    line: Vec<u8>,
    // Number of bytes that the log may still have.
    room: u64,
    // Number of lines that have ended.
    number: u64,
}

impl Model for LogLines {
    ghost use Rattle.std.specs.Prelude.{◌≤◌, ◌+◌, length, vec_capacity};
    ghost use Rattle.dfu_output.specs.judge.Lines.{LinesState};

    ghost Value = { LinesState };

    ghost view = { λ s. record {
      line = s.line.items;
      room = s.room;
      number = s.number;
    } };

    ghost invariant = { λ s. (s.number + s.room ≤ 1099511627776)
        × (length s.line.items ≤ 262158) × (262158 ≤ vec_capacity s.line) };
}

/// Appends a byte to a line that has room for it.
fn put(line: &mut Vec<u8>, byte: u8)
    requires room { length line.old.items < 262158 }
    requires capacity { 262158 ≤ vec_capacity line.old }
    ensures items { line.new.items ≡ line.old.items ++ byte ∷ [] }
    ensures capacity { vec_capacity line.old ≤ vec_capacity line.new }
{
    let Ok(()) = line.push(byte) else {
        unreachable!();
    };
}

/// Appends bytes to a line that has room for them.
fn put_all(line: &mut Vec<u8>, bytes: &[u8])
    requires room { length line.old.items + length bytes.now ≤ 262158 }
    requires capacity { 262158 ≤ vec_capacity line.old }
    ensures items { line.new.items ≡ line.old.items ++ bytes.now }
    ensures capacity { vec_capacity line.old ≤ vec_capacity line.new }
{
    let Ok(()) = line.extend_from_slice(bytes) else {
        unreachable!();
    };
}

/// Returns the number of bytes before the first 0Ah of `bytes`, but at most `most`.
fn inner_length(bytes: &[u8], most: usize) -> usize
    ensures within { result ≤ length bytes.now }
    ensures within_limit { result ≤ most }
    ensures inner { list_any is_end (take result bytes.now) ≡ false }
{
    let end = most.min(bytes.len());
    for at in 0..end {
        if bytes[at] == b'\n' {
            return at;
        }
    }
    end
}

impl LogLines {
    /// Returns the reader before the first byte of a log, or None if an allocation failed.
    pub fn new(alloc: Global) -> Option<LogLines>
        ensures { IfSome result (λ s. s ≡ record { line = []; room = 1099511627776; number = 0 }) }
    {
        let Ok(line) = Vec::with_capacity(alloc, MAX_LINE) else {
            return None;
        };
        Some(LogLines {
            line,
            room: MAX_LOG,
            number: 0,
        })
    }

    /// Returns the number of lines that have ended.
    pub fn number(&self) -> u64
        ensures { result ≡ self.now.number }
    {
        self.number
    }

    /// Adds `byte`, which is not 0Ah, to the open line.
    ///
    /// # Errors
    ///
    /// BadLine if `byte` makes the line too long.
    fn keep(&mut self, byte: u8) -> Result<(), LogFault>
        requires some { 0 < self.old.room }
        requires inner { byte ≢ 10 }
        ensures ok { OnOk result (ByteInLine self.old self.new byte) }
        ensures err { (interface : ℕ) → IfErr result (λ f. (tail : List ℕ) → ByteRefused interface self.old (byte ∷ tail) f) }
        ensures room { OnOk result (self.new.room + 1 ≡ self.old.room) }
        ensures stays { OnErr result (self.new ≡ self.old) }
    {
        if self.line.len() >= MAX_LINE {
            return Err(LogFault::BadLine {
                number: self.number + 1,
                why: LineFault::Long,
            });
        }
        self.room -= 1;
        put(&mut self.line, byte);
        Ok(())
    }

    /// Adds bytes of `bytes` to the open line until the next byte is 0Ah, or until the line or the log has no room. Returns the number of
    /// bytes added.
    pub(crate) fn take_inner(&mut self, bytes: &[u8]) -> usize
        ensures within { result ≤ length bytes.now }
        ensures bytes_in_line { BytesInLine self.old self.new (take result bytes.now) }
        ensures room { self.new.room + result ≡ self.old.room }
    {
        let free = ((MAX_LINE - self.line.len()) as u64).min(self.room) as usize;
        let count = inner_length(bytes, free);
        put_all(&mut self.line, &bytes[..count]);
        self.room -= count as u64;
        count
    }

    /// Ends the open line. Returns its meaning for a device whose DFU interface is `interface`.
    ///
    /// # Errors
    ///
    /// BadLine if the line isn't valid.
    fn end_line(&mut self, interface: u8) -> Result<Line, LogFault>
        requires some { 0 < self.old.room }
        ensures ok { IfOk result (λ says. ByteEndsLine interface self.old self.new 10 says) }
        ensures err { IfErr result (λ f. (tail : List ℕ) → ByteRefused interface self.old (10 ∷ tail) f) }
        ensures room { OnOk result (self.new.room + 1 ≡ self.old.room) }
        ensures stays { OnErr result (self.new ≡ self.old) }
    {
        let Some(line) = read_line(interface, &self.line) else {
            return Err(LogFault::BadLine {
                number: self.number + 1,
                why: why_unread(&self.line),
            });
        };
        self.room -= 1;
        self.number += 1;
        self.line.clear();
        Ok(line)
    }

    /// Takes the next byte of the log. If `byte` ends a line, returns its meaning for a device whose DFU interface is `interface`.
    ///
    /// # Errors
    ///
    /// TooLarge if 1,099,511,627,776 bytes precede `byte`; BadLine if `byte` makes a line too long, or ends a line that isn't valid.
    pub fn take(&mut self, interface: u8, byte: u8) -> Result<Option<Line>, LogFault>
        ensures ok { IfOk result (λ o. ByteAccepted interface self.old self.new byte o) }
        ensures err { IfErr result (λ f. (tail : List ℕ) → ByteRefused interface self.old (byte ∷ tail) f) }
        ensures room { OnOk result (self.new.room + 1 ≡ self.old.room) }
        ensures stays { OnErr result (self.new ≡ self.old) }
    {
        if self.room == 0 {
            return Err(LogFault::TooLarge);
        }
        if byte == b'\n' {
            return match self.end_line(interface) {
                Ok(line) => Ok(Some(line)),
                Err(fault) => Err(fault),
            };
        }
        match self.keep(byte) {
            Ok(()) => Ok(None),
            Err(fault) => Err(fault),
        }
    }
}
