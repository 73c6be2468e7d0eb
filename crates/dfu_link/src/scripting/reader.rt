//! Reads the bytes of a reader in pieces.

ghost use Rattle.std.specs.Prelude.{◌≡◌, ◌≤◌, [], length, take, drop, OnOk, IfErr, IfSome};
ghost use Rattle.std.specs.Io.KnownBytes.{Keeps, Consumes, IsAtEnd, prepend_known};

use crate::scripting::fault::ScriptFault;
use dfu_suffix::READ_BYTES;
use std::io::Read;
use std::marker::Model;

/// A reader, with a buffer for the bytes that were read from it and not taken yet.
///
/// Contracts describe it as a `PiecesState`.
#[derive(Drop)]
pub(crate) struct Pieces<R: Read + Drop> {
    reader: R,
    bytes: [u8; READ_BYTES],
    from: usize,
    to: usize,
    ended: bool,
}

impl<R: Read + Drop> Model for Pieces<R> {
    ghost use Rattle.std.specs.Prelude.{◌≡◌, ◌≤◌, slice_range, true};
    ghost use Rattle.std.specs.Io.KnownBytes.{IsAtEnd};
    ghost use Rattle.dfu_link.specs.inside.Source.{PiecesState, pieces_state};

    ghost Value = { PiecesState };

    ghost view = { λ p. pieces_state (slice_range p.bytes p.from p.to) (R.remaining p.reader) };

    ghost invariant = { λ p. (p.from ≤ p.to) × (p.to ≤ 16384) × (p.ended ≡ true → IsAtEnd (R.remaining p.reader)) };
}

impl<R: Read + Drop> Pieces<R> {
    /// Makes an empty buffer for a reader.
    pub(crate) fn new(reader: R) -> Pieces<R>
        ensures ready { result.ready ≡ [] }
        ensures left { result.left ≡ prepend_known [] (R.remaining reader) }
    {
        Pieces {
            reader,
            bytes: [0; READ_BYTES],
            from: 0,
            to: 0,
            ended: false,
        }
    }

    /// Reads into the buffer if it is empty, so that it holds a byte unless the reader is at its end. Makes at most one read, and none
    /// after the end was reached.
    pub(crate) fn fill(&mut self) -> Result<(), ScriptFault>
        ensures left { Keeps self.old.left self.new.left }
        ensures front { IfSome self.new.left (λ left. length self.new.ready ≤ length left) }
        ensures end { OnOk result (self.new.ready ≡ [] → IsAtEnd self.new.left) }
        ensures fault { IfErr result (λ f. f ≡ ScriptFault.Read) }
    {
        if self.from < self.to || self.ended {
            return Ok(());
        }
        match self.reader.read(&mut self.bytes) {
            Ok(taken) => {
                self.from = 0;
                self.to = taken;
                self.ended = taken == 0;
                Ok(())
            }
            Err(_) => Err(ScriptFault::Read),
        }
    }

    /// Returns the bytes in the buffer.
    pub(crate) fn ready(&self) -> &[u8]
        ensures { result.now ≡ self.now.ready }
    {
        &self.bytes[self.from..self.to]
    }

    /// Takes the first `count` bytes from the buffer.
    pub(crate) fn advance(&mut self, count: usize)
        requires { count ≤ length self.old.ready }
        ensures ready { self.new.ready ≡ drop count self.old.ready }
        ensures left { Consumes self.old.left self.new.left (take count self.old.ready) }
    {
        self.from += count;
    }
}
