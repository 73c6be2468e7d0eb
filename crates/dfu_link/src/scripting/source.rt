//! Reads the lines of a script, one by one.

ghost use Rattle.std.specs.Prelude.{◌≡◌, ◌≤◌, ◌<◌, ◌+◌, ◌++◌, ℕ, List, Option, [], length, vec_capacity, IfOk, IfErr, Ok, true};
ghost use Rattle.std.specs.Io.KnownBytes.{prepend_known};
ghost use Rattle.std.specs.List.{position};
ghost use Rattle.dfu_link.specs.Words.{is_newline};
ghost use Rattle.dfu_link.specs.inside.Source.{NextLineOrEnd, SourceStops, PieceRead, source_state};

use crate::scripting::fault::ScriptFault;
use crate::scripting::reader::Pieces;
use crate::scripting::reading::MAX_LINE;
use std::alloc::Global;
use std::io::Read;
use std::marker::Model;

/// Largest number of bytes of a text.
const MAX_TEXT: u32 = 16_777_216;

/// Reads a text line by line. Holds the current line in a buffer that is reserved once, and at most one piece of the text after that line.
///
/// Contracts describe it as a `SourceState`.
#[derive(Drop)]
pub(crate) struct LineReader<R: Read + Drop> {
    pieces: Pieces<R>,
    // Number of bytes of the text that the source may still take.
    room: u32,
    number: u32,
    line: Vec<u8>,
}

impl<R: Read + Drop> Model for LineReader<R> {
    ghost use Rattle.std.specs.Prelude.{◌≤◌, ◌+◌, vec_capacity};
    ghost use Rattle.dfu_link.specs.inside.Source.{SourceState};

    ghost Value = { SourceState };

    ghost view = { λ s. record { left = s.pieces.left; room = s.room; number = s.number; line = s.line.items } };

    ghost invariant = { λ s. (s.number + s.room ≤ 16777216) × (65537 ≤ vec_capacity s.line) };
}

/// Returns the index of the first line feed; None if there is none.
fn newline_at(text: &[u8]) -> Option<usize>
    ensures { result ≡ position is_newline text.now }
{
    text.iter().position(|byte| *byte == b'\n')
}

/// Bytes that `take_piece` took. `ended` is true if the last one is a line feed.
#[derive(Clone, Copy)]
struct Taken {
    bytes: u32,
    ended: bool,
}

/// Appends a piece to a line that has room for it.
fn put(line: &mut Vec<u8>, piece: &[u8])
    requires room { length line.old.items + length piece.now ≤ 65537 }
    requires capacity { 65537 ≤ vec_capacity line.old }
    ensures items { line.new.items ≡ line.old.items ++ piece.now }
    ensures capacity { vec_capacity line.old ≤ vec_capacity line.new }
{
    let Ok(()) = line.extend_from_slice(piece) else {
        unreachable!();
    };
}

/// Takes bytes of the current line from the buffer of `pieces`, up to its line feed, and appends them to `line` without the line feed.
/// Takes at most `most` bytes, and no more than one byte beyond the longest line.
fn take_piece<R: Read + Drop>(pieces: &mut Pieces<R>, most: u32, line: &mut Vec<u8>) -> Taken
    requires ready { 0 < length pieces.old.ready }
    requires most { 0 < most }
    requires short { length line.old.items ≤ 65536 }
    requires capacity { 65537 ≤ vec_capacity line.old }
    ensures takes { PieceRead pieces.old.left line.old.items result.bytes result.ended pieces.new.left line.new.items }
    ensures within_limit { result.bytes ≤ most }
    ensures capacity { vec_capacity line.old ≤ vec_capacity line.new }
{
    let ready = pieces.ready();
    let room = (MAX_LINE + 1 - line.len()).min(most as usize);
    let (window, _) = ready.split_at(ready.len().min(room));
    match newline_at(window) {
        Some(end) => {
            let (piece, _) = window.split_at(end);
            put(line, piece);
            pieces.advance(end + 1);
            Taken {
                bytes: end as u32 + 1,
                ended: true,
            }
        }
        None => {
            let bytes = window.len();
            put(line, window);
            pieces.advance(bytes);
            Taken {
                bytes: bytes as u32,
                ended: false,
            }
        }
    }
}

/// Reads line `before` + 1 into `line`. Returns true if there is such a line.
fn read_line<R: Read + Drop>(
    pieces: &mut Pieces<R>,
    room: &mut u32,
    before: u32,
    line: &mut Vec<u8>,
) -> Result<bool, ScriptFault>
    requires empty { line.old.items ≡ [] }
    requires capacity { 65537 ≤ vec_capacity line.old }
    requires number { before + room.old ≤ 16777216 }
    ensures ok { IfOk result (λ more. NextLineOrEnd (source_state pieces.old.left room.old before line.old.items) more
        (source_state pieces.new.left room.new (before + 1) line.new.items)) }
    ensures fault { IfErr result (λ f. (given : Option (List ℕ))
        → SourceStops given (source_state pieces.old.left room.old before line.old.items) f) }
    ensures room { room.new ≤ room.old }
    ensures less { result ≡ Ok true → room.new < room.old }
    ensures capacity { vec_capacity line.old ≤ vec_capacity line.new }
{
    'pieces: loop {
        pieces.fill()?;
        if pieces.ready().is_empty() {
            return Ok(!line.is_empty());
        }
        if *room == 0 {
            return Err(ScriptFault::TooLarge);
        }
        let taken = take_piece(pieces, *room, line);
        *room -= taken.bytes;
        if taken.ended {
            return Ok(true);
        }
        if line.len() > MAX_LINE {
            return Err(ScriptFault::BadLine(before + 1));
        }
    }
}

impl<R: Read + Drop> LineReader<R> {
    /// Makes a source for all bytes of `reader`. None of them is read yet.
    pub(crate) fn new(alloc: Global, reader: R) -> Result<LineReader<R>, ScriptFault>
        ensures ok { IfOk result (λ s. (s.left ≡ prepend_known [] (R.remaining reader)) × (s.room ≡ 16777216) × (s.number ≡ 0)) }
        ensures fault { IfErr result (λ f. f ≡ ScriptFault.NoMemory) }
    {
        let Ok(line) = Vec::with_capacity(alloc, MAX_LINE + 1) else {
            return Err(ScriptFault::NoMemory);
        };
        Ok(LineReader {
            pieces: Pieces::new(reader),
            room: MAX_TEXT,
            number: 0,
            line,
        })
    }

    /// Returns the current line, without its line feed.
    pub(crate) fn line(&self) -> &[u8]
        ensures { result.now ≡ self.now.line }
    {
        &self.line
    }

    /// Returns the number of the current line, counted from 1.
    pub(crate) fn number(&self) -> u32
        ensures { result ≡ self.now.number }
    {
        self.number
    }

    /// Reads the next line. Returns true if there is one.
    ///
    /// # Errors
    ///
    /// BadLine if the line has over 65,536 bytes, TooLarge if the text exceeds its limit before that and before the line feed, Read if the
    /// reader fails.
    pub(crate) fn next(&mut self) -> Result<bool, ScriptFault>
        ensures ok { IfOk result (λ more. NextLineOrEnd self.old more self.new) }
        ensures fault { IfErr result (λ f. (given : Option (List ℕ)) → SourceStops given self.old f) }
        ensures room { self.new.room ≤ self.old.room }
    {
        self.line.clear();
        if !read_line(
            &mut self.pieces,
            &mut self.room,
            self.number,
            &mut self.line,
        )? {
            return Ok(false);
        }
        self.number += 1;
        Ok(true)
    }
}
