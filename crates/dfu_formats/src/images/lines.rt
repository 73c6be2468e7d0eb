//! The lines of a text, and formats that are read line by line.

ghost use Rattle.std.specs.Prelude.{◌≡◌, ◌+◌, ◌≤◌, ◌<◌, ℕ, List, Result, [], ◌∷◌, length, IfOk, IfSome, MatchOption};
ghost use Rattle.std.specs.List.{list_all, position};
ghost use Rattle.dfu_formats.specs.declared.images.fault.ImageFault as declared;
ghost use Rattle.dfu_formats.specs.images.Reading.{IsReadResult, IsReadFault};
ghost use Rattle.dfu_formats.specs.images.Elements.{AreApart, IsElementResult};
ghost use Rattle.dfu_formats.specs.images.Text.{is_blank_byte};
ghost use Rattle.dfu_formats.specs.images.Lines.{lines, is_line_feed, bare_line, state_before_first_line, line_read, lines_read, elements_by_line};

use crate::images::element::Element;
use crate::images::fault::ImageFault;
use crate::images::gathering::Gathering;
use crate::images::text::{is_blank_byte, unblanked, unmarked};
use std::alloc::Global;
use std::marker::Model;

/// Returns the index of the first line feed of `text`, or None if it has none.
fn feed_in(text: &[u8]) -> Option<usize>
    ensures value { result ≡ position is_line_feed text.now }
    ensures within { IfSome result (λ at. at < length text.now) }
{
    text.iter().position(|byte| *byte == b'\n')
}

/// Returns the first line of `text`, and the text after its line feed. This text is None if there is no line feed.
fn take_line(text: &[u8]) -> (&[u8], Option<&[u8]>)
    ensures value { MatchOption result.1 (lines text.now ≡ result.0.now ∷ []) (λ rest. lines text.now ≡ result.0.now ∷ lines rest.now) }
    ensures shorter { IfSome result.1 (λ rest. length rest.now < length text.now) }
{
    match feed_in(text) {
        Some(end) => {
            let (line, _) = text.split_at(end);
            let (_, rest) = text.split_at(end + 1);
            (line, Some(rest))
        }
        None => (text, None),
    }
}

/// Returns `line` without the blanks at its ends.
fn bare(line: &[u8]) -> &[u8]
    ensures { result.now ≡ bare_line line.now }
{
    let from_first = unblanked(line);
    let mut end = from_first.len();
    while end > 0 && is_blank_byte(from_first[end - 1]) {
        end -= 1;
    }
    let (kept, _) = from_first.split_at(end);
    kept
}

/// State of reading a text: the elements, the base of Intel HEX, true if this base is a segment of 65,536 bytes, the number of S-records
/// with data, true if the text may end here, and true if only blank lines may follow.
#[derive(Drop)]
pub(crate) struct State {
    pub gathering: Gathering,
    pub base: u64,
    pub is_segment: bool,
    pub count: usize,
    pub is_whole: bool,
    pub is_ended: bool,
}

impl Model for State {
    ghost use Rattle.std.specs.Prelude.{◌≤◌};
    ghost use Rattle.dfu_formats.specs.images.Lines as lines;

    ghost Value = { lines.State };

    ghost view = { λ s. record {
      gathering = s.gathering;
      base = s.base;
      is_segment = s.is_segment;
      count = s.count;
      is_whole = s.is_whole;
      is_ended = s.is_ended;
    } };

    ghost invariant = { λ s. s.base ≤ 4294901760 };
}

/// A text format with one record on each line.
pub(crate) trait TextFormat {
    ghost use Rattle.dfu_formats.specs.images.Lines as lines;

    /// Result of reading the record on line `at`.
    ghost step: { (at : ℕ) → lines.State → List ℕ → Result lines.State declared.ImageFault };

    fn step(alloc: Global, at: usize, state: State, line: &[u8]) -> Result<State, ImageFault>
        requires { state.count < at }
        ensures value { IsReadResult result (step at state line.now) }
        ensures counted { IfOk result (λ s. s.count ≤ state.count + 1) };
}

/// Returns true if `line` is empty or consists of blanks.
fn is_blank_line(line: &[u8]) -> bool
    ensures { result ≡ list_all is_blank_byte line.now }
{
    line.iter().all(|byte| is_blank_byte(*byte))
}

/// Reads `line`, which has number `at` and is a record or blank. Returns the new state, or the fault.
#[tactic(auto, using(std::proofs::lemmas::Bool::Decides::nat_tests), unfolding(crate::specs::images::Lines::line_read))]
fn line_read<F: TextFormat>(
    alloc: Global,
    at: usize,
    state: State,
    line: &[u8],
) -> Result<State, ImageFault>
    requires { state.count < at }
    ensures value { IsReadResult result (line_read F.step at state line.now) }
    ensures counted { IfOk result (λ s. s.count ≤ state.count + 1) }
{
    if is_blank_line(line) {
        return Ok(state);
    }
    if state.is_ended {
        return Err(ImageFault::Trailing(at));
    }
    F::step(alloc, at, state, line)
}

/// Reads all lines of `text`. Returns the last state or the first fault. The fault is NoEnd if the text may not end after its last line.
fn lines_read<F: TextFormat>(alloc: Global, text: &[u8]) -> Result<State, ImageFault>
    ensures { IsReadResult result (lines_read (line_read F.step) 1 state_before_first_line (lines text.now)) }
{
    let mut state = State {
        gathering: Gathering::new(alloc),
        base: 0,
        is_segment: false,
        count: 0,
        is_whole: false,
        is_ended: false,
    };
    let mut at: usize = 1;
    let mut rest = text;
    loop {
        let (line, more) = take_line(rest);
        state = match line_read::<F>(alloc, at, state, bare(line)) {
            Ok(next) => next,
            Err(fault) => return Err(fault),
        };
        match more {
            Some(after) => rest = after,
            None if state.is_whole => return Ok(state),
            None => return Err(ImageFault::NoEnd),
        }
        at += 1;
    }
}

/// Reads the elements of `text`, line by line. A byte order mark at its front is skipped.
pub(crate) fn elements_by_line<F: TextFormat>(
    alloc: Global,
    text: &[u8],
) -> Result<Vec<Element>, ImageFault>
    // The result is the elements of the text, or its first fault.
    ensures value { IsElementResult result (elements_by_line F.step text.now) }
    // The elements are sorted by address, and no two share an address.
    ensures apart { IfOk result (λ v. AreApart 0 v.items) }
{
    match lines_read::<F>(alloc, unmarked(text)) {
        Ok(state) => state.gathering.finish(),
        Err(fault) => Err(fault),
    }
}
