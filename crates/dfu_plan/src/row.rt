//! A line of a table of parts: the name of a part, and one of its regions.

ghost use Rattle.std.specs.Prelude.{◌≡◌, None, Some, MatchOption};
ghost use Rattle.dfu_plan.specs.Rows.{is_rowless_line, has_only_name_bytes, is_name_byte, is_printable, is_printable_line, note_after_count, positive_number, region_of, row_of_words, row_in};

use crate::sizes::size_in;
use crate::words::{is_space_or_tab, next_word, without_front_blanks};
use dfu_places::Region;
use std::fmt;
use std::marker::Model;
use thiserror::Error;

/// Faults of a line of a table of parts, in the order in which they are checked.
#[derive(Clone, Copy, Drop, Error)]
pub enum RowFault {
    /// The line has a byte that is neither printable ASCII nor a tab.
    Unprintable,
    /// The first word has a byte other than letters, digits, `-`, `_`, `.` and `+`.
    Name,
    /// The second word is not an address.
    Address,
    /// The third word is not a sector size, or is 0.
    Sector,
    /// The fourth word is not a number, or is 0.
    Count,
    /// The region ends after address FFFFFFFEh.
    PastTheEnd,
    /// The fourth word is followed by text that does not begin with `#`.
    Trailing,
    /// The region begins before the end of the part's previous region.
    Order,
}

impl fmt::Debug for RowFault {
    fn fmt<W: fmt::Write>(&self, f: &mut fmt::Formatter<W>) -> fmt::Result {
        f.write_str(NAMES[*self as usize])
    }
}

/// Names of the faults, in the order of the enum.
static NAMES: [&str; 8] = [
    "Unprintable",
    "Name",
    "Address",
    "Sector",
    "Count",
    "PastTheEnd",
    "Trailing",
    "Order",
];

/// Texts of the faults, in the order of the enum.
static TEXTS: [&str; 8] = [
    "it has a character that isn't printable ASCII",
    "its first word isn't a name of letters, digits, - _ . and +",
    "its second word isn't the address of a region, as 0x08000000",
    "its third word isn't the size of a sector, as 16K",
    "its fourth word isn't a number of sectors from 1 on",
    "the region ends behind address FFFFFFFE",
    "behind the number of sectors stands something else than # and a note",
    "the region begins before the end of the one before it",
];

impl fmt::Display for RowFault {
    fn fmt<W: fmt::Write>(&self, f: &mut fmt::Formatter<W>) -> fmt::Result {
        f.write_str(TEXTS[*self as usize])
    }
}

/// Row of a table: a region of a part, as read from a line.
#[derive(Drop)]
pub struct Row<'t> {
    /// Name of the part.
    pub name: &'t [u8],
    /// Region of the part.
    pub region: Region,
    /// Note after `#`, on the source of the numbers; empty if there is none.
    pub note: &'t [u8],
}

impl<'t> Model for Row<'t> {
    ghost use Rattle.dfu_plan.specs.RowRead.{RowRead};

    ghost Value = { RowRead };

    ghost view = { λ r. record { name = r.name.now; region = r.region; note = r.note.now } };
}

fn is_printable(byte: u8) -> bool
    ensures { result ≡ is_printable byte }
{
    byte >= b' ' && byte <= b'~' || byte == b'\t'
}

fn is_printable_line(line: &[u8]) -> bool
    ensures { result ≡ is_printable_line line.now }
{
    line.iter().all(|byte| is_printable(*byte))
}

/// Returns true if a part's name may contain the byte.
fn is_name_byte(byte: u8) -> bool
    ensures { result ≡ is_name_byte byte }
{
    byte.is_ascii_alphanumeric() || byte == b'-' || byte == b'_' || byte == b'.' || byte == b'+'
}

/// Returns true if a part's name may contain each byte of the word.
fn has_only_name_bytes(word: &[u8]) -> bool
    ensures { result ≡ has_only_name_bytes word.now }
{
    word.iter().all(|byte| is_name_byte(*byte))
}

/// Returns true if the line, without its leading blanks, is empty or a comment, which begins with `#`.
fn is_rowless_line(text: &[u8]) -> bool
    ensures { result ≡ is_rowless_line text.now }
{
    text.is_empty() || text[0] == b'#'
}

/// Returns the note after the number of sectors and `#`. It is empty if only blanks follow the number, and None if anything else does.
#[tactic(auto, using(std::proofs::lemmas::Bool::Decides::nat_tests), unfolding(crate::specs::Rows::note_after_count))]
fn note_after_count(text: &[u8]) -> Option<&[u8]>
    ensures { MatchOption result (note_after_count text.now ≡ None) (λ note. note_after_count text.now ≡ Some note.now) }
{
    let text = without_front_blanks(text);
    if text.is_empty() {
        return Some(text);
    }
    if text[0] != b'#' {
        return None;
    }
    let (_, note) = text.split_at(1);
    Some(without_front_blanks(note))
}

/// Returns the number if it is at least 1; else None.
fn positive_number(number: Option<u32>) -> Option<u32>
    ensures { result ≡ positive_number number }
{
    match number {
        Some(0) | None => None,
        Some(number) => Some(number),
    }
}

/// Returns the region of three words, or the fault of the first wrong word, or PastTheEnd.
#[tactic(auto, using(std::proofs::lemmas::Bool::Decides::nat_tests), unfolding(crate::specs::Rows::region_of))]
fn region_of(at: &[u8], sector: &[u8], count: &[u8]) -> Result<Region, RowFault>
    ensures { result ≡ region_of at.now sector.now count.now }
{
    let Some(at) = size_in(at) else {
        return Err(RowFault::Address);
    };
    let Some(sector) = positive_number(size_in(sector)) else {
        return Err(RowFault::Sector);
    };
    let Some(count) = positive_number(size_in(count)) else {
        return Err(RowFault::Count);
    };
    if at as u64 + sector as u64 * count as u64 > u32::MAX as u64 {
        return Err(RowFault::PastTheEnd);
    }
    Ok(Region { at, sector, count })
}

/// Returns the row of the words of a line, or the first fault.
#[tactic(auto, using(std::proofs::lemmas::Bool::Decides::nat_tests), unfolding(crate::specs::Rows::row_of_words))]
fn row_of_words(line: &[u8]) -> Result<Row<'_>, RowFault>
    ensures { result ≡ row_of_words line.now }
{
    let (name, rest) = next_word(line);
    let (at, rest) = next_word(rest);
    let (sector, rest) = next_word(rest);
    let (count, rest) = next_word(rest);
    if !has_only_name_bytes(name) {
        return Err(RowFault::Name);
    }
    let region = match region_of(at, sector, count) {
        Ok(region) => region,
        Err(fault) => return Err(fault),
    };
    match note_after_count(rest) {
        Some(note) => Ok(Row { name, region, note }),
        None => Err(RowFault::Trailing),
    }
}

/// Returns the row on a line of a table, or the first fault of the line. The line has the name of a part, the address of a region, the size
/// of its sectors and their number, with blanks between them. A note after `#` may follow. Returns None if the line, after leading blanks,
/// is empty or begins with `#`.
#[tactic(auto, using(std::proofs::lemmas::Bool::Decides::nat_tests), unfolding(crate::specs::Rows::row_in))]
pub fn row_in(line: &[u8]) -> Result<Option<Row<'_>>, RowFault>
    ensures { result ≡ row_in line.now }
{
    if is_rowless_line(without_front_blanks(line)) {
        return Ok(None);
    }
    if !is_printable_line(line) {
        return Err(RowFault::Unprintable);
    }
    match row_of_words(line) {
        Ok(row) => Ok(Some(row)),
        Err(fault) => Err(fault),
    }
}
