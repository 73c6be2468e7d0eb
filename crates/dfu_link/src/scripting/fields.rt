//! Parsers for the fields of a line. Each field is one word.

ghost use Rattle.std.specs.Prelude.{◌≡◌, ◌↔◌, IsTrue, is_some};
ghost use Rattle.std.specs.List.{AllPass};
ghost use Rattle.hex.specs.Hex.{is_hex_digit};
ghost use Rattle.dfu_link.specs.Words.{ReadingMatches, hex_word_bytes, number_of_pair, words_of};
ghost use Rattle.dfu_link.specs.LineContent.{given_bytes, hex_bytes, offered_bytes};
ghost use Rattle.dfu_link.specs.Lines.{ReadMatches, number_field, short_at, hex_at, identifier_at};
ghost use Rattle.dfu_link.specs.Fields.{number_at_most, named_bytes, attributes_of_word, unit_of_bytes, unit_of_word, sector_of, objection_of_word};

use crate::scripting::fault::{Field, LineFault};
use crate::scripting::line::{HexText, Offered, Sector};
use crate::scripting::words::{is_word, number, one_of, small, word_at};
use dfu_device::Objection;
use dfu_slots::{PAGE, Unit};
use dfu_wire::identifier;

// Largest sector that a script can set, in bytes. The store accepts larger sectors, but a script that an earlier version refused for its
// sector must stay refused.
const MAX_SCRIPT_SECTOR: u32 = 1 << 17;

#[tactic(auto, using(std::proofs::lemmas::Bool::Decides::nat_tests))]
fn is_digit(byte: u8) -> bool
    ensures { result ≡ is_hex_digit byte }
{
    matches!(byte, b'A'..=b'F' | b'a'..=b'f' | b'0'..=b'9')
}

fn are_digits(word: &[u8]) -> bool
    ensures { IsTrue result ↔ AllPass is_hex_digit word.now }
{
    word.iter().all(|byte| is_digit(*byte))
}

fn is_hex_text(word: &[u8]) -> bool
    ensures { result ≡ is_some (hex_word_bytes word.now) }
{
    if is_word(word, b"-") {
        return true;
    }
    word.len() % 2 == 0 && are_digits(word)
}

/// Parses `word` as an even number of hexadecimal digits of either case, or `-` for no bytes; None if it is neither.
pub(crate) fn hex_text(word: &[u8]) -> Option<HexText<'_>>
    ensures { ReadingMatches hex_bytes result (hex_word_bytes word.now) }
{
    if is_hex_text(word) {
        Some(HexText { text: word })
    } else {
        None
    }
}

/// Returns the file that a word of an offer stands for: the given bytes for FILE, which are not copied, or the bytes of hexadecimal text.
/// None if the word is FILE and no bytes are given, or if it is not hexadecimal text.
#[tactic(auto, unfolding(crate::specs::Fields::named_bytes))]
pub(crate) fn offered<'l, 'g>(given: Option<&'g [u8]>, word: &'l [u8]) -> Option<Offered<'l, 'g>>
    ensures { ReadingMatches offered_bytes result (named_bytes (given_bytes given.entry) word.now) }
{
    if is_word(word, b"FILE") {
        match given {
            Some(bytes) => Some(Offered::Given(bytes)),
            None => None,
        }
    } else {
        let text = hex_text(word)?;
        Some(Offered::Spelled(text))
    }
}

/// Parses `word` as a number of two hexadecimal digits; None if it is anything else.
pub(crate) fn pair(word: &[u8]) -> Option<u8>
    ensures { ReadingMatches (λ n. n) result (number_of_pair word.now) }
{
    let mut bytes = [0; 1];
    match hex::decode_to_slice(word, &mut bytes) {
        Ok(()) => Some(bytes[0]),
        Err(_) => None,
    }
}

/// Parses `word` as a number of at most 65,535; None if it is anything else.
#[tactic(auto, using(std::proofs::lemmas::Bool::Decides::nat_tests))]
pub(crate) fn short(word: &[u8]) -> Option<u16>
    ensures { ReadingMatches (λ n. n) result (number_at_most 65535 word.now) }
{
    let n = small(word, 65_535)?;
    Some(n as u16)
}

/// Parses `word` as the attributes of a functional descriptor, two hexadecimal digits from 00 to 0f; None if it is anything else.
#[tactic(auto, unfolding(crate::specs::Fields::attributes_of_word), using(std::proofs::lemmas::Bool::Decides::nat_tests))]
pub(crate) fn attributes(word: &[u8]) -> Option<u8>
    ensures { ReadingMatches (λ n. n) result (attributes_of_word word.now) }
{
    let n = pair(word)?;
    if n <= 15 { Some(n) } else { None }
}

/// Returns the unit of this many bytes; None if no unit has this size.
fn unit_of_bytes(bytes: u32) -> Option<Unit>
    ensures { result ≡ unit_of_bytes bytes }
{
    match bytes {
        1 => Some(Unit::Byte),
        16 => Some(Unit::U16),
        64 => Some(Unit::U64),
        256 => Some(Unit::U256),
        _ => None,
    }
}

/// Parses `word` as the unit in which the medium is written, 1, 16, 64 or 256 bytes; None if it is anything else.
#[tactic(auto, unfolding(crate::specs::Fields::unit_of_word))]
pub(crate) fn unit(word: &[u8]) -> Option<Unit>
    ensures { result ≡ unit_of_word word.now }
{
    let n = number(word)?;
    unit_of_bytes(n)
}

/// Parses `word` as the number of bytes that one erase of the medium clears, 0 or a multiple of 256 up to 131,072; None if it is anything
/// else.
#[tactic(auto, unfolding(crate::specs::Fields::sector_of), using(std::proofs::lemmas::Bool::Decides::nat_tests))]
pub(crate) fn sector(word: &[u8]) -> Option<Sector>
    ensures { ReadingMatches (λ s. s.bytes) result (sector_of word.now) }
{
    let n = small(word, MAX_SCRIPT_SECTOR)?;
    if n % PAGE == 0 {
        Some(Sector { bytes: n })
    } else {
        None
    }
}

/// Parses `word` as an objection of the program to an image, `errTARGET` or `errFILE`; None if it is anything else.
pub(crate) fn objection(word: &[u8]) -> Option<Objection>
    ensures { result ≡ objection_of_word word.now }
{
    one_of!(word, Objection, None, {
        b"errTARGET" => Target,
        b"errFILE" => File,
    })
}

/// Parses the next word of a line with the parser of its field. Evaluates to the value of the word and the rest of the line, or returns the
/// fault from the function around it.
macro_rules! field {
    ($line:ident, $n:expr, $of:expr, $field:ident, $read:path $(, $most:expr)?) => {{
        let Some((word, rest)) = word_at($line) else {
            return Err(LineFault::Count($of));
        };
        let Some(value) = $read(word $(, $most)?) else {
            return Err(LineFault::Word(Field::$field, $n));
        };
        (value, rest)
    }};
}

pub(crate) use field;

/// Parses the next word of `line`, which is word `n`, as a number. Returns the number and the rest of the line. A whole line has `of`
/// words.
#[tactic(auto, unfolding(crate::specs::Lines::number_field))]
pub(crate) fn number_at(line: &[u8], n: usize, of: usize) -> Result<(u32, &[u8]), LineFault>
    ensures { ReadMatches (λ x. (x.0, words_of x.1.now)) result (number_field n of (words_of line.now)) }
{
    Ok(field!(line, n, of, Number, number))
}

/// Parses the next word of `line`, which is word `n`, as a number of at most 65,535. Returns the number and the rest of the line. A whole
/// line has `of` words.
#[tactic(auto, unfolding(crate::specs::Lines::short_at))]
pub(crate) fn short_at(line: &[u8], n: usize, of: usize) -> Result<(u16, &[u8]), LineFault>
    ensures { ReadMatches (λ x. (x.0, words_of x.1.now)) result (short_at n of (words_of line.now)) }
{
    Ok(field!(line, n, of, Short, short))
}

/// Parses the next word of `line`, which is word `n`, as hexadecimal text. Returns the text and the rest of the line. A whole line has `of`
/// words.
#[tactic(auto, unfolding(crate::specs::Lines::hex_at))]
pub(crate) fn hex_at(line: &[u8], n: usize, of: usize) -> Result<(HexText<'_>, &[u8]), LineFault>
    ensures { ReadMatches (λ x. (hex_bytes x.0, words_of x.1.now)) result (hex_at n of (words_of line.now)) }
{
    Ok(field!(line, n, of, Bytes, hex_text))
}

/// Parses the next word of `line`, which is word `n`, as four hexadecimal digits. Returns the number and the rest of the line. A whole line
/// has `of` words.
#[tactic(auto, unfolding(crate::specs::Lines::identifier_at))]
pub(crate) fn identifier_at(line: &[u8], n: usize, of: usize) -> Result<(u16, &[u8]), LineFault>
    ensures { ReadMatches (λ x. (x.0, words_of x.1.now)) result (identifier_at n of (words_of line.now)) }
{
    Ok(field!(line, n, of, Identifier, identifier))
}
