//! Parsers of the words after the first word of a line, for each keyword except `go`.

ghost use Rattle.std.specs.Prelude.{◌≡◌};
ghost use Rattle.dfu_link.specs.Words.{words_of};
ghost use Rattle.dfu_link.specs.LineContent.{given_bytes, offered_bytes, content_of_line};
ghost use Rattle.dfu_link.specs.Lines.{ReadMatches, ids_content, device_content, unit_content, erase_content, pace_content, capacity_content, image_content, check_content, limits_content, no_file_fault, offered_file, offer_content, time_of, refuse_content, expect_content};

use crate::scripting::fault::{Field, LineFault};
use crate::scripting::fields::{field, hex_at, identifier_at, number_at, offered, short_at};
use crate::scripting::line::{ConfigLine, EventLine, Line, Offered, Room};
use crate::scripting::words::{ended, is_word, text_behind, word_at};
use crate::scripting::{fields, words};
use dfu_sim::Purpose;
use dfu_wire::{Functional, Ids};

/// Parses the words `VVVV PPPP DDDD` after `ids`.
#[tactic(auto, unfolding(crate::specs::Lines::ids_content))]
pub(crate) fn ids(line: &[u8]) -> Result<Line<'_, 'static>, LineFault>
    ensures { ReadMatches content_of_line result (ids_content (words_of line.now)) }
{
    let (vendor, rest) = identifier_at(line, 2, 4)?;
    let (product, rest) = identifier_at(rest, 3, 4)?;
    let (device, rest) = identifier_at(rest, 4, 4)?;
    let ids = Ids {
        device,
        product,
        vendor,
    };
    ended(Line::Set(ConfigLine::Ids(ids)), 4, rest)
}

/// Parses the words `FF DETACH TRANSFER LEAST BUSY MANIFEST` after `device`.
#[tactic(auto, unfolding(crate::specs::Lines::device_content))]
pub(crate) fn device(line: &[u8]) -> Result<Line<'_, 'static>, LineFault>
    ensures { ReadMatches content_of_line result (device_content (words_of line.now)) }
{
    let (attributes, rest) = field!(line, 2, 7, Attributes, fields::attributes);
    let (detach_ms, rest) = short_at(rest, 3, 7)?;
    let (transfer, rest) = short_at(rest, 4, 7)?;
    let (least, rest) = number_at(rest, 5, 7)?;
    let (busy_ms, rest) = number_at(rest, 6, 7)?;
    let (manifest_ms, rest) = number_at(rest, 7, 7)?;
    let functional = Functional::of_attributes(attributes, detach_ms, transfer, 0x0110);
    let said = Line::Set(ConfigLine::Device {
        functional,
        least,
        busy_ms,
        manifest_ms,
    });
    ended(said, 7, rest)
}

/// Parses the word `N` after `unit`.
#[tactic(auto, unfolding(crate::specs::Lines::unit_content))]
pub(crate) fn unit(line: &[u8]) -> Result<Line<'_, 'static>, LineFault>
    ensures { ReadMatches content_of_line result (unit_content (words_of line.now)) }
{
    let (unit, rest) = field!(line, 2, 2, Unit, fields::unit);
    ended(Line::Set(ConfigLine::Unit(unit)), 2, rest)
}

/// Parses the word `N` after `erase`.
#[tactic(auto, unfolding(crate::specs::Lines::erase_content))]
pub(crate) fn erase(line: &[u8]) -> Result<Line<'_, 'static>, LineFault>
    ensures { ReadMatches content_of_line result (erase_content (words_of line.now)) }
{
    let (sector, rest) = field!(line, 2, 2, Sector, fields::sector);
    ended(Line::Set(ConfigLine::Erase(sector)), 2, rest)
}

/// Parses the words `ERASE PROGRAM` after `pace`.
#[tactic(auto, unfolding(crate::specs::Lines::pace_content))]
pub(crate) fn pace(line: &[u8]) -> Result<Line<'_, 'static>, LineFault>
    ensures { ReadMatches content_of_line result (pace_content (words_of line.now)) }
{
    let (erase_ms, rest) = short_at(line, 2, 3)?;
    let (program_ms, rest) = short_at(rest, 3, 3)?;
    let said = Line::Set(ConfigLine::Pace {
        erase_ms,
        program_ms,
    });
    ended(said, 3, rest)
}

/// Parses the word `N` after `capacity`.
#[tactic(auto, unfolding(crate::specs::Lines::capacity_content))]
pub(crate) fn capacity(line: &[u8]) -> Result<Line<'_, 'static>, LineFault>
    ensures { ReadMatches content_of_line result (capacity_content (words_of line.now)) }
{
    let (bytes, rest) = field!(line, 2, 2, Capacity, words::count, 1_048_576);
    ended(Line::Set(ConfigLine::Capacity(Room { bytes })), 2, rest)
}

/// Parses the word `HEX` after `image`.
#[tactic(auto, unfolding(crate::specs::Lines::image_content))]
pub(crate) fn image(line: &[u8]) -> Result<Line<'_, 'static>, LineFault>
    ensures { ReadMatches content_of_line result (image_content (words_of line.now)) }
{
    let (image, rest) = hex_at(line, 2, 2)?;
    ended(Line::Set(ConfigLine::Image(image)), 2, rest)
}

/// Parses the word `HEX` after `check`.
#[tactic(auto, unfolding(crate::specs::Lines::check_content))]
pub(crate) fn check(line: &[u8]) -> Result<Line<'_, 'static>, LineFault>
    ensures { ReadMatches content_of_line result (check_content (words_of line.now)) }
{
    let (front, rest) = hex_at(line, 2, 2)?;
    ended(Line::Set(ConfigLine::Check(front)), 2, rest)
}

/// Parses the words `A R` after `limits`.
#[tactic(auto, unfolding(crate::specs::Lines::limits_content))]
pub(crate) fn limits(line: &[u8]) -> Result<Line<'_, 'static>, LineFault>
    ensures { ReadMatches content_of_line result (limits_content (words_of line.now)) }
{
    let (actions, rest) = number_at(line, 2, 3)?;
    let (restarts, rest) = short_at(rest, 3, 3)?;
    ended(Line::Limits { actions, restarts }, 3, rest)
}

/// Returns the fault of word `n`, which stands for no file: NoFile if the word is FILE, and Word with the field Bytes for any other word.
fn no_file_fault(word: &[u8], n: usize) -> LineFault
    ensures { result ≡ no_file_fault word.now n }
{
    if is_word(word, b"FILE") {
        LineFault::NoFile
    } else {
        LineFault::Word(Field::Bytes, n)
    }
}

/// Parses the next word of `line`, which is word `n`, as a file. Returns the file and the rest of the line. A whole line has `of` words.
/// `given` holds the bytes that FILE stands for.
#[tactic(auto, unfolding(crate::specs::Lines::offered_file))]
fn file_at<'l, 'g>(
    given: Option<&'g [u8]>,
    line: &'l [u8],
    n: usize,
    of: usize,
) -> Result<(Offered<'l, 'g>, &'l [u8]), LineFault>
    ensures { ReadMatches (λ x. (offered_bytes x.0, words_of x.1.now)) result
        (offered_file (given_bytes given.entry) n of (words_of line.now)) }
{
    let Some((word, rest)) = word_at(line) else {
        return Err(LineFault::Count(of));
    };
    match offered(given, word) {
        Some(file) => Ok((file, rest)),
        None => Err(no_file_fault(word, n)),
    }
}

/// Parses the word `HEX` or `FILE` after `offer` or `verify`. `given` holds the bytes that FILE stands for.
#[tactic(auto, unfolding(crate::specs::Lines::offer_content))]
pub(crate) fn offer<'l, 'g>(
    given: Option<&'g [u8]>,
    purpose: Purpose,
    line: &'l [u8],
) -> Result<Line<'l, 'g>, LineFault>
    ensures { ReadMatches content_of_line result (offer_content (given_bytes given.entry) purpose (words_of line.now)) }
{
    let (file, rest) = file_at(given, line, 2, 2)?;
    ended(Line::Do(EventLine::Offer { purpose, file }), 2, rest)
}

/// Parses the word `MS` after `time`.
#[tactic(auto, unfolding(crate::specs::Lines::time_of))]
pub(crate) fn time(line: &[u8]) -> Result<Line<'_, 'static>, LineFault>
    ensures { ReadMatches content_of_line result (time_of (words_of line.now)) }
{
    let (ms, rest) = number_at(line, 2, 2)?;
    ended(Line::Do(EventLine::Time(ms)), 2, rest)
}

/// Parses the word `CODE` after `refuse`.
#[tactic(auto, unfolding(crate::specs::Lines::refuse_content))]
pub(crate) fn refuse(line: &[u8]) -> Result<Line<'_, 'static>, LineFault>
    ensures { ReadMatches content_of_line result (refuse_content (words_of line.now)) }
{
    let (objection, rest) = field!(line, 2, 2, Objection, fields::objection);
    ended(Line::Do(EventLine::Refuse(objection)), 2, rest)
}

/// Parses the text of `expect TEXT`: everything after `expect` and one space.
///
/// # Errors
///
/// NoText if no text follows.
#[tactic(auto, unfolding(crate::specs::Lines::expect_content), using(std::proofs::lemmas::Bool::Decides::nat_tests))]
pub(crate) fn expect(line: &[u8]) -> Result<Line<'_, 'static>, LineFault>
    ensures { ReadMatches content_of_line result (expect_content line.now) }
{
    match text_behind(line) {
        Some(text) => {
            if text.is_empty() {
                Err(LineFault::NoText)
            } else {
                Ok(Line::Expect(text))
            }
        }
        None => Err(LineFault::NoText),
    }
}
