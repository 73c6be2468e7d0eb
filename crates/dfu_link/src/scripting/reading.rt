//! Parses a line by its first word, and a `go` line by its fate.

ghost use Rattle.dfu_link.specs.Words.{ReadingMatches, words_of};
ghost use Rattle.dfu_sim.specs.Happening.{fate_of, harm_of_fate};
ghost use Rattle.dfu_link.specs.LineContent.{given_bytes, content_of_line, Go, Does, harm_fate};
ghost use Rattle.dfu_link.specs.Lines.{ReadMatches, line_ends, pass_content, slip_content, harmed_content, until_content, content_by_fate, go_content, by_keyword, read_line, line_of};

use crate::scripting::fault::{Field, LineFault, Reason, Stopped};
use crate::scripting::fields::{field, hex_at, number_at};
use crate::scripting::line::{EventLine, HarmKind, Line};
use crate::scripting::line_forms::{
    capacity, check, device, erase, expect, ids, image, limits, offer, pace, refuse, time, unit,
};
use crate::scripting::words;
use crate::scripting::words::{
    FateKeyword, Keyword, ended, is_comment, is_word, read_fate, read_keyword, word_at,
};
use dfu_sim::{Fate, Purpose};

/// Largest number of bytes of a line, without its line feed.
pub(crate) const MAX_LINE: usize = 65_536;

/// Parses the word `N` after `go pass`.
#[tactic(auto, unfolding(crate::specs::Lines::pass_content))]
fn pass(line: &[u8]) -> Result<Line<'_, 'static>, LineFault>
    ensures { ReadMatches content_of_line result (pass_content (words_of line.now)) }
{
    let (times, rest) = field!(line, 3, 3, Times, words::count, 1_000_000);
    let fate = Fate::Pass;
    ended(Line::Do(EventLine::Go { fate, times }), 3, rest)
}

/// Returns the line of one action with `fate`, or a fault if another word follows.
fn once<'l>(fate: Fate<'l>, of: usize, rest: &[u8]) -> Result<Line<'l, 'static>, LineFault>
    ensures { ReadMatches content_of_line result (line_ends (Does (Go (fate_of fate.entry) (harm_of_fate fate.entry) 1)) of
        (words_of rest.now)) }
{
    ended(Line::Do(EventLine::Go { fate, times: 1 }), of, rest)
}

/// Parses the word `MS` after `go slip`.
#[tactic(auto, unfolding(crate::specs::Lines::slip_content))]
fn slip(line: &[u8]) -> Result<Line<'_, 'static>, LineFault>
    ensures { ReadMatches content_of_line result (slip_content (words_of line.now)) }
{
    let (ms, rest) = number_at(line, 3, 3)?;
    once(Fate::Slip(ms), 3, rest)
}

/// Parses the words `W HEX` after `go cut`, `go fail` or `go lie`.
#[tactic(auto, unfolding(crate::specs::Lines::harmed_content))]
fn harmed(harm: HarmKind, line: &[u8]) -> Result<Line<'_, 'static>, LineFault>
    ensures { ReadMatches content_of_line result (harmed_content (harm_fate harm) (words_of line.now)) }
{
    let (writes, rest) = number_at(line, 3, 4)?;
    let (tear, rest) = hex_at(rest, 4, 4)?;
    let events = EventLine::GoHarmed { harm, writes, tear };
    ended(Line::Do(events), 4, rest)
}

/// Parses the word `report` after `go until`.
#[tactic(auto, unfolding(crate::specs::Lines::until_content))]
fn until(line: &[u8]) -> Result<Line<'_, 'static>, LineFault>
    ensures { ReadMatches content_of_line result (until_content (words_of line.now)) }
{
    let Some((word, rest)) = word_at(line) else {
        return Err(LineFault::Count(3));
    };
    if !is_word(word, b"report") {
        return Err(LineFault::Word(Field::Report, 3));
    }
    ended(Line::Do(EventLine::GoOn), 3, rest)
}

/// Parses the words after a fate or `until`.
fn by_fate(keyword: FateKeyword, rest: &[u8]) -> Result<Line<'_, 'static>, LineFault>
    ensures { ReadMatches content_of_line result (content_by_fate keyword (words_of rest.now)) }
{
    match keyword {
        FateKeyword::Pass => pass(rest),
        FateKeyword::LostOut => once(Fate::LostOut, 2, rest),
        FateKeyword::LostBack => once(Fate::LostBack, 2, rest),
        FateKeyword::Twice => once(Fate::Twice, 2, rest),
        FateKeyword::TwiceLostBack => once(Fate::TwiceLostBack, 2, rest),
        FateKeyword::Slip => slip(rest),
        FateKeyword::Cut => harmed(HarmKind::Cut, rest),
        FateKeyword::Fail => harmed(HarmKind::Fail, rest),
        FateKeyword::Lie => harmed(HarmKind::Lie, rest),
        FateKeyword::Until => until(rest),
    }
}

/// Parses the words after `go`: a fate or `until`, and the words that follow it.
#[tactic(auto, unfolding(crate::specs::Lines::go_content))]
fn go(line: &[u8]) -> Result<Line<'_, 'static>, LineFault>
    ensures { ReadMatches content_of_line result (go_content (words_of line.now)) }
{
    let Some((word, rest)) = word_at(line) else {
        return Err(LineFault::NoFate);
    };
    match read_fate(word) {
        Some(keyword) => by_fate(keyword, rest),
        None => Err(LineFault::Fate),
    }
}

/// Parses a line whose first word is `keyword`. `rest` is the text after that word.
fn by_keyword<'l, 'g>(
    given: Option<&'g [u8]>,
    keyword: Keyword,
    line: &'l [u8],
    rest: &'l [u8],
) -> Result<Line<'l, 'g>, LineFault>
    ensures { ReadMatches content_of_line result (by_keyword (given_bytes given.entry) keyword line.now (words_of rest.now)) }
{
    match keyword {
        Keyword::Ids => ids(rest),
        Keyword::Device => device(rest),
        Keyword::Unit => unit(rest),
        Keyword::Erase => erase(rest),
        Keyword::Pace => pace(rest),
        Keyword::Capacity => capacity(rest),
        Keyword::Image => image(rest),
        Keyword::Limits => limits(rest),
        Keyword::Offer => offer(given, Purpose::Install, rest),
        Keyword::Verify => offer(given, Purpose::Verify, rest),
        Keyword::Upload => ended(Line::Do(EventLine::Upload), 1, rest),
        Keyword::Abort => ended(Line::Do(EventLine::Abort), 1, rest),
        Keyword::Go => go(rest),
        Keyword::Time => time(rest),
        Keyword::Reset => ended(Line::Do(EventLine::Reset), 1, rest),
        Keyword::Cut => ended(Line::Do(EventLine::Cut), 1, rest),
        Keyword::Show => ended(Line::Show, 1, rest),
        Keyword::Expect => expect(line),
        Keyword::Check => check(rest),
        Keyword::Refuse => refuse(rest),
    }
}

/// Returns the meaning of a line, or its fault. `given` holds the bytes that FILE stands for. A line of over 65,536 bytes is not one of the
/// language.
#[tactic(auto, unfolding(crate::specs::Lines::read_line))]
fn read_line<'l, 'g>(given: Option<&'g [u8]>, line: &'l [u8]) -> Result<Line<'l, 'g>, LineFault>
    ensures { ReadMatches content_of_line result (read_line (given_bytes given.entry) line.now) }
{
    if line.len() > MAX_LINE {
        return Err(LineFault::Long);
    }
    match word_at(line) {
        None => Ok(Line::Blank),
        Some((word, rest)) => {
            if is_comment(word) {
                return Ok(Line::Blank);
            }
            match read_keyword(word) {
                Some(keyword) => by_keyword(given, keyword, line, rest),
                None => Err(LineFault::Keyword),
            }
        }
    }
}

/// Returns the meaning of a line, or None if it is not one of the language. `given` holds the bytes that FILE stands for.
#[tactic(auto, unfolding(crate::specs::Lines::line_of))]
pub(crate) fn parse<'l, 'g>(given: Option<&'g [u8]>, line: &'l [u8]) -> Option<Line<'l, 'g>>
    ensures { ReadingMatches content_of_line result (line_of (given_bytes given.entry) line.now) }
{
    match read_line(given, line) {
        Ok(said) => Some(said),
        Err(_) => None,
    }
}

/// Returns the number of words of a line.
fn count_words(line: &[u8]) -> usize {
    let mut words: usize = 0;
    let mut is_in = false;
    for byte in line {
        let is_of_word = *byte != b' ';
        if is_of_word && !is_in {
            words = words.saturating_add(1);
        }
        is_in = is_of_word;
    }
    words
}

/// Stores the reason why a line is not one of the language: a byte outside 20h to 7Eh, or else the fault of the line.
pub(crate) fn note_line(stopped: &Stopped, given: Option<&[u8]>, line: &[u8]) {
    if !line.iter().all(|byte| matches!(*byte, b' '..=b'~')) {
        stopped.note_reason(Reason::Unprintable {
            begins: line.starts_with(b"\xef\xbb\xbf"),
            ends: line.ends_with(b"\r"),
        });
    } else if let Err(fault) = read_line(given, line) {
        stopped.note_reason(Reason::Line(fault, count_words(line)));
    }
}
