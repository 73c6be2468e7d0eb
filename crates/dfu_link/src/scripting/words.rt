//! Words of a line: their bounds, numbers, and keywords.

ghost use Rattle.std.specs.Prelude.{◌≡◌, ◌≤◌, ◌+◌, ◌*◌, Some, None, IfSome};
ghost use Rattle.std.specs.List.{position};
ghost use Rattle.std.specs.Str.{bytes_eq};
ghost use Rattle.dfu_link.specs.Words.{ReadingMatches, is_space, is_no_space, words_of, first_word, text_behind, number_of};
ghost use Rattle.dfu_link.specs.LineContent.{content_of_line};
ghost use Rattle.dfu_link.specs.Lines.{ReadMatches, is_comment, line_ends};
ghost use Rattle.dfu_link.specs.Fields.{number_at_most, count_of};
ghost use Rattle.dfu_link.specs.Keywords.{keyword_of, later_keyword_of, fate_keyword_of};

use crate::scripting::fault::LineFault;
use crate::scripting::line::Line;

/// Returns the index of the first space; None if there is none.
fn space_at(line: &[u8]) -> Option<usize>
    ensures { result ≡ position is_space line.now }
{
    line.iter().position(|byte| *byte == b' ')
}

/// Returns the index of the first byte that isn't a space; None if there is none.
fn start_at(line: &[u8]) -> Option<usize>
    ensures { result ≡ position is_no_space line.now }
{
    line.iter().position(|byte| *byte != b' ')
}

/// Returns the first word and the rest of the line; None if the line has no word.
pub(crate) fn word_at(line: &[u8]) -> Option<(&[u8], &[u8])>
    ensures { ReadingMatches (λ x. (x.0.now, words_of x.1.now)) result (first_word (words_of line.now)) }
{
    let start = start_at(line)?;
    let (_, line) = line.split_at(start);
    match space_at(line) {
        Some(end) => Some(line.split_at(end)),
        None => Some((line, &[])),
    }
}

/// Returns the text after the first word and one space; None if the line has no word, or no space after it.
#[tactic(auto, unfolding(crate::specs::Words::text_behind))]
pub(crate) fn text_behind(line: &[u8]) -> Option<&[u8]>
    ensures { ReadingMatches (λ x. x.now) result (text_behind line.now) }
{
    let start = start_at(line)?;
    let (_, line) = line.split_at(start);
    let end = space_at(line)?;
    let (_, text) = line.split_at(end + 1);
    Some(text)
}

/// Returns true if a word equals the text.
pub(crate) fn is_word(word: &[u8], text: &[u8]) -> bool
    ensures { result ≡ bytes_eq word.now text.now }
{
    word == text
}

/// Returns true if a line that begins with `word` is a comment.
pub(crate) fn is_comment(word: &[u8]) -> bool
    ensures { result ≡ is_comment word.now }
{
    match word {
        [b'#', ..] => true,
        _ => false,
    }
}

/// Returns `said` if `rest` has no word. Otherwise returns Comment if a comment follows, or else Count, because the line must have `of`
/// words.
pub(crate) fn ended<'l, 'g>(
    said: Line<'l, 'g>,
    of: usize,
    rest: &[u8],
) -> Result<Line<'l, 'g>, LineFault>
    ensures { ReadMatches content_of_line result (line_ends (content_of_line said.entry) of (words_of rest.now)) }
{
    match word_at(rest) {
        None => Ok(said),
        Some((word, _)) => {
            if is_comment(word) {
                Err(LineFault::Comment)
            } else {
                Err(LineFault::Count(of))
            }
        }
    }
}

/// Parses `word` as a number of 1 to 10 decimal digits, at most 4,294,967,295; None if it is anything else.
pub(crate) fn number(word: &[u8]) -> Option<u32>
    ensures { ReadingMatches (λ n. n) result (number_of word.now) }
{
    if word.is_empty() || word.len() > 10 {
        return None;
    }
    let mut n = 0u64;
    for digit in word {
        if !digit.is_ascii_digit() {
            return None;
        }
        n = n * 10 + u64::from(*digit - b'0');
    }
    match u32::try_from(n) {
        Ok(n) => Some(n),
        Err(_) => None,
    }
}

/// Parses `word` as a number of at most `most`; None if it is anything else.
#[tactic(auto, unfolding(crate::specs::Fields::number_at_most), using(std::proofs::lemmas::Bool::Decides::nat_tests))]
pub(crate) fn small(word: &[u8], most: u32) -> Option<u32>
    ensures read { ReadingMatches (λ n. n) result (number_at_most most word.now) }
    ensures within_limit { IfSome result (λ n. n ≤ most) }
{
    let n = number(word)?;
    if n <= most { Some(n) } else { None }
}

/// Parses `word` as a number from 1 to `most`; None if it is anything else.
#[tactic(auto, unfolding(crate::specs::Fields::count_of), using(std::proofs::lemmas::Bool::Decides::nat_tests))]
pub(crate) fn count(word: &[u8], most: u32) -> Option<u32>
    ensures read { ReadingMatches (λ n. n) result (count_of most word.now) }
    ensures some { IfSome result (λ n. 1 ≤ n) }
    ensures within_limit { IfSome result (λ n. n ≤ most) }
{
    let n = small(word, most)?;
    if n > 0 { Some(n) } else { None }
}

/// Evaluates to the first variant of the table whose text equals the word, or to `$none` if no text does.
macro_rules! one_of {
    ($word:ident, $of:ident, $none:expr, { $text:literal => $variant:ident, $($texts:literal => $variants:ident,)* }) => {
        if is_word($word, $text) {
            Some($of::$variant)
        } $(else if is_word($word, $texts) {
            Some($of::$variants)
        })* else {
            $none
        }
    };
}

pub(crate) use one_of;

/// First word of a line.
#[derive(Clone, Copy)]
pub(crate) enum Keyword {
    Ids,
    Device,
    Unit,
    Erase,
    Pace,
    Capacity,
    Image,
    Limits,
    Offer,
    Verify,
    Upload,
    Abort,
    Go,
    Time,
    Reset,
    Cut,
    Show,
    Expect,
    Check,
    Refuse,
}

/// Word after `go`.
#[derive(Clone, Copy)]
pub(crate) enum FateKeyword {
    Pass,
    LostOut,
    LostBack,
    Twice,
    TwiceLostBack,
    Slip,
    Cut,
    Fail,
    Lie,
    Until,
}

/// Returns the keyword of `word`, if it is one of `limits` to `refuse`, the later ones of the list; None for any other word.
#[tactic(auto, unfolding(crate::specs::Keywords::later_keyword_of))]
fn read_later_keyword(word: &[u8]) -> Option<Keyword>
    ensures { result ≡ later_keyword_of word.now }
{
    one_of!(word, Keyword, None, {
        b"limits" => Limits,
        b"offer" => Offer,
        b"verify" => Verify,
        b"upload" => Upload,
        b"abort" => Abort,
        b"go" => Go,
        b"time" => Time,
        b"reset" => Reset,
        b"cut" => Cut,
        b"show" => Show,
        b"expect" => Expect,
        b"check" => Check,
        b"refuse" => Refuse,
    })
}

/// Returns the keyword of a line's first word; None if it is not a keyword.
#[tactic(auto, unfolding(crate::specs::Keywords::keyword_of))]
pub(crate) fn read_keyword(word: &[u8]) -> Option<Keyword>
    ensures { result ≡ keyword_of word.now }
{
    one_of!(word, Keyword, read_later_keyword(word), {
        b"ids" => Ids,
        b"device" => Device,
        b"unit" => Unit,
        b"erase" => Erase,
        b"pace" => Pace,
        b"capacity" => Capacity,
        b"image" => Image,
    })
}

/// Returns the keyword of the word after `go`; None if it is not a keyword.
#[tactic(auto, unfolding(crate::specs::Keywords::fate_keyword_of))]
pub(crate) fn read_fate(word: &[u8]) -> Option<FateKeyword>
    ensures { result ≡ fate_keyword_of word.now }
{
    one_of!(word, FateKeyword, None, {
        b"pass" => Pass,
        b"lostout" => LostOut,
        b"lostback" => LostBack,
        b"twice" => Twice,
        b"twicelostback" => TwiceLostBack,
        b"slip" => Slip,
        b"cut" => Cut,
        b"fail" => Fail,
        b"lie" => Lie,
        b"until" => Until,
    })
}
