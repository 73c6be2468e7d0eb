//! Lines for standard error that give a reason.

ghost use Rattle.std.specs.Prelude.{◌≡◌, ◌∷◌, [], IfOk, MatchOption, chars};
ghost use Rattle.std.specs.String.{string_bytes};
ghost use Rattle.dfu_output.specs.ReasonLines.{name_before, reason_line};
ghost use Rattle.dfu_output.specs.ShownText.{visible_character, visible_prefix};

use crate::fields::{field, push};
use std::alloc::{AllocError, Global};

/// Largest number of characters of a name in a line.
const SHOWN_CHARACTERS: u32 = 4096;

/// Returns `letter`, or `?` if it is a control character.
fn plain(letter: char) -> char
    ensures { result ≡ visible_character letter }
{
    if letter.is_control() { '?' } else { letter }
}

/// Returns the first character of `text` and the text after it, or None if `text` is empty.
fn first_of(text: &str) -> Option<(char, &str)>
    ensures { MatchOption result (chars text.now ≡ []) (λ (c, rest). chars text.now ≡ c ∷ chars rest.now) }
{
    let mut letters = text.chars();
    match letters.next() {
        Some(letter) => Some((letter, letters.as_str())),
        None => None,
    }
}

/// Returns the first 4,096 characters of `text` or fewer, with `?` for each control character. The result is a single line, and a terminal
/// doesn't interpret it.
fn shown(alloc: Global, text: &str) -> Result<String, AllocError>
    ensures { IfOk result (λ t. string_bytes t ≡ visible_prefix 4096 text.now) }
{
    let mut line = String::new(alloc);
    let mut rest = text;
    let mut room = SHOWN_CHARACTERS;
    'letters: while room > 0 {
        let Some((letter, after)) = first_of(rest) else {
            return Ok(line);
        };
        line.push(plain(letter))?;
        rest = after;
        room -= 1;
    }
    Ok(line)
}

/// Returns the line with a reason: `dfu: LABELNAME: WHY`. `label` and `name` are the subject, and `why` is the reason. Control characters
/// in `name` are replaced by `?`.
///
/// # Errors
///
/// AllocError if there is no memory for the line.
#[tactic(auto, unfolding(crate::specs::ReasonLines::reason_line))]
pub fn reason_line(alloc: Global, label: &str, name: &str, why: &str) -> Result<String, AllocError>
    ensures { IfOk result (λ t. string_bytes t ≡ reason_line label.now name.now why.now) }
{
    let mut line = String::from_str(alloc, "dfu: ")?;
    let name = shown(alloc, name)?;
    field(&mut line, label, &name)?;
    field(&mut line, ": ", why)?;
    push(&mut line, "\n")?;
    Ok(line)
}

/// Returns the prefix of each line about the file `name`, one of several files: at most 4,096 characters of the name, a colon and a space.
/// Control characters in `name` are replaced by `?`.
///
/// # Errors
///
/// AllocError if there is no memory for the text.
#[tactic(auto, unfolding(crate::specs::ReasonLines::name_before))]
pub fn name_before(alloc: Global, name: &str) -> Result<String, AllocError>
    ensures { IfOk result (λ t. string_bytes t ≡ name_before name.now) }
{
    let mut line = shown(alloc, name)?;
    push(&mut line, ": ")?;
    Ok(line)
}
