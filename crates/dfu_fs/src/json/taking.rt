//! Parsing of a line, part by part of a form.

ghost use Rattle.std.specs.Prelude.{◌≡◌, IfOk, MatchBool, MatchOption, OnOk, None, Some};
ghost use Rattle.std.specs.Char.{is_ascii_digit};
ghost use Rattle.std.specs.List.{list_all};
ghost use Rattle.dfu_fs.specs.Parts.{is_json_number, with_key, with_list, with_part, with_key_and_value, with_value};

use crate::json::arrays::push_array;
use crate::json::name::Name;
use crate::json::part::{LinePart, WordKind};
use crate::json::quoting::push_quoted;
use crate::json::words::{list_length, rest_after, word_in};
use std::alloc::AllocError;

/// Returns true if each byte of `word` is a digit.
fn has_only_digits(word: &[u8]) -> bool
    ensures { result ≡ list_all is_ascii_digit word.now }
{
    word.iter().all(|byte| byte.is_ascii_digit())
}

/// Returns true if `word` is a JSON number or empty: it has only digits, and no leading 0 unless it has a single digit.
fn is_json_number(word: &[u8]) -> bool
    ensures { result ≡ is_json_number word.now }
{
    has_only_digits(word) && (word.len() <= 1 || word[0] != b'0')
}

/// Adds the key of a member and a colon to `out`, after a comma if `out` already has members.
#[inline(never)]
#[tactic(auto, unfolding(crate::specs::Parts::with_key))]
fn push_key(out: &mut Vec<u8>, key: Name) -> Result<(), AllocError>
    ensures { OnOk result (out.new.items ≡ with_key out.old.items key) }
{
    if !out.is_empty() {
        out.extend_from_slice(b",")?;
    }
    push_quoted(out, key.text().as_bytes())?;
    out.extend_from_slice(b":")
}

/// If `word` is of `kind`, adds its value to `out` and returns true. Otherwise returns false.
#[tactic(auto, unfolding(crate::specs::Parts::with_value))]
fn push_value(out: &mut Vec<u8>, kind: WordKind, word: &[u8]) -> Result<bool, AllocError>
    ensures { IfOk result (λ fits. MatchBool fits (with_value kind out.old.items word.now ≡ Some out.new.items)
        (with_value kind out.old.items word.now ≡ None)) }
{
    match kind {
        WordKind::Number => {
            if !is_json_number(word) {
                return Ok(false);
            }
            out.extend_from_slice(word)?;
            Ok(true)
        }
        WordKind::Flag => {
            if word == b"yes".as_slice() {
                out.extend_from_slice(b"true")?;
                return Ok(true);
            }
            if word == b"no".as_slice() {
                out.extend_from_slice(b"false")?;
                return Ok(true);
            }
            Ok(false)
        }
        WordKind::Word => {
            push_quoted(out, word)?;
            Ok(true)
        }
        WordKind::Inner(key) => {
            out.extend_from_slice(b"{")?;
            push_quoted(out, key.text().as_bytes())?;
            out.extend_from_slice(b":")?;
            push_quoted(out, word)?;
            Ok(true)
        }
    }
}

/// Takes the first word of `line` as the value of `key`, and returns the words after it. Returns None if there is no word of `kind`.
fn take_value<'l>(
    out: &mut Vec<u8>,
    key: Name,
    kind: WordKind,
    line: &'l [u8],
) -> Result<Option<&'l [u8]>, AllocError>
    ensures { IfOk result (λ r. MatchOption r (with_key_and_value key kind out.old.items line.now ≡ None)
        (λ rest. with_key_and_value key kind out.old.items line.now ≡ Some (out.new.items, rest.now))) }
{
    let Some((word, rest)) = word_in(line) else {
        return Ok(None);
    };
    push_key(out, key)?;
    if push_value(out, kind, word)? {
        return Ok(Some(rest));
    }
    Ok(None)
}

/// Takes the list at the beginning of `line` as the value of `key`, and returns the words after it.
fn take_list<'l>(out: &mut Vec<u8>, key: Name, line: &'l [u8]) -> Result<&'l [u8], AllocError>
    ensures { IfOk result (λ rest. with_list key out.old.items line.now ≡ Some (out.new.items, rest.now)) }
{
    push_key(out, key)?;
    let count = list_length(line);
    let (words, behind) = line.split_at(count);
    push_array(out, words)?;
    if behind.is_empty() {
        return Ok(behind);
    }
    let (_, rest) = line.split_at(count + 1);
    Ok(rest)
}

/// Matches `part` with the beginning of `line`, adds its member to `out`, and returns the words after it. Returns None if `line` doesn't
/// begin with the words of the part.
#[tactic(auto, unfolding(crate::specs::Parts::with_part))]
pub(crate) fn take_part<'l>(
    out: &mut Vec<u8>,
    part: LinePart,
    line: &'l [u8],
) -> Result<Option<&'l [u8]>, AllocError>
    ensures { IfOk result (λ r. MatchOption r (with_part part out.old.items line.now ≡ None)
        (λ rest. with_part part out.old.items line.now ≡ Some (out.new.items, rest.now))) }
{
    match part {
        LinePart::Says(key, word) => {
            let Some(rest) = rest_after(line, word.text()) else {
                return Ok(None);
            };
            push_key(out, key)?;
            push_quoted(out, word.text().as_bytes())?;
            Ok(Some(rest))
        }
        LinePart::Value(key, kind) => take_value(out, key, kind, line),
        LinePart::Pair(key, kind) => match rest_after(line, key.text()) {
            Some(rest) => take_value(out, key, kind, rest),
            None => Ok(None),
        },
        LinePart::List(word, key) => match rest_after(line, word.text()) {
            Some(rest) => Ok(Some(take_list(out, key, rest)?)),
            None => Ok(None),
        },
        LinePart::Rest(key) => {
            push_key(out, key)?;
            push_array(out, line)?;
            out.extend_from_slice(b"}")?;
            Ok(Some(&[]))
        }
        LinePart::Without(key) => {
            push_key(out, key)?;
            push_array(out, &[])?;
            Ok(Some(line))
        }
        LinePart::Blank => Ok(Some(line)),
    }
}
