//! Hexadecimal digits from texts in the forms that other programs print.

ghost use Rattle.std.specs.Prelude.{◌≡◌, IfOk, fold, map};
ghost use Rattle.std.specs.String.{string_bytes};
ghost use Rattle.dfu_cmd.specs.HexWords.{digits_of_words, is_byte_separator, is_hex_prefix_x, digits_after_byte, digits_after_word};

use std::alloc::{AllocError, Global};

/// Returns true if `byte` separates bytes: a space, a tab, a line feed, a carriage return, a colon or a comma.
fn is_byte_separator(byte: u8) -> bool
    ensures { result ≡ is_byte_separator byte }
{
    byte == b' ' || byte == b'\t' || byte == b'\n' || byte == b'\r' || byte == b':' || byte == b','
}

/// Returns true if `byte`, the character after `digits`, is the x or X of a 0x before a byte.
fn is_prefix_x(digits: &[u8], byte: u8) -> bool
    ensures { result ≡ is_hex_prefix_x digits.now byte }
{
    if byte != b'x' && byte != b'X' || digits.len() % 2 != 1 {
        return false;
    }
    digits[digits.len() - 1] == b'0'
}

/// Returns `digits` after one more character, `byte`. A separator inside a byte adds `?`, which isn't a digit.
#[tactic(auto, using(std::proofs::lemmas::Bool::Decides::nat_tests), unfolding(crate::specs::HexWords::digits_after_byte))]
fn with_character(mut digits: Vec<u8>, byte: u8) -> Result<Vec<u8>, AllocError>
    ensures { IfOk result (λ v. v.items ≡ digits_after_byte digits.items byte) }
{
    if is_byte_separator(byte) {
        if digits.len() % 2 == 0 {
            return Ok(digits);
        }
        digits.extend_from_slice(b"?")?;
        return Ok(digits);
    }
    if is_prefix_x(&digits, byte) {
        digits.truncate(digits.len() - 1);
        return Ok(digits);
    }
    digits.extend_from_slice(&[byte])?;
    Ok(digits)
}

/// Returns `digits` after the characters of `word`. The end of the word separates bytes, like a space.
fn with_word(digits: Vec<u8>, word: &str) -> Result<Vec<u8>, AllocError>
    ensures { IfOk result (λ v. v.items ≡ digits_after_word digits.items word.now) }
{
    let mut digits = digits;
    for byte in word.as_bytes() {
        digits = with_character(digits, *byte)?;
    }
    with_character(digits, b' ')
}

/// Returns the digits of the bytes in `words`. Separators between bytes (spaces, tabs, line ends, colons and commas) and a 0x before a byte
/// are left out. A separator inside a byte adds `?`, which isn't a digit.
pub(crate) fn bare(alloc: Global, words: &[String]) -> Result<Vec<u8>, AllocError>
    ensures { IfOk result (λ v. v.items ≡ digits_of_words (map string_bytes words.now)) }
{
    let mut digits = Vec::new(alloc);
    for word in words {
        digits = with_word(digits, word)?;
    }
    Ok(digits)
}
