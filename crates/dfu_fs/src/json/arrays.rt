//! Arrays of strings (RFC 8259, section 5).

ghost use Rattle.std.specs.Prelude.{◌≡◌, ◌++◌, OnOk};
ghost use Rattle.std.specs.List.{flat_map};
ghost use Rattle.dfu_fs.specs.Quoted.{array_of_words, array_word_byte};

use crate::json::quoting::push_escaped;
use std::alloc::AllocError;

/// Adds `byte`, which belongs to the words of an array, to `out`. A space ends a string and begins the next one.
#[tactic(auto, unfolding(crate::specs::Quoted::array_word_byte))]
fn push_array_byte(out: &mut Vec<u8>, byte: u8) -> Result<(), AllocError>
    ensures { OnOk result (out.new.items ≡ out.old.items ++ array_word_byte byte) }
{
    if byte == b' ' {
        return out.extend_from_slice(b"\",\"");
    }
    push_escaped(out, byte)
}

/// Adds `words`, the strings of an array between the outer quotes, to `out`.
fn push_array_bytes(out: &mut Vec<u8>, words: &[u8]) -> Result<(), AllocError>
    ensures { OnOk result (out.new.items ≡ out.old.items ++ flat_map array_word_byte words.now) }
{
    for byte in words {
        push_array_byte(out, *byte)?;
    }
    Ok(())
}

/// Adds the array of `words`, which single spaces separate, to `out`; an empty array if there are none.
#[inline(never)]
#[tactic(auto, unfolding(crate::specs::Quoted::array_of_words))]
pub(crate) fn push_array(out: &mut Vec<u8>, words: &[u8]) -> Result<(), AllocError>
    ensures { OnOk result (out.new.items ≡ out.old.items ++ array_of_words words.now) }
{
    if words.is_empty() {
        return out.extend_from_slice(b"[]");
    }
    out.extend_from_slice(b"[\"")?;
    push_array_bytes(out, words)?;
    out.extend_from_slice(b"\"]")
}
