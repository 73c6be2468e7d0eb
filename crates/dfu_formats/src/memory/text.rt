//! Parts that are split off the front of a text.

ghost use Rattle.std.specs.Prelude.{◌≡◌, [], ◌∷◌, Some, None, IfSome, MatchOption};
ghost use Rattle.dfu_formats.specs.memory.Reading.{text_after_byte};

use std::marker::Model;

/// A number and the text after it.
#[derive(Drop)]
pub(crate) struct Number<'t> {
    pub value: u64,
    pub rest: &'t [u8],
}

impl<'t> Model for Number<'t> {
    ghost use Rattle.dfu_formats.specs.memory.Reading.{NumberRead};

    ghost Value = { NumberRead };

    ghost view = { λ n. record { value = n.value; rest = n.rest.now } };
}

/// Returns the first byte of `text` and the text after it, or None if `text` is empty.
pub(crate) fn front(text: &[u8]) -> Option<(u8, &[u8])>
    ensures none { result ≡ None → text.now ≡ [] }
    ensures some { IfSome result (λ f. text.now ≡ f.0 ∷ f.1.now) }
{
    if text.len() == 0 {
        return None;
    }
    let byte = text[0];
    let (_, rest) = text.split_at(1);
    Some((byte, rest))
}

/// Returns the text after the first byte of `text`, or None if this byte isn't `byte`.
#[tactic(auto, using(std::proofs::lemmas::Bool::Decides::nat_tests), unfolding(crate::specs::memory::Reading::text_after_byte))]
pub(crate) fn behind(byte: u8, text: &[u8]) -> Option<&[u8]>
    ensures { MatchOption result (text_after_byte byte text.now ≡ None) (λ rest. text_after_byte byte text.now ≡ Some rest.now) }
{
    match front(text) {
        Some((first, rest)) if first == byte => Some(rest),
        _ => None,
    }
}
