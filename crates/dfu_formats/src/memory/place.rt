//! Start addresses of ranges. A range begins at an address of its own, or at the end of the range before it.

ghost use Rattle.std.specs.Prelude.{◌≡◌, ◌<◌, ◌^◌, IfOk, IfSome};
ghost use Rattle.dfu_formats.specs.memory.Reading.{text_after_prefix, address_at, next_range_place};

use crate::memory::digits::take_number;
use crate::memory::fault::MapFault;
use crate::memory::text::{Number, behind, front};

/// Returns the text after `0x` or `0X`, or all of `text` if it begins with neither.
#[tactic(auto, using(std::proofs::lemmas::Bool::Decides::nat_tests), unfolding(crate::specs::memory::Reading::text_after_prefix))]
fn text_after_prefix(text: &[u8]) -> &[u8]
    ensures { result.now ≡ text_after_prefix text.now }
{
    match front(text) {
        Some((b'0', digits)) => match front(digits) {
            Some((b'x' | b'X', rest)) => rest,
            _ => text,
        },
        _ => text,
    }
}

/// Splits an address, and the `/` after it, off the front of `text`.
#[tactic(auto, using(std::proofs::lemmas::Bool::Decides::nat_tests), unfolding(crate::specs::memory::Reading::address_at))]
pub(crate) fn take_address(text: &[u8]) -> Result<Number<'_>, MapFault>
    ensures value { result ≡ address_at text.now }
    ensures small { IfOk result (λ n. n.value < 2 ^ 33) }
{
    match take_number(16, 8, text_after_prefix(text)) {
        Some(number) => match behind(b'/', number.rest) {
            Some(rest) => Ok(Number {
                value: number.value,
                rest,
            }),
            None => Err(MapFault::BadAddress),
        },
        None => Err(MapFault::BadAddress),
    }
}

/// Splits the start of the next range off the front of `text`, after a range that ends at `end`. Returns None at the end of the text.
#[tactic(auto, using(std::proofs::lemmas::Bool::Decides::nat_tests), unfolding(crate::specs::memory::Reading::next_range_place))]
pub(crate) fn take_next(end: u64, text: &[u8]) -> Result<Option<Number<'_>>, MapFault>
    requires { end < 2 ^ 33 }
    ensures value { result ≡ next_range_place end text.now }
    ensures small { IfOk result (λ o. IfSome o (λ n. n.value < 2 ^ 33)) }
{
    match front(text) {
        None => Ok(None),
        Some((b',', rest)) => Ok(Some(Number { value: end, rest })),
        Some((b'/', rest)) => match take_address(rest) {
            Ok(place) => Ok(Some(place)),
            Err(fault) => Err(fault),
        },
        Some(_) => Err(MapFault::Trailing),
    }
}
