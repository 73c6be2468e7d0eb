//! The name of a memory, at the front of its map's string.

ghost use Rattle.std.specs.Prelude.{◌≡◌, ◌<◌, length, IfSome};
ghost use Rattle.std.specs.List.{position};
ghost use Rattle.dfu_formats.specs.memory.Reading.{is_slash, trimmed_name, map_name_at};

use crate::memory::fault::MapFault;
use crate::memory::text::behind;
use std::marker::Model;

/// A name and the text after it.
#[derive(Drop)]
pub(crate) struct Named<'t> {
    pub name: &'t [u8],
    pub rest: &'t [u8],
}

impl<'t> Model for Named<'t> {
    ghost use Rattle.dfu_formats.specs.memory.Reading.{Named};

    ghost Value = { Named };

    ghost view = { λ n. record { name = n.name.now; rest = n.rest.now } };
}

/// Returns `bytes` without the spaces at their end.
fn trimmed(bytes: &[u8]) -> &[u8]
    ensures { result.now ≡ trimmed_name bytes.now }
{
    let mut end = 0;
    let mut count = 0;
    for byte in bytes {
        count += 1;
        if *byte != b' ' {
            end = count;
        }
    }
    let (kept, _) = bytes.split_at(end);
    kept
}

/// Returns the index of the first `/` in `text`, or None.
fn slash_in(text: &[u8]) -> Option<usize>
    ensures value { result ≡ position is_slash text.now }
    ensures within { IfSome result (λ at. at < length text.now) }
{
    text.iter().position(|byte| *byte == b'/')
}

/// Splits the name between `@` and the first `/` off the front of `text`. Spaces at the end of the name are removed.
#[tactic(auto, using(std::proofs::lemmas::Bool::Decides::nat_tests), unfolding(crate::specs::memory::Reading::map_name_at))]
pub(crate) fn take_name(text: &[u8]) -> Result<Named<'_>, MapFault>
    ensures { result ≡ map_name_at text.now }
{
    let Some(name) = behind(b'@', text) else {
        return Err(MapFault::NoMap);
    };
    let Some(end) = slash_in(name) else {
        return Err(MapFault::NoMap);
    };
    let (front, _) = name.split_at(end);
    let (_, rest) = name.split_at(end + 1);
    Ok(Named {
        name: trimmed(front),
        rest,
    })
}
