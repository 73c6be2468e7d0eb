//! Fields of a target before its elements.

ghost use Rattle.std.specs.Prelude.{◌≡◌};
ghost use Rattle.dfu_formats.specs.dfuse.Reading.{heading_at};

use crate::dfuse::fault::FileFault;
use crate::dfuse::marks::is_target;
use crate::dfuse::numbers::number_at;
use std::marker::Model;

/// Fields of a target before its elements, the encoded elements, and the bytes after the target.
#[derive(Drop)]
pub(crate) struct Heading<'f> {
    pub setting: u8,
    pub named: u32,
    pub name: &'f [u8],
    pub count: u32,
    pub content: &'f [u8],
    pub rest: &'f [u8],
}

impl<'f> Model for Heading<'f> {
    ghost use Rattle.dfu_formats.specs.dfuse.Reading as reading;

    ghost Value = { reading.Heading };

    ghost view = { λ h. record {
      setting = h.setting;
      named = h.named;
      name = h.name.now;
      count = h.count;
      content = h.content.now;
      rest = h.rest.now;
    } };
}

/// Splits the first target off `bytes`: 274 bytes of fields, and then its encoded elements. The fault is NoTarget or BadTargetSize.
#[tactic(auto, using(std::proofs::lemmas::Bool::Decides::nat_tests), unfolding(crate::specs::dfuse::Reading::heading_at))]
pub(crate) fn take_heading(bytes: &[u8]) -> Result<Heading<'_>, FileFault>
    ensures { result ≡ heading_at bytes.now }
{
    if bytes.len() < 274 {
        return Err(FileFault::NoTarget);
    }
    if !is_target(bytes) {
        return Err(FileFault::NoTarget);
    }
    let size = number_at(266, bytes) as usize;
    let (_, behind) = bytes.split_at(274);
    if behind.len() < size {
        return Err(FileFault::BadTargetSize);
    }
    let (_, named) = bytes.split_at(11);
    let (name, _) = named.split_at(255);
    let (content, rest) = behind.split_at(size);
    Ok(Heading {
        setting: bytes[6],
        named: number_at(7, bytes),
        name,
        count: number_at(270, bytes),
        content,
        rest,
    })
}
