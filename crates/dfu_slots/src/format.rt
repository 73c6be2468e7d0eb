//! Formats a medium: writes an image into the first slot, and ignores what the medium held before.
ghost use Rattle.std.specs.Prelude.{◌≤◌, ◌+◌, ◌++◌, [], length, take, replicate};
ghost use Rattle.dfu_slots.specs.inside.Carry.{MayWriteRange, MayWritePiece};
ghost use Rattle.dfu_slots.specs.inside.Series.{Series};
ghost use Rattle.dfu_slots.specs.Image.{IsSizedMedium};
ghost use Rattle.dfu_slots.specs.Writes.{write_some, image_writes, close_writes};
ghost use Rattle.dfu_slots.specs.Operations.{range_of, ops_writes, operations};
ghost use Rattle.dfu_slots.specs.declared.operation.Source.TheVariants.{Joined};
ghost use Rattle.dfu_slots.specs.declared.sequence.Sequence.TheVariants.{Image};
ghost use Rattle.dfu_slots.specs.StoreView.{format_series};
ghost use Rattle.dfu_slots.specs.Changes.{CanFormat};

use crate::gates::{close_gate, open_slot};
use crate::layout::{VERSION, fill_size, make_header};
use crate::operation::Op;
use crate::register::register_of_image;
use crate::sequence::{MAX_WRITE, Sequence};
use crate::writes::write_some;
use crate::{Medium, WriteFault};

// Writes `bytes` followed by zeros: `len` bytes in all, at most 4,096, with at most 256 zeros.
#[inline(never)]
fn write_padded<M: Medium>(
    medium: &mut M,
    at: u32,
    bytes: &[u8],
    len: usize,
) -> Result<(), WriteFault>
    requires may { MayWriteRange (M.state medium.old) at len }
    requires short { len ≤ 4096 }
    requires fits { length bytes.now ≤ len }
    requires few { len ≤ length bytes.now + 256 }
    ensures { let was = M.state medium.old in
        Series was (write_some was.grain.sector at (take len (bytes.now ++ replicate 256 0))) result (M.state medium.new) }
{
    let mut padded = [0; 4096];
    padded[..bytes.len()].copy_from_slice(bytes);
    write_some(medium, at, &padded[..len])
}

// Writes `len` bytes of an image, the first one at index `skip`. Bytes beyond the end of the image are zeros.
fn write_part<M: Medium>(
    medium: &mut M,
    at: u32,
    image: &[u8],
    skip: usize,
    len: usize,
) -> Result<(), WriteFault>
    requires may { MayWriteRange (M.state medium.old) at len }
    requires short { len ≤ 4096 }
    requires front { skip ≤ length image.now }
    requires few { skip + len ≤ length image.now + 256 }
    ensures { let was = M.state medium.old in
        Series was (write_some was.grain.sector at (range_of Joined [] image.now [] skip len)) result (M.state medium.new) }
{
    if len > image.len() - skip {
        return write_padded(medium, at, &image[skip..], len);
    }
    write_some(medium, at, &image[skip..skip + len])
}

// Writes one piece of an image into the data of the first slot: up to 4,096 bytes, beginning with the image's byte `from`. The last piece
// ends with zeros that fill its unit.
fn write_piece<M: Medium>(medium: &mut M, image: &[u8], from: u32) -> Result<(), WriteFault>
    requires { MayWritePiece (M.state medium.old) image.now from }
    ensures { let was = M.state medium.old in
        Series was (ops_writes was.grain.sector [] image.now [] (operations was.grain (Image from (length image.now))))
        result (M.state medium.new) }
{
    let sequence = Sequence::Image {
        from,
        image: image.len() as u32,
    };
    match sequence.operation(medium.unit(), medium.sector(), 0) {
        Some(
            Op::Program {
                at,
                source: _,
                skip,
                len,
            },
        ) => write_part(medium, at as u32, image, skip as usize, len as usize),
        _ => unreachable!(),
    }
}

// Writes an image into the data of the first slot, piece by piece.
fn write_pieces<M: Medium>(medium: &mut M, image: &[u8]) -> Result<(), WriteFault>
    requires { CanFormat (M.state medium.old) image.now }
    ensures { let was = M.state medium.old in Series was (image_writes was.grain image.now) result (M.state medium.new) }
{
    let len = image.len() as u32;
    let end = len + fill_size(medium.unit(), len);
    let mut from = 0;
    while from < end {
        match write_piece(medium, image, from) {
            Err(fault) => return Err(fault),
            Ok(()) => from += MAX_WRITE,
        }
    }
    Ok(())
}

// Closes both gates, first the gate of the second slot.
fn close_gates<M: Medium>(medium: &mut M) -> Result<(), WriteFault>
    requires { IsSizedMedium (M.state medium.old) }
    ensures { let was = M.state medium.old in
        Series was (close_writes was.grain was.bytes) result (M.state medium.new) }
{
    let second = medium.len() / 2;
    match close_gate(medium, second) {
        Err(fault) => Err(fault),
        Ok(()) => close_gate(medium, 0),
    }
}

/// Writes `image` into the first slot and makes it the active image of `medium`.
pub(crate) fn write_image<M: Medium>(medium: &mut M, image: &[u8]) -> Result<(), WriteFault>
    requires { CanFormat (M.state medium.old) image.now }
    ensures { Series (M.state medium.old) (format_series (M.state medium.old) image.now) result (M.state medium.new) }
{
    match close_gates(medium) {
        Err(fault) => Err(fault),
        Ok(()) => match write_pieces(medium, image) {
            Err(fault) => Err(fault),
            Ok(()) => {
                let register = register_of_image(medium, image);
                let head = make_header(VERSION, 0, image.len() as u32, register);
                open_slot(medium, 0, 0, &[], &head)
            }
        },
    }
}
