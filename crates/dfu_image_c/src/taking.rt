//! The call that writes the image of a file to the caller's buffer, `room`.

ghost use Rattle.std.specs.Prelude.{◌≡◌};
ghost use Rattle.dfu_image_c.specs.TakeCall.{ImageCallResult, TakeImageResult, fill_byte_of, format_of};

use crate::refusals::{NO_FORMAT, NO_ROOM, image_refusal};
use dfu_formats::images::{Format, Image, ImageFileFault, image_of};
use std::alloc::Global;

/// `struct dfu_taken` in C: the size and address of an image, or the line, block, segment or addresses of a fault. The header explains each
/// number.
#[repr(C)]
#[derive(Drop)]
pub struct DfuTaken {
    /// Length of the image in bytes, or 0 if there is no image.
    pub length: u64,
    /// Line, block, segment or address of the fault, or first address of a gap; 0 if there is none of these.
    pub from: u64,
    /// First address after a gap, or 0 if no gap is refused.
    pub to: u64,
    /// Address of the image's first byte, or 0 if there is no image.
    pub address: u32,
}

/// Returns the format with number `number`, 1 to 4, or None for any other number.
#[tactic(auto, using(std::proofs::lemmas::Bool::Decides::nat_tests))]
fn format_of(number: u32) -> Option<Format>
    ensures { result ≡ format_of number }
{
    match number {
        1 => Some(Format::IntelHex),
        2 => Some(Format::SRecord),
        3 => Some(Format::Uf2),
        4 => Some(Format::Elf),
        _ => None,
    }
}

/// Returns the byte that fills gaps, or None for a number above 255.
#[tactic(auto, using(std::proofs::lemmas::Bool::Decides::nat_tests))]
fn fill_byte_of(number: u32) -> Option<u8>
    ensures { result ≡ fill_byte_of number }
{
    if number < 256 {
        Some(number as u8)
    } else {
        None
    }
}

/// Writes an image to the front of `room`, if it fits, and its length and address to `taken`. After a fault, writes its line, block,
/// segment or addresses to `taken`. Returns 0, or the number of the refusal.
fn write_result(read: Result<Image, ImageFileFault>, room: &mut [u8], taken: &mut DfuTaken) -> i32
    ensures { ImageCallResult read room.old room.new taken.new result }
{
    match read {
        Ok(image) => {
            let count = image.bytes.len();
            *taken = DfuTaken {
                length: count as u64,
                from: 0,
                to: 0,
                address: image.address,
            };
            if count > room.len() {
                return NO_ROOM;
            }
            room[..count].copy_from_slice(&image.bytes);
            0
        }
        Err(fault) => {
            let refusal = image_refusal(fault);
            *taken = DfuTaken {
                length: 0,
                from: refusal.from,
                to: refusal.to,
                address: 0,
            };
            refusal.number
        }
    }
}

/// Writes the image of `file`, which is in the format with number `format`, to the front of `room`. Gaps are filled with the byte `fill` if
/// it is at most 255, and refused otherwise. Returns 0, or the number of the refusal, which leaves `room` unchanged. `taken` receives the
/// length and address of the image, or the line, block, segment or addresses of the fault. An unknown format leaves `taken` unchanged.
#[unsafe(no_mangle)]
pub extern "C" fn dfu_image_take(
    alloc: Global,
    file: &[u8],
    format: u32,
    fill: u32,
    room: &mut [u8],
    taken: &mut DfuTaken,
) -> i32
    ensures { TakeImageResult (format_of format) (fill_byte_of fill) file.now room.old room.new taken.old taken.new result }
{
    let Some(format) = format_of(format) else {
        return NO_FORMAT;
    };
    write_result(
        image_of(alloc, format, fill_byte_of(fill), file),
        room,
        taken,
    )
}
