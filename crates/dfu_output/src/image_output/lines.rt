//! The line for an image that was read from a file.

ghost use Rattle.std.specs.Prelude.{◌≡◌, IfOk};
ghost use Rattle.std.specs.String.{string_bytes};
ghost use Rattle.dfu_output.specs.ImageLines.{format_name, image_format_line};

use crate::fields::Value::{Hex8, Text};
use crate::fields::line_of;
use dfu_formats::images::Format;
use std::alloc::{AllocError, Global};

/// Returns the name of `format`, as a value of `--format`.
pub fn format_name(format: Format) -> &'static str
    ensures { result.now ≡ format_name format }
{
    match format {
        Format::IntelHex => "ihex",
        Format::SRecord => "srec",
        Format::Uf2 => "uf2",
        Format::Elf => "elf",
    }
}

/// Returns the line for an image: `format FORMAT address 0xAAAAAAAA`, where `address` is that of the image's first byte.
///
/// # Errors
///
/// AllocError if there is no memory for the line.
#[tactic(auto, unfolding(crate::specs::ImageLines::image_format_line))]
pub fn image_line(alloc: Global, format: Format, address: u32) -> Result<String, AllocError>
    ensures { IfOk result (λ t. string_bytes t ≡ image_format_line format address) }
{
    let fields = [
        ("", Text(format_name(format))),
        (" address 0x", Hex8(address as u64)),
    ];
    line_of(alloc, "format ", &fields)
}
