//! Lines for files that don't contain an image.

ghost use Rattle.std.specs.Prelude.{◌≡◌, ◌++◌, IfOk};
ghost use Rattle.std.specs.String.{string_bytes};
ghost use Rattle.dfu_output.specs.Fields.{value_text};
ghost use Rattle.dfu_output.specs.ImageLines.{ending_name, fault_text, not_image_line, not_image_word, refused_line, lay_fault_text, image_fault_text};

use crate::fields::Value::{Hex8, Number, Text};
use crate::fields::{Field, line_of, text_of};
use crate::image_output::lines::format_name;
use dfu_formats::images::{Ending, ImageFault, ImageFileFault, LayFault, NotImage};
use std::alloc::{AllocError, Global};

/// Returns the name of `fault`, followed by the number or the address to which the fault refers, if there is one.
#[tactic(auto, unfolding(crate::specs::ImageLines::image_fault_text))]
fn image_fault_field(fault: ImageFault) -> Field<'static>
    ensures { result.0.now ++ value_text result.1 ≡ image_fault_text fault }
{
    match fault {
        ImageFault::NoMemory => ("NoMemory", Text("")),
        ImageFault::NoMark(at) => ("NoMark ", Number(at as u64)),
        ImageFault::BadDigit(at) => ("BadDigit ", Number(at as u64)),
        ImageFault::BadLength(at) => ("BadLength ", Number(at as u64)),
        ImageFault::BadChecksum(at) => ("BadChecksum ", Number(at as u64)),
        ImageFault::BadType(at) => ("BadType ", Number(at as u64)),
        ImageFault::BadCount(at) => ("BadCount ", Number(at as u64)),
        ImageFault::PastSegment(at) => ("PastSegment ", Number(at as u64)),
        ImageFault::Trailing(at) => ("Trailing ", Number(at as u64)),
        ImageFault::NoEnd => ("NoEnd", Text("")),
        ImageFault::BadSize => ("BadSize", Text("")),
        ImageFault::BadMagic(at) => ("BadMagic ", Number(at as u64)),
        ImageFault::BadBlock(at) => ("BadBlock ", Number(at as u64)),
        ImageFault::BadNumber(at) => ("BadNumber ", Number(at as u64)),
        ImageFault::FileContainer(at) => ("FileContainer ", Number(at as u64)),
        ImageFault::OtherFamily(at) => ("OtherFamily ", Number(at as u64)),
        ImageFault::NotElf => ("NotElf", Text("")),
        ImageFault::CutHeader => ("CutHeader", Text("")),
        ImageFault::CutSegment(at) => ("CutSegment ", Number(at as u64)),
        ImageFault::PastTheEnd(at) => ("PastTheEnd ", Number(at as u64)),
        ImageFault::TooLarge(at) => ("TooLarge ", Number(at as u64)),
        ImageFault::TooManyElements(at) => ("TooManyElements ", Number(at as u64)),
        ImageFault::Overlaps(address) => ("Overlaps ", Hex8(address as u64)),
    }
}

/// Returns the name of the fault because of which elements can't form one image. A `Gap` is followed by the addresses at which it begins
/// and ends.
#[tactic(auto, unfolding(crate::specs::ImageLines::lay_fault_text))]
fn lay_fault_text(alloc: Global, fault: LayFault) -> Result<String, AllocError>
    ensures { IfOk result (λ t. string_bytes t ≡ lay_fault_text fault) }
{
    match fault {
        LayFault::NoMemory => String::from_str(alloc, "NoMemory"),
        LayFault::Gap(from, to) => text_of(alloc, &[("Gap ", Hex8(from)), (" ", Hex8(to as u64))]),
        LayFault::TooLarge => String::from_str(alloc, "TooLarge"),
    }
}

/// Returns the name of the fault because of which no image can be read from a file, followed by its number or addresses if it has any.
fn fault_text(alloc: Global, fault: ImageFileFault) -> Result<String, AllocError>
    ensures { IfOk result (λ t. string_bytes t ≡ fault_text fault) }
{
    match fault {
        ImageFileFault::Unread(fault) => text_of(alloc, &[image_fault_field(fault)]),
        ImageFileFault::NoData => String::from_str(alloc, "NoData"),
        ImageFileFault::Unlaid(fault) => lay_fault_text(alloc, fault),
    }
}

/// Returns the line for a file from which no image can be read because of `fault`: `refused NAME`, followed by a number, or by addresses in
/// eight hexadecimal digits, if the fault has any.
///
/// # Errors
///
/// AllocError if there is no memory for the line.
#[tactic(auto, unfolding(crate::specs::ImageLines::refused_line))]
pub fn refused_line(alloc: Global, fault: ImageFileFault) -> Result<String, AllocError>
    ensures { IfOk result (λ t. string_bytes t ≡ refused_line fault) }
{
    let text = fault_text(alloc, fault)?;
    line_of(alloc, "refused ", &[("", Text(&text))])
}

/// Returns the word for the extension of a file's name: the name of its format, or `dfu`.
pub(crate) fn ending_name(ending: Ending) -> &'static str
    ensures { result.now ≡ ending_name ending }
{
    match ending {
        Ending::Of(format) => format_name(format),
        Ending::Dfu => "dfu",
    }
}

/// Returns the field with the word for `other`, a kind of file that isn't an image.
fn not_image_field(other: NotImage) -> Field<'static>
    ensures { result.0.now ++ value_text result.1 ≡ not_image_word other }
{
    match other {
        NotImage::DfuSe => ("dfuse", Text("")),
        NotImage::Zip => ("zip", Text("")),
        NotImage::Gzip => ("gzip", Text("")),
        NotImage::Text => ("text", Text("")),
        NotImage::Named(ending) => ("named-", Text(ending_name(ending))),
    }
}

/// Returns the line for a file that isn't an image: `refused NotAnImage WORD`. The word is dfuse, zip, gzip, text, named-dfu, or named-
/// followed by the name of a format.
///
/// # Errors
///
/// AllocError if there is no memory for the line.
#[tactic(auto, unfolding(crate::specs::ImageLines::not_image_line))]
pub fn not_image_line(alloc: Global, other: NotImage) -> Result<String, AllocError>
    ensures { IfOk result (λ t. string_bytes t ≡ not_image_line other) }
{
    line_of(alloc, "refused NotAnImage ", &[not_image_field(other)])
}
