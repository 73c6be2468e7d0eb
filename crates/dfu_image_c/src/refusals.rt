//! Refusals of `dfu_image_take`: a number for C, and the line, block, segment or addresses of the fault.

ghost use Rattle.std.specs.Prelude.{◌≡◌};
ghost use Rattle.dfu_image_c.specs.Refusals.{image_fault_number, image_fault_place, image_refusal};

use dfu_formats::images::{ImageFault, ImageFileFault, LayFault};

/// Result for an unknown format number.
pub(crate) const NO_FORMAT: i32 = -101;

/// Result for a room that is shorter than the image.
pub(crate) const NO_ROOM: i32 = -102;

/// A refusal: its number, and the line, block, segment or addresses of the fault.
#[derive(Clone, Copy)]
pub(crate) struct ImageRefusal {
    /// Number of the refusal, -103 to -128.
    pub(crate) number: i32,
    /// Line, from 1; block or segment, from 0; or address. 0 if the fault has none of these.
    pub(crate) from: u64,
    /// First address after a gap, or 0 for any other fault.
    pub(crate) to: u64,
}

/// Returns the refusal number of `fault`, -103 to -125.
fn image_fault_number(fault: ImageFault) -> i32
    ensures { result ≡ image_fault_number fault }
{
    match fault {
        ImageFault::NoMemory => -103,
        ImageFault::NoMark(_) => -104,
        ImageFault::BadDigit(_) => -105,
        ImageFault::BadLength(_) => -106,
        ImageFault::BadChecksum(_) => -107,
        ImageFault::BadType(_) => -108,
        ImageFault::BadCount(_) => -109,
        ImageFault::PastSegment(_) => -110,
        ImageFault::Trailing(_) => -111,
        ImageFault::NoEnd => -112,
        ImageFault::BadSize => -113,
        ImageFault::BadMagic(_) => -114,
        ImageFault::BadBlock(_) => -115,
        ImageFault::BadNumber(_) => -116,
        ImageFault::FileContainer(_) => -117,
        ImageFault::OtherFamily(_) => -118,
        ImageFault::NotElf => -119,
        ImageFault::CutHeader => -120,
        ImageFault::CutSegment(_) => -121,
        ImageFault::PastTheEnd(_) => -122,
        ImageFault::TooLarge(_) => -123,
        ImageFault::TooManyElements(_) => -124,
        ImageFault::Overlaps(_) => -125,
    }
}

/// Returns the line, block, segment or address of `fault`, or 0 if it has none.
fn image_fault_place(fault: ImageFault) -> u64
    ensures { result ≡ image_fault_place fault }
{
    match fault {
        ImageFault::NoMark(at)
        | ImageFault::BadDigit(at)
        | ImageFault::BadLength(at)
        | ImageFault::BadChecksum(at)
        | ImageFault::BadType(at)
        | ImageFault::BadCount(at)
        | ImageFault::PastSegment(at)
        | ImageFault::Trailing(at)
        | ImageFault::BadMagic(at)
        | ImageFault::BadBlock(at)
        | ImageFault::BadNumber(at)
        | ImageFault::FileContainer(at)
        | ImageFault::OtherFamily(at)
        | ImageFault::CutSegment(at)
        | ImageFault::PastTheEnd(at)
        | ImageFault::TooLarge(at)
        | ImageFault::TooManyElements(at) => at as u64,
        ImageFault::Overlaps(address) => u64::from(address),
        _ => 0,
    }
}

/// Returns the refusal of a file from which no image can be made because of `fault`.
pub(crate) fn image_refusal(fault: ImageFileFault) -> ImageRefusal
    ensures { result ≡ image_refusal fault }
{
    let (number, from, to) = match fault {
        ImageFileFault::Unread(fault) => (image_fault_number(fault), image_fault_place(fault), 0),
        ImageFileFault::NoData => (-126, 0, 0),
        ImageFileFault::Unlaid(LayFault::NoMemory) => (-103, 0, 0),
        ImageFileFault::Unlaid(LayFault::Gap(from, to)) => (-127, from, u64::from(to)),
        ImageFileFault::Unlaid(LayFault::TooLarge) => (-128, 0, 0),
    };
    ImageRefusal { number, from, to }
}
