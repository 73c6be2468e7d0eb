//! The image of a file of any format, as one piece.

ghost use Rattle.std.specs.Prelude.{IfOk, length, ◌≤◌};
ghost use Rattle.dfu_formats.specs.images.Elements.{AreApart, IsElementResult};
ghost use Rattle.dfu_formats.specs.images.Making.{MakeImageResult, elements_in};

use crate::images::element::Element;
use crate::images::fault::ImageFault;
use crate::images::format::Format;
use crate::images::laying::{LayFault, lay, lowest};
use crate::images::{elf, ihex, srec, uf2};
use std::alloc::Global;
use std::fmt;
use thiserror::Error;

/// The image of a file as one piece, from its lowest address to its highest one.
#[derive(Drop)]
pub struct Image {
    /// The address of the first byte.
    pub address: u32,
    /// The bytes of the image, 1 to 16,777,216.
    pub bytes: Vec<u8>,
}

/// A fault of a file from which no image can be made.
#[derive(Clone, Copy, Debug, Error)]
pub enum ImageFileFault {
    /// The elements of the file can't be read.
    Unread(ImageFault),
    /// The file has no data, and so no address.
    NoData,
    /// The elements of the file can't be joined to one piece.
    Unlaid(LayFault),
}

impl fmt::Display for ImageFileFault {
    fn fmt<W: fmt::Write>(&self, f: &mut fmt::Formatter<W>) -> fmt::Result {
        match self {
            ImageFileFault::Unread(fault) => fmt::Display::fmt(fault, f),
            ImageFileFault::NoData => f.write_str("it has no bytes for an image"),
            ImageFileFault::Unlaid(fault) => fmt::Display::fmt(fault, f),
        }
    }
}

/// Reads the elements of `file`, which is in `format`.
fn elements_in(alloc: Global, format: Format, file: &[u8]) -> Result<Vec<Element>, ImageFault>
    ensures value { IsElementResult result (elements_in format file.now) }
    ensures apart { IfOk result (λ v. AreApart 0 v.items) }
{
    match format {
        Format::IntelHex => ihex::read(alloc, file),
        Format::SRecord => srec::read(alloc, file),
        Format::Uf2 => uf2::read(alloc, file),
        Format::Elf => elf::read(alloc, file),
    }
}

/// Returns the image of `file`, which is in `format`. Gaps are filled with the byte `fill`, if it is given.
///
/// # Errors
///
/// Unread, with the first fault of the file; NoData if the file has no data; Unlaid, with the reason, if its elements can't be joined to
/// one piece.
pub fn image_of(
    alloc: Global,
    format: Format,
    fill: Option<u8>,
    file: &[u8],
) -> Result<Image, ImageFileFault>
    ensures value { MakeImageResult fill (elements_in format file.now) result }
    ensures at_most_16_mib { IfOk result (λ i. length i.bytes.items ≤ 16777216) }
{
    let elements = match elements_in(alloc, format, file) {
        Ok(elements) => elements,
        Err(fault) => return Err(ImageFileFault::Unread(fault)),
    };
    if elements.is_empty() {
        return Err(ImageFileFault::NoData);
    }
    let address = lowest(&elements);
    match lay(alloc, &elements, fill) {
        Ok(bytes) => Ok(Image { address, bytes }),
        Err(fault) => Err(ImageFileFault::Unlaid(fault)),
    }
}
