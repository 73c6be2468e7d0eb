//! Reasons for refusing image files, as sentences.

use crate::image_output::lines::format_name;
use dfu_formats::images::{Ending, Format, ImageFault, ImageFileFault, LayFault, NotImage, Place};
use std::alloc::{AllocError, Global};

/// Returns advice for a file from which no image can be read because of `fault`. It is empty if the fault is NoMemory.
fn advice(fault: ImageFileFault) -> &'static str {
    match fault {
        ImageFileFault::Unread(ImageFault::NoMemory) | ImageFileFault::Unlaid(LayFault::NoMemory) =>
            "",
        ImageFileFault::Unread(ImageFault::Overlaps(_)) =>
            "; build it so that each byte is there once",
        ImageFileFault::Unread(ImageFault::TooManyElements(_)) =>
            "; a part is a run in the file's order: build it with rising addresses, or with fewer gaps",
        ImageFileFault::Unread(_) => "; build it anew",
        ImageFileFault::NoData => "; look at what the build puts into it",
        ImageFileFault::Unlaid(LayFault::Gap(_, _)) => "; --fill ff fills gaps with this byte",
        ImageFileFault::Unlaid(LayFault::TooLarge) => "; give a file for one part of the memory",
    }
}

/// Returns the reason why no image can be read from a file, the line and column of the first wrong character if there is one, and advice.
pub fn why(alloc: Global, fault: ImageFileFault, bad: Option<Place>) -> Result<String, AllocError> {
    let advice = advice(fault);
    match bad {
        Some(Place { line, column }) => format!(in alloc;
            "{fault}; the first wrong character is at line {line}, column {column}{advice}"
        ),
        None => format!(in alloc; "{fault}{advice}"),
    }
}

/// Returns the reason why a file isn't an image, and advice.
pub fn why_not(alloc: Global, other: NotImage) -> Result<String, AllocError> {
    let said = match other {
        NotImage::DfuSe =>
            "it begins as a DfuSe file: give it to dfu-flash, and get it anew if that refuses it",
        NotImage::Zip => "it is a zip archive: unpack it, and give the file in it",
        NotImage::Gzip => "it is a gzip archive: unpack it, and give the file in it",
        NotImage::Text => "it is text and no image: give the file that the build made of it",
        NotImage::Named(Ending::Dfu) =>
            "its name ends in .dfu, but it has no DFU suffix: it was cut short or damaged; get it anew",
        NotImage::Named(Ending::Of(format)) => {
            let name = format_name(format);
            return format!(in alloc;
                "its name is that of {name}, but it does not begin so: build it anew, or rename it if it is a raw image"
            );
        }
    };
    String::from_str(alloc, said)
}

/// Returns the hint that a file looks like a file of `format`, but was read as a raw image.
pub fn looks_like_hint(alloc: Global, format: Format) -> Result<String, AllocError> {
    let name = format_name(format);
    format!(in alloc;
        "it looks like {name}, and was taken as it is; --format {name} takes the image out of it"
    )
}

/// Returns the hint that a file isn't an image, but was read as a raw image.
pub fn not_image_hint(alloc: Global, other: NotImage) -> Result<String, AllocError> {
    let why = why_not(alloc, other)?;
    format!(in alloc; "it was taken as it is, though {why}")
}
