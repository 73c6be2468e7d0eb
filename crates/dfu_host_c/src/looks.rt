//! Record for C of the recognized kind of a file without a DFU suffix, described in `include/dfu_image.h`.

ghost use Rattle.std.specs.Prelude.{◌≡◌};
ghost use Rattle.dfu_formats.specs.images.Looks.{look_at_file};
ghost use Rattle.dfu_host_c.specs.Looks.{ending_number, image_format_number, looks_number, record_of_look};

use dfu_formats::images::{Ending, Format, Look, Looks, NotImage, look_at};

/// `struct dfu_look`: the recognized kind of a file. The header explains each number.
#[repr(C)]
#[derive(Drop)]
pub struct DfuLook {
    /// Kind of the file, 0 to 9.
    pub looks: u32,
    /// Number of the format that has the ending of the file's name, 1 to 5; 0 if no format has this ending.
    pub named: u32,
    /// Line, from 1, of the first byte that is not allowed at its position in a record; 0 if there is no such byte.
    pub line: u64,
    /// Column, from 1, of the first byte that is not allowed at its position in a record; 0 if there is no such byte.
    pub column: u64,
}

/// Returns the number of a format, 1 to 4.
fn image_format_number(format: Format) -> u32
    ensures { result ≡ image_format_number format }
{
    u32::from(match format {
        Format::IntelHex => 1u8,
        Format::SRecord => 2,
        Format::Uf2 => 3,
        Format::Elf => 4,
    })
}

/// Returns the number of a file's kind, 0 to 9.
fn looks_number(looks: Looks) -> u32
    ensures { result ≡ looks_number looks }
{
    match looks {
        Looks::Raw => 0,
        Looks::Of(format) => image_format_number(format),
        Looks::Other(NotImage::DfuSe) => 5,
        Looks::Other(NotImage::Zip) => 6,
        Looks::Other(NotImage::Gzip) => 7,
        Looks::Other(NotImage::Text) => 8,
        Looks::Other(NotImage::Named(_)) => 9,
    }
}

/// Returns the number of a file name's ending, 0 to 5.
fn ending_number(ending: Option<Ending>) -> u32
    ensures { result ≡ ending_number ending }
{
    match ending {
        None => 0,
        Some(Ending::Of(format)) => image_format_number(format),
        Some(Ending::Dfu) => 5,
    }
}

fn record_of_look(look: Look) -> DfuLook
    ensures { result ≡ record_of_look look }
{
    let (line, column) = match look.bad {
        Some(place) => (place.line, place.column),
        None => (0, 0),
    };
    DfuLook {
        looks: looks_number(look.looks),
        named: ending_number(look.ending),
        line,
        column,
    }
}

/// Recognizes the kind of a file from its bytes and its name, and returns the number of the kind.
#[unsafe(no_mangle)]
pub extern "C" fn dfu_image_look(file: &[u8], name: &[u8], look: &mut DfuLook) -> u32
    ensures number { result ≡ looks_number (look_at_file file.now name.now).looks }
    ensures record { look.new ≡ record_of_look (look_at_file file.now name.now) }
{
    *look = record_of_look(look_at(file, name));
    look.looks
}
