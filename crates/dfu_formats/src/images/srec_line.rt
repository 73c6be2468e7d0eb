//! One S-record: its type, its address and its data.

ghost use Rattle.std.specs.Prelude.{◌≡◌, ◌+◌, ◌≤◌, ◌<◌, ◌^◌, length, Ok, Err};
ghost use Rattle.dfu_formats.specs.images.SRecord.{srec_bytes_of_line, address_width, number_of_bytes, srec_record_of_bytes};

use crate::images::digits::{bytes_at, sum_of};
use crate::images::fault::ImageFault;
use crate::images::limits::MAX_RECORD;
use arrayvec::ArrayVec;
use std::marker::Model;

/// The type of a record, and its bytes.
#[derive(Drop)]
pub(crate) struct TypedRecord {
    kind: u8,
    bytes: ArrayVec<u8, MAX_RECORD>,
}

impl Model for TypedRecord {
    ghost use Rattle.std.specs.Prelude.{◌≤◌};
    ghost use Rattle.dfu_formats.specs.images.SRecord as srec;

    ghost Value = { srec.TypedBytes };

    ghost view = { λ t. record { kind = t.kind; bytes = t.bytes.items } };

    ghost invariant = { λ t. t.kind ≤ 9 };
}

/// Returns the type and the bytes of the record in `line`, which has number `at`.
#[tactic(auto, using(std::proofs::lemmas::Bool::Decides::nat_tests), unfolding(crate::specs::images::SRecord::srec_bytes_of_line))]
pub(crate) fn spelled(at: usize, line: &[u8]) -> Result<TypedRecord, ImageFault>
    ensures { result ≡ srec_bytes_of_line at line.now }
{
    match line {
        [b'S', kind, digits @ ..] if *kind >= b'0' && *kind <= b'9' => match bytes_at(at, digits) {
            Ok(bytes) => Ok(TypedRecord {
                kind: *kind - b'0',
                bytes,
            }),
            Err(fault) => Err(fault),
        },
        _ => Err(ImageFault::NoMark(at)),
    }
}

/// Returns the number of address bytes in a record of type `kind`.
fn width(kind: u8) -> usize
    ensures value { result ≡ address_width kind }
    ensures at_most_4 { result ≤ 4 }
{
    match kind {
        3 | 7 => 4,
        2 | 6 | 8 => 3,
        _ => 2,
    }
}

/// Returns the number in these bytes, at most four, the high byte first.
fn number(bytes: &[u8]) -> u64
    requires { length bytes.now ≤ 4 }
    ensures value { result ≡ number_of_bytes bytes.now }
    ensures small { result < 256 ^ length bytes.now }
{
    let mut value: u64 = 0;
    for byte in bytes {
        value = 256 * value + *byte as u64;
    }
    value
}

/// A record: its type, its address, and its data.
#[derive(Drop)]
pub(crate) struct Record<'t> {
    pub(crate) kind: u8,
    pub(crate) address: u64,
    pub(crate) content: &'t [u8],
}

impl<'t> Model for Record<'t> {
    ghost use Rattle.std.specs.Prelude.{◌<◌, ◌^◌};
    ghost use Rattle.dfu_formats.specs.images.SRecord as srec;

    ghost Value = { srec.SRecordLine };

    ghost view = { λ r. record { kind = r.kind; address = r.address; content = r.content.now } };

    ghost invariant = { λ r. r.address < 2 ^ 32 };
}

/// Splits `typed`, the type and bytes of the record on line `at`, into its fields, or returns the fault of its length or checksum.
#[tactic(auto, using(std::proofs::lemmas::Bool::Decides::nat_tests), unfolding(crate::specs::images::SRecord::srec_record_of_bytes))]
pub(crate) fn split_record(at: usize, typed: &TypedRecord) -> Result<Record<'_>, ImageFault>
    ensures { result ≡ srec_record_of_bytes at typed.now }
{
    let bytes = typed.bytes.as_slice();
    let width = width(typed.kind);
    if bytes.len() == 0 || bytes.len() != bytes[0] as usize + 1 || bytes.len() < width + 2 {
        return Err(ImageFault::BadLength(at));
    }
    if sum_of(bytes) % 256 != 255 {
        return Err(ImageFault::BadChecksum(at));
    }
    let (_, behind) = bytes.split_at(1);
    let (address, _) = behind.split_at(width);
    let (_, behind) = bytes.split_at(width + 1);
    let (content, _) = behind.split_at(bytes.len() - (width + 2));
    Ok(Record {
        kind: typed.kind,
        address: number(address),
        content,
    })
}
