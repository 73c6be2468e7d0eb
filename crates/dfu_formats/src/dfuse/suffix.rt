//! The suffix with bcdDFU 011Ah, which ends a DfuSe file.

ghost use Rattle.std.specs.Prelude.{◌≡◌, ◌+◌, ◌≤◌, length, drop};
ghost use Rattle.dfu_suffix.specs.Grammar.{tail_of, has_fault};
ghost use Rattle.dfu_suffix.specs.declared.fault.SuffixFault.TheVariants as suffix;
ghost use Rattle.byteorder.specs.Endian.{little_number};
ghost use Rattle.dfu_formats.specs.dfuse.Reading.{suffix_at, payload_and_ids_of, is_dfuse, suffix_with_checked_crc, suffix_refusal};

use crate::dfuse::fault::FileFault;
use byteorder::{ByteOrder, LittleEndian};
use dfu_suffix::{Crc, SuffixFault};
use dfu_wire::Ids;
use std::marker::Model;

/// The bytes before the suffix and the identifiers in the suffix.
#[derive(Drop)]
pub(crate) struct PayloadAndIds<'f> {
    pub payload: &'f [u8],
    pub ids: Ids,
}

impl<'f> Model for PayloadAndIds<'f> {
    ghost use Rattle.dfu_formats.specs.dfuse.Reading as reading;

    ghost Value = { reading.PayloadAndIds };

    ghost view = { λ s. record { payload = s.payload.now; ids = s.ids } };
}

/// Returns the last 16 bytes of `bytes`.
fn tail(bytes: &[u8]) -> &[u8]
    requires { 16 ≤ length bytes.now }
    ensures value { result.now ≡ tail_of bytes.now }
    ensures len { length result.now ≡ 16 }
{
    let (_, tail) = bytes.split_at(bytes.len() - 16);
    tail
}

/// Returns the number in the two bytes from index `place` of `tail` on, the low byte first.
fn field(place: usize, tail: &[u8]) -> u16
    requires { place + 2 ≤ length tail.now }
    ensures { result ≡ little_number 2 (drop place tail.now) }
{
    let (_, field) = tail.split_at(place);
    LittleEndian::read_u16(field)
}

/// Returns true if dwCRC isn't the CRC register over the bytes before it.
fn has_bad_crc(bytes: &[u8]) -> bool
    requires { 16 ≤ length bytes.now }
    ensures { result ≡ has_fault bytes.now suffix.BadCrc }
{
    let (before, _) = bytes.split_at(bytes.len() - 4);
    let (_, crc) = tail(bytes).split_at(12);
    let mut over = Crc::new();
    over.update_small(before);
    LittleEndian::read_u32(crc) != over.value()
}

/// Returns the payload and the identifiers, which are taken from the last 16 bytes.
fn payload_and_ids_of(bytes: &[u8]) -> PayloadAndIds<'_>
    requires long { 16 ≤ length bytes.now }
    ensures { result ≡ payload_and_ids_of bytes.now }
{
    let tail = tail(bytes);
    let (payload, _) = bytes.split_at(bytes.len().saturating_sub(tail[11] as usize));
    PayloadAndIds {
        payload,
        ids: Ids {
            device: field(0, tail),
            product: field(2, tail),
            vendor: field(4, tail),
        },
    }
}

/// Returns true for the fault `DfuSe`, which dfu_suffix reports for every DfuSe file.
fn is_dfuse(fault: SuffixFault) -> bool
    ensures { result ≡ is_dfuse fault }
{
    match fault {
        SuffixFault::DfuSe => true,
        _ => false,
    }
}

/// Returns the refusal of a file with a fault other than `DfuSe`.
fn refusal(fault: SuffixFault) -> FileFault
    ensures { result ≡ suffix_refusal fault }
{
    match fault {
        SuffixFault::TooLarge => FileFault::TooLarge,
        SuffixFault::TooShort => FileFault::TooShort,
        SuffixFault::NoSignature => FileFault::NoSignature,
        SuffixFault::BadLength => FileFault::BadLength,
        _ => FileFault::NotDfuSe,
    }
}

/// Returns the payload and the identifiers of a file with bcdDFU 011Ah, or BadCrc if its CRC is wrong.
fn read_signed(bytes: &[u8]) -> Result<PayloadAndIds<'_>, FileFault>
    requires { 16 ≤ length bytes.now }
    ensures { result ≡ suffix_with_checked_crc bytes.now }
{
    if has_bad_crc(bytes) {
        Err(FileFault::BadCrc)
    } else {
        Ok(payload_and_ids_of(bytes))
    }
}

/// Reads the suffix, or returns its first fault. The CRC is computed with the small table, because a file is read only once, and the large
/// tables would enlarge the library for C.
pub(crate) fn read_suffix(bytes: &[u8]) -> Result<PayloadAndIds<'_>, FileFault>
    ensures { result ≡ suffix_at bytes.now }
{
    let fault = match dfu_suffix::read_small(bytes) {
        Ok(_) => return Err(FileFault::NotDfuSe),
        Err(fault) => fault,
    };
    if is_dfuse(fault) {
        read_signed(bytes)
    } else {
        Err(refusal(fault))
    }
}
