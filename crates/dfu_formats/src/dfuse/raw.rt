//! Converts a file without addresses to one element.

ghost use Rattle.std.specs.Prelude.{◌≡◌, MatchResult, Ok, Err, find};
ghost use Rattle.dfu_suffix.specs.Grammar.{has_fault, fault_order};
ghost use Rattle.dfu_formats.specs.dfuse.Found.{piece_of};
ghost use Rattle.dfu_formats.specs.dfuse.Raw.{raw_refusal, payload_by_fault, has_prefix, placed_at, raw_element_at};

use crate::dfuse::element::Element;
use crate::dfuse::marks::begins_with_dfuse;
use dfu_suffix::SuffixFault;
use std::fmt;
use thiserror::Error;

/// Fault of a file that can't become an element at an address: the first one in this order that applies.
#[derive(Clone, Copy, Debug, Error)]
pub enum RawFault {
    /// The file is longer than 16,777,216 bytes.
    TooLarge,
    /// The file has a signature, and bLength is less than 16 or more than the length of the file.
    BadLength,
    /// The file has a signature, bcdDFU isn't 011Ah, and dwCRC isn't the CRC register over the bytes before it.
    BadCrc,
    /// The file has a signature and bcdDFU 011Ah, or begins with the letters DfuSe.
    HasAddresses,
    /// The file has no bytes, or none before its suffix.
    Empty,
    /// The last byte would have an address beyond FFFFFFFFh.
    AddressPastTheEnd,
}

/// Text of each fault, in the order of the enum.
static TEXTS: [&str; 6] = [
    "the file has over 16777216 bytes",
    "the suffix's length is under 16 or over the file's",
    "the file's CRC differs from the one in its suffix",
    "the file is a DfuSe file, which has addresses of its own",
    "the file is empty",
    "the file ends behind the last address",
];

impl fmt::Display for RawFault {
    fn fmt<W: fmt::Write>(&self, f: &mut fmt::Formatter<W>) -> fmt::Result {
        f.write_str(TEXTS[*self as usize])
    }
}

/// Returns the refusal of a file in which dfu_suffix finds `fault`, or None if the fault causes no refusal.
fn refusal(fault: SuffixFault) -> Option<RawFault>
    ensures { result ≡ raw_refusal fault }
{
    match fault {
        SuffixFault::TooLarge => Some(RawFault::TooLarge),
        SuffixFault::BadLength => Some(RawFault::BadLength),
        SuffixFault::BadCrc => Some(RawFault::BadCrc),
        SuffixFault::DfuSe => Some(RawFault::HasAddresses),
        _ => None,
    }
}

/// Returns the bytes before the suffix, or all bytes of a file without a suffix, or the refusal of the file.
fn payload_of(bytes: &[u8]) -> Result<&[u8], RawFault>
    ensures { MatchResult result (λ payload. payload_by_fault (find (has_fault bytes.now) fault_order) bytes.now ≡ Ok payload.now)
        (λ fault. payload_by_fault (find (has_fault bytes.now) fault_order) bytes.now ≡ Err fault) }
{
    match dfu_suffix::read(bytes) {
        Ok(file) => Ok(file.payload()),
        Err(fault) => match refusal(fault) {
            Some(refused) => Err(refused),
            None => Ok(bytes),
        },
    }
}

/// Returns true if `bytes` begin with the letters DfuSe.
#[tactic(auto, using(std::proofs::lemmas::Bool::Decides::nat_tests))]
fn has_prefix(bytes: &[u8]) -> bool
    ensures { result ≡ has_prefix bytes.now }
{
    bytes.len() >= 5 && begins_with_dfuse(bytes)
}

/// Returns `bytes` as an element at `address`, or the first fault.
#[tactic(auto, using(std::proofs::lemmas::Bool::Decides::nat_tests), unfolding(crate::specs::dfuse::Raw::placed_at))]
fn placed_at(address: u32, bytes: &[u8]) -> Result<Element<'_>, RawFault>
    ensures { MatchResult result (λ e. placed_at address bytes.now ≡ Ok (piece_of e)) (λ fault. placed_at address bytes.now ≡ Err fault) }
{
    if has_prefix(bytes) {
        return Err(RawFault::HasAddresses);
    }
    if bytes.len() == 0 {
        return Err(RawFault::Empty);
    }
    if address as u64 + bytes.len() as u64 > 0x1_0000_0000 {
        return Err(RawFault::AddressPastTheEnd);
    }
    Ok(Element { address, bytes })
}

/// Reads a file without addresses as an element at `address`. A suffix (USB DFU 1.1, appendix B) is removed. A file with a damaged suffix
/// is refused, and so is one that begins like a DfuSe file, because the suffix or the prefix would be written too.
///
/// # Errors
///
/// The first fault, in the order of [`RawFault`].
pub fn read_raw(bytes: &[u8], address: u32) -> Result<Element<'_>, RawFault>
    ensures { MatchResult result (λ e. raw_element_at address bytes.now ≡ Ok (piece_of e))
        (λ fault. raw_element_at address bytes.now ≡ Err fault) }
{
    match payload_of(bytes) {
        Ok(payload) => placed_at(address, payload),
        Err(fault) => Err(fault),
    }
}
