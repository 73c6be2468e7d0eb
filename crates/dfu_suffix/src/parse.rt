//! A file of the grammar, read from its end.

ghost use Rattle.std.specs.Prelude.{◌≡◌, ◌+◌, ◌-◌, ◌≤◌, ◌↔◌, ℕ, List, length, take, Ok, Err, IfOk};
ghost use Rattle.dfu_suffix.specs.Grammar.{IsFile, First, tail_of};
ghost use Rattle.dfu_suffix.specs.Register.{register};
ghost use Rattle.dfu_suffix.specs.inside.Reading.{read_content};
ghost use Rattle.dfu_wire.specs.declared.ids.Ids.{Ids};

use crate::crc::Crc;
use crate::fault::SuffixFault;
use crate::file::{File, MAX_FILE, MIN_SUFFIX};
use crate::summary::parse_tail;

// Returns the last 16 bytes, or all bytes if there are fewer.
fn tail(bytes: &[u8]) -> &[u8]
    ensures value { result.now ≡ tail_of bytes.now }
    ensures len { 16 ≤ length bytes.now → length result.now ≡ 16 }
{
    let (_, tail) = bytes.split_at(bytes.len().saturating_sub(MIN_SUFFIX as usize));
    tail
}

// Returns the register over all bytes, with the large tables or with the small one. Both give the same result.
#[inline(always)]
fn register_over(bytes: &[u8], by_small_table: bool) -> u32
    ensures { result ≡ register bytes.now }
{
    let mut crc = Crc::new();
    if by_small_table {
        crc.update_small(bytes);
    } else {
        crc.update_long(bytes);
    }
    crc.value()
}

// Returns the bytes before the suffix, which has `suffix` bytes.
fn payload_of(bytes: &[u8], suffix: usize) -> &[u8]
    requires { suffix ≤ length bytes.now }
    ensures { result.now ≡ take (length bytes.now - suffix) bytes.now }
{
    let (payload, _) = bytes.split_at(bytes.len() - suffix);
    payload
}

/// Reads the fields from the end of the bytes, or returns the first fault. The body is inlined into each reader, so that the small reader
/// doesn't link the large tables.
#[inline(always)]
#[tactic(auto, using(std::proofs::lemmas::Bool::Decides::nat_tests), unfolding(crate::specs::inside::Reading::read_content))]
fn parse(bytes: &[u8], by_small_table: bool) -> Result<File<'_>, SuffixFault>
    ensures { result ≡ read_content bytes.now }
{
    if bytes.len() > MAX_FILE {
        return Err(SuffixFault::TooLarge);
    }
    match parse_tail(tail(bytes), bytes.len() as u32) {
        Ok(_) if register_over(bytes, by_small_table) != 0 => Err(SuffixFault::BadCrc),
        Ok(summary) => Ok(File {
            payload: payload_of(bytes, summary.suffix as usize),
            ids: summary.ids,
            dfu: summary.dfu,
            suffix: summary.suffix,
        }),
        Err(fault) => Err(fault),
    }
}

// Reads a whole file, with the contract of `read` and `read_small`.
#[inline(always)]
fn read_by(bytes: &[u8], by_small_table: bool) -> Result<File<'_>, SuffixFault>
    ensures found { IfOk result (λ f. (extra : List ℕ) × IsFile f.payload f.ids f.dfu extra bytes.now × (f.suffix ≡ 16 + length extra)) }
    ensures only { (payload : List ℕ) (ids : Ids) (dfu : ℕ) (extra : List ℕ) → IsFile payload ids dfu extra bytes.now
        → result ≡ Ok (record { payload = payload; ids = ids; dfu = dfu; suffix = 16 + length extra }) }
    ensures fault { (fault : SuffixFault) → (result ≡ Err fault) ↔ First fault bytes.now }
{
    parse(bytes, by_small_table)
}

/// Reads a whole file (USB DFU 1.1, appendix B). No memory is allocated, because the payload is a slice of `bytes`.
///
/// # Errors
///
/// The first of these that applies: TooLarge over 16,777,216 bytes, TooShort under 16, NoSignature if the last 16 bytes lack 'UFD',
/// BadLength if bLength is less than 16 or more than the length of the file, DfuSe if bcdDFU is 011Ah, BadCrc if dwCRC isn't the CRC
/// register over the bytes before it.
pub fn read(bytes: &[u8]) -> Result<File<'_>, SuffixFault>
    // By the grammar, the bytes are an encoding of the returned file.
    ensures found { IfOk result (λ f. (extra : List ℕ) × IsFile f.payload f.ids f.dfu extra bytes.now × (f.suffix ≡ 16 + length extra)) }
    // Every file that follows the grammar is read.
    ensures only { (payload : List ℕ) (ids : Ids) (dfu : ℕ) (extra : List ℕ) → IsFile payload ids dfu extra bytes.now
        → result ≡ Ok (record { payload = payload; ids = ids; dfu = dfu; suffix = 16 + length extra }) }
    // For any other bytes, the result is their first fault.
    ensures fault { (fault : SuffixFault) → (result ≡ Err fault) ↔ First fault bytes.now }
{
    read_by(bytes, false)
}

/// Reads a whole file like `read`, with a table of 64 bytes, in about nine times as many instructions. It is meant for programs without
/// room for the 8,192 bytes of the large tables, which are only left out of a program that never calls `read`, `check`, `add`,
/// `Crc::update` or `Crc::update_long`.
///
/// # Errors
///
/// Those of `read`, in the same order.
pub fn read_small(bytes: &[u8]) -> Result<File<'_>, SuffixFault>
    ensures found { IfOk result (λ f. (extra : List ℕ) × IsFile f.payload f.ids f.dfu extra bytes.now × (f.suffix ≡ 16 + length extra)) }
    ensures only { (payload : List ℕ) (ids : Ids) (dfu : ℕ) (extra : List ℕ) → IsFile payload ids dfu extra bytes.now
        → result ≡ Ok (record { payload = payload; ids = ids; dfu = dfu; suffix = 16 + length extra }) }
    ensures fault { (fault : SuffixFault) → (result ≡ Err fault) ↔ First fault bytes.now }
{
    read_by(bytes, true)
}
