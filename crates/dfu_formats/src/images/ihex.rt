//! Intel HEX, records 00 to 05.
//!
//! Each line ends with a line feed, which is optional after the last one. A byte order mark and empty lines are ignored, and so are spaces,
//! tabs and carriage returns at either end of a line. Digits may be of either case. Only blank lines may follow the end record. The data of
//! a record may continue beyond the 65,536 bytes of a linear base (type 04, or none), but not beyond those of a segment (type 02). The
//! start address of a program is ignored.

ghost use Rattle.std.specs.Prelude.{◌≡◌, ◌+◌, ◌≤◌, ◌<◌, ◌^◌, length, IfOk, MatchResult, Ok, Err};
ghost use Rattle.dfu_formats.specs.images.Reading.{IsReadResult, IsReadFault};
ghost use Rattle.dfu_formats.specs.images.Elements.{AreApart, IsElementResult};
ghost use Rattle.dfu_formats.specs.images.IntelHex.{hex_bytes_of_line, hex_record_of_bytes, hex_data_at, leaves_segment, state_with_base, hex_record_applied, hex_record_read, hex_elements_of};

use crate::images::digits::{bytes_at, sum_of};
use crate::images::element::Element;
use crate::images::fault::ImageFault;
use crate::images::limits::MAX_RECORD;
use crate::images::lines::{State, TextFormat, elements_by_line};
use arrayvec::ArrayVec;
use std::alloc::Global;
use std::marker::Model;

/// Returns the bytes of the record in `line`, which has number `at`, from the digits after `:`.
#[tactic(auto, using(std::proofs::lemmas::Bool::Decides::nat_tests), unfolding(crate::specs::images::IntelHex::hex_bytes_of_line))]
fn spelled(at: usize, line: &[u8]) -> Result<ArrayVec<u8, MAX_RECORD>, ImageFault>
    ensures { MatchResult result (λ bytes. hex_bytes_of_line at line.now ≡ Ok bytes.items)
        (λ fault. hex_bytes_of_line at line.now ≡ Err fault) }
{
    match line {
        [b':', digits @ ..] => bytes_at(at, digits),
        _ => Err(ImageFault::NoMark(at)),
    }
}

/// A record: the offset of its data from the base, its type, and its data.
#[derive(Drop)]
struct Record<'t> {
    offset: u32,
    kind: u8,
    content: &'t [u8],
}

impl<'t> Model for Record<'t> {
    ghost use Rattle.dfu_formats.specs.images.IntelHex as hex;

    ghost Value = { hex.HexRecord };

    ghost view = { λ r. record { offset = r.offset; kind = r.kind; content = r.content.now } };
}

/// Splits `bytes`, the record on line `at`, into its fields, or returns the fault of its length or checksum.
#[tactic(auto, using(std::proofs::lemmas::Bool::Decides::nat_tests), unfolding(crate::specs::images::IntelHex::hex_record_of_bytes))]
fn split_record(at: usize, bytes: &[u8]) -> Result<Record<'_>, ImageFault>
    requires { length bytes.now ≤ 260 }
    ensures value { result ≡ hex_record_of_bytes at bytes.now }
    ensures small { IfOk result (λ r. r.offset < 65536) }
{
    if bytes.len() == 0 {
        return Err(ImageFault::BadLength(at));
    }
    let count = bytes[0] as usize;
    if bytes.len() != count + 5 {
        return Err(ImageFault::BadLength(at));
    }
    if sum_of(bytes) % 256 != 0 {
        return Err(ImageFault::BadChecksum(at));
    }
    let (_, behind) = bytes.split_at(4);
    let (content, _) = behind.split_at(count);
    Ok(Record {
        offset: 256 * bytes[1] as u32 + bytes[2] as u32,
        kind: bytes[3],
        content,
    })
}

/// Returns true if the base of `state` is a segment, and the data of record `said` ends beyond this segment.
fn leaves_segment(state: &State, said: &Record<'_>) -> bool
    requires { said.now.offset < 65536 }
    ensures { result ≡ leaves_segment state.now said.now }
{
    state.is_segment && said.offset as usize + said.content.len() > 65_536
}

/// Adds the data of record `said`, on line `at`, at its offset from the base of `state`.
#[tactic(auto, using(std::proofs::lemmas::Bool::Decides::nat_tests), unfolding(crate::specs::images::IntelHex::hex_data_at))]
fn add_data(alloc: Global, at: usize, state: State, said: &Record<'_>) -> Result<State, ImageFault>
    requires { said.now.offset < 65536 }
    ensures value { IsReadResult result (hex_data_at at state said.now) }
    ensures counted { IfOk result (λ s. s.count ≡ state.count) }
{
    let address = state.base + said.offset as u64;
    if leaves_segment(&state, said) || address + said.content.len() as u64 > 0x1_0000_0000 {
        return Err(ImageFault::PastSegment(at));
    }
    match state.gathering.add(alloc, at, address, said.content) {
        Ok(gathering) => Ok(State { gathering, ..state }),
        Err(fault) => Err(fault),
    }
}

/// Sets the base to the two bytes of record `said`, in units of `unit` addresses. Any other number of bytes is BadLength.
#[tactic(auto, using(std::proofs::lemmas::Bool::Decides::nat_tests), unfolding(crate::specs::images::IntelHex::state_with_base))]
fn with_base(at: usize, unit: u64, state: State, said: &Record<'_>) -> Result<State, ImageFault>
    requires { unit ≤ 65536 }
    ensures value { result ≡ state_with_base at unit state said.now }
    ensures counted { IfOk result (λ s. s.count ≡ state.count) }
{
    match said.content {
        [high, low] => Ok(State {
            base: unit * (256 * *high as u64 + *low as u64),
            is_segment: unit == 16,
            ..state
        }),
        _ => Err(ImageFault::BadLength(at)),
    }
}

/// Applies record `said`, on line `at`, by its type. Returns the new state, or the fault.
#[tactic(auto, using(std::proofs::lemmas::Bool::Decides::nat_tests), unfolding(crate::specs::images::IntelHex::hex_record_applied))]
fn do_record(alloc: Global, at: usize, state: State, said: &Record<'_>) -> Result<State, ImageFault>
    requires { said.now.offset < 65536 }
    ensures value { IsReadResult result (hex_record_applied at state said.now) }
    ensures counted { IfOk result (λ s. s.count ≡ state.count) }
{
    match said.kind {
        0 => add_data(alloc, at, state, said),
        1 if said.content.len() == 0 => Ok(State {
            is_whole: true,
            is_ended: true,
            ..state
        }),
        2 => with_base(at, 16, state, said),
        4 => with_base(at, 65_536, state, said),
        3 | 5 if said.content.len() == 4 => Ok(state),
        1 | 3 | 5 => Err(ImageFault::BadLength(at)),
        _ => Err(ImageFault::BadType(at)),
    }
}

/// Intel HEX as a text format.
struct IntelHex;

impl TextFormat for IntelHex {
    ghost step = { hex_record_read };

    #[tactic(auto, using(std::proofs::lemmas::Bool::Decides::nat_tests), unfolding(crate::specs::images::IntelHex::hex_record_read))]
    fn step(alloc: Global, at: usize, state: State, line: &[u8]) -> Result<State, ImageFault> {
        let bytes = match spelled(at, line) {
            Ok(bytes) => bytes,
            Err(fault) => return Err(fault),
        };
        let said = match split_record(at, &bytes) {
            Ok(said) => said,
            Err(fault) => return Err(fault),
        };
        do_record(alloc, at, state, &said)
    }
}

/// Reads the elements of Intel HEX file `text`.
#[tactic(auto, using(std::proofs::lemmas::Bool::Decides::nat_tests), unfolding(crate::specs::images::IntelHex::hex_elements_of))]
pub fn read(alloc: Global, text: &[u8]) -> Result<Vec<Element>, ImageFault>
    // The result is the elements of the file, or its first fault.
    ensures value { IsElementResult result (hex_elements_of text.now) }
    // The elements are sorted by address, and no two share an address.
    ensures apart { IfOk result (λ v. AreApart 0 v.items) }
{
    elements_by_line::<IntelHex>(alloc, text)
}
