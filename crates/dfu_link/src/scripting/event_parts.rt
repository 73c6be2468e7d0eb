//! Parts of the events of a line: the file of an offer, the fate of an action in which a write is harmed, and the check of an image that an
//! action closes.

ghost use Rattle.std.specs.Prelude.{◌≡◌, IfOk, IfErr, ◌+◌, ◌≤◌, ◌<◌, ◌∷◌, [], length, get_or, drop, IfSome, IfNone};
ghost use Rattle.dfu_link.specs.LineContent.{given_bytes, harm_fate};
ghost use Rattle.dfu_link.specs.inside.Moving.{offered_file_bytes, IsOfferedFileOf, NoRoomForFile};
ghost use Rattle.dfu_sim.specs.Happening.{fate_of, harm_of_fate, happening, Offers, harmed};
ghost use Rattle.dfu_link.specs.ScriptRun.{has_front};
ghost use Rattle.dfu_link.specs.inside.AcceptedImage.{candidate_bytes_of};

use crate::scripting::fault::ScriptFault;
use crate::scripting::line::{EventLine, HarmKind, Line, Offered};
use crate::scripting::reading::parse;
use crate::scripting::starting::bytes_of;
use dfu_device::Candidate;
use dfu_host::Limits;
use dfu_sim::{Event, Fate, Purpose};
use dfu_slots::{Medium, Slots};
use std::alloc::Global;

/// File of an offer: bytes decoded from the line, or the bytes given to the script.
#[derive(Drop)]
pub(crate) enum OfferedFile<'g> {
    Decoded(Vec<u8>),
    Given(&'g [u8]),
}

impl<'g> OfferedFile<'g> {
    /// Returns the bytes of the file.
    pub(crate) fn bytes(&self) -> &[u8]
        ensures { result.now ≡ offered_file_bytes self.now }
    {
        match self {
            OfferedFile::Decoded(bytes) => bytes,
            OfferedFile::Given(bytes) => bytes,
        }
    }
}

/// Returns the file of an offer, or an empty one for any other line. Given bytes are not copied.
pub(crate) fn file_of<'g>(
    alloc: Global,
    given: Option<&'g [u8]>,
    line: &[u8],
) -> Result<OfferedFile<'g>, ScriptFault>
    ensures ok { IfOk result (λ file. IsOfferedFileOf (given_bytes given.entry) line.now (offered_file_bytes file)) }
    ensures fault { IfErr result (λ f. NoRoomForFile (given_bytes given.entry) line.now f) }
{
    match parse(given, line) {
        Some(Line::Do(EventLine::Offer { file, .. })) => match file {
            Offered::Given(bytes) => Ok(OfferedFile::Given(bytes)),
            Offered::Spelled(text) => Ok(OfferedFile::Decoded(bytes_of(alloc, text)?)),
        },
        _ => Ok(OfferedFile::Given(&[])),
    }
}

/// Returns the fate of an action in which the first `writes` writes succeed, and the next one is torn with `tear`. `harm` is the kind of
/// the harm.
pub(crate) fn harmed(harm: HarmKind, writes: u32, tear: &[u8]) -> Fate<'_>
    ensures fate { fate_of result ≡ harm_fate harm }
    ensures harm { harm_of_fate result ≡ harmed writes tear.now }
{
    match harm {
        HarmKind::Cut => Fate::Cut { writes, tear },
        HarmKind::Fail => Fate::Fail { writes, tear },
        HarmKind::Lie => Fate::Lie { writes, tear },
    }
}

/// Returns the event that offers `file`, to install it, or to install and verify it.
pub(crate) fn offered<'f>(purpose: Purpose, file: &'f [u8], limits: Limits) -> Event<'f, 'static>
    ensures { happening result ≡ Offers purpose file.now limits }
{
    match purpose {
        Purpose::Install => Event::Offer { file, limits },
        Purpose::Verify => Event::OfferVerified { file, limits },
    }
}

/// Returns the byte of the medium at address `at` + `i`.
fn stored_byte<M: Medium>(slots: &Slots<M>, at: u32, i: usize) -> u8
    requires { at + i < length slots.now.medium.bytes }
    ensures { result ≡ get_or slots.now.medium.bytes (at + i) 0 }
{
    let medium = slots.medium();
    // The proof needs the contract of this call, by which each address of the medium fits in 32 bits.
    let _end = medium.len();
    let mut byte = [0; 1];
    medium.read(at + i as u32, &mut byte);
    byte[0]
}

/// Returns byte `i` of a received image, or None after its last byte.
fn byte_at<M: Medium>(slots: &Slots<M>, candidate: Candidate, i: usize) -> Option<u8>
    requires { candidate.at + candidate.stored ≤ length slots.now.medium.bytes }
    ensures some { IfSome result (λ byte. (i < length (candidate_bytes_of slots.now candidate)) × (byte ≡ get_or (candidate_bytes_of slots.now candidate) i 0)) }
    ensures none { IfNone result (length (candidate_bytes_of slots.now candidate) ≤ i) }
{
    let stored = candidate.stored as usize;
    if i < stored {
        return Some(stored_byte::<M>(slots, candidate.at, i));
    }
    let held = slots.held();
    if i - stored < held.len() {
        return Some(held[i - stored]);
    }
    None
}

/// Returns true if byte `i` of a received image is `byte`.
fn has_byte<M: Medium>(slots: &Slots<M>, candidate: Candidate, i: usize, byte: u8) -> bool
    requires { candidate.at + candidate.stored ≤ length slots.now.medium.bytes }
    ensures { result ≡ has_front (byte ∷ []) (drop i (candidate_bytes_of slots.now candidate)) }
{
    match byte_at::<M>(slots, candidate, i) {
        None => false,
        Some(found) => byte == found,
    }
}

/// Returns true if a received image begins with the bytes of `check`.
pub(crate) fn begins<M: Medium>(slots: &Slots<M>, candidate: Candidate, check: &[u8]) -> bool
    requires { candidate.at + candidate.stored ≤ length slots.now.medium.bytes }
    ensures { result ≡ has_front check.now (candidate_bytes_of slots.now candidate) }
{
    for i in 0..check.len() {
        if !has_byte::<M>(slots, candidate, i, check[i]) {
            return false;
        }
    }
    true
}
