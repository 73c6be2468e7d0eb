//! The rows of the phases that fetch the image, and the parts to keep.

ghost use Rattle.std.specs.Prelude.{◌≡◌, ◌⊎◌, ◌+◌, ◌<◌, nat_lt, Bool, true, false, if◌then◌else◌, IfSome, None, List, ℕ, length, take};
ghost use Rattle.dfu_host.specs.inside.PartMemory.{Joined, MemoryAfter, PartMemory, NoRoomOnlyIfNeeded};
ghost use Rattle.dfu_host.specs.Table as table;
ghost use Rattle.dfu_host.specs.UploadBuffer.{AnswerKeptOrRefused, PartAppendedOrRefused};
ghost use Rattle.dfu_host.specs.InParts.{HasPhaseNeeds, bytes_kept_for_part, phase_of};
ghost use Rattle.dfu_host.specs.Rooms.{part_overflows};
ghost use Rattle.dfu_host.specs.Storing.{RoomIsUnchanged, PartIsStored, StoresPart};
ghost use Rattle.dfu_host.specs.inside.View.{meaning_of_heard, task_of_session};
ghost use Rattle.dfu_host.specs.Wire.{is_part_to_be_kept};

use crate::heard::Heard;
use crate::part::UploadPart;
use crate::phase::Phase;
use crate::report::Report;
use crate::task::Task;

/// Number of full parts after which an upload ends without its image, and a comparison without its verdict. This project chose the limit.
pub(crate) const MOST_PARTS: u16 = 65_535;

impl Task<'_> {
    /// Returns the meaning of a part of the image: NoRoom if the caller refused a part that has bytes and must be kept, else the part's
    /// length.
    pub(crate) fn received(&self, number: u16, part: &[u8], refused: bool) -> Heard
        requires { HasPhaseNeeds self.now.goal self.now.transfer (Phase.Fetch number) }
        ensures heard { (result ≡ Heard.Part (length part.now)) ⊎ (result ≡ Heard.NoRoom) }
        ensures keeps { (memory memory' : List ℕ) → AnswerKeptOrRefused self.now.transfer number part.now refused memory memory'
            → PartMemory self.now.transfer number memory part.now result memory' }
        ensures room { NoRoomOnlyIfNeeded self.now (Phase.Fetch number) part.now result }
        ensures by { (memory memory' : List ℕ) → AnswerKeptOrRefused self.now.transfer number part.now refused memory memory'
            → result ≡ (if refused then Heard.NoRoom else Heard.Part (length part.now)) }
    {
        if refused && !part.is_empty() && self.is_kept(number, part.len()) {
            Heard::NoRoom
        } else {
            Heard::Part(part.len())
        }
    }

    /// Returns the part to keep from `bytes`, which answer the UPLOAD of part `number`; None if the part is too long, or is the full part
    /// that is one too many.
    pub(crate) fn part_in<'s>(&self, number: u16, bytes: &'s [u8]) -> Option<UploadPart<'s>>
        requires { number < 65535 }
        ensures some { IfSome result (λ part. (refused : Bool) (memory memory' : List ℕ)
            → PartAppendedOrRefused part.number part.bytes.now refused memory memory'
            → AnswerKeptOrRefused self.now.transfer number bytes.now refused memory memory') }
        ensures none { result ≡ None → (memory : List ℕ) → AnswerKeptOrRefused self.now.transfer number bytes.now false memory memory }
        ensures some_refused { IfSome result (λ part. (refused : Bool) (memory : List ℕ) (room : ℕ)
            → refused ≡ nat_lt room (length (bytes_kept_for_part part.number memory) + length part.bytes.now)
            → refused ≡ part_overflows room self.now.transfer number (bytes_kept_for_part number memory) bytes.now) }
        ensures none_refused { result ≡ None → (memory : List ℕ) (room : ℕ)
            → false ≡ part_overflows room self.now.transfer number (bytes_kept_for_part number memory) bytes.now }
        ensures some_stored { IfSome result (λ part. (count : ℕ) (room : List ℕ) (count' : ℕ) (room' : List ℕ)
            → false ≡ nat_lt (length room) (length (bytes_kept_for_part part.number (take count room)) + length part.bytes.now)
            → PartIsStored (bytes_kept_for_part part.number (take count room)) part.bytes.now room count' room'
            → StoresPart self.now.transfer number bytes.now count room count' room') }
        ensures some_full { IfSome result (λ part. (count : ℕ) (room : List ℕ)
            → true ≡ nat_lt (length room) (length (bytes_kept_for_part part.number (take count room)) + length part.bytes.now)
            → StoresPart self.now.transfer number bytes.now count room count room) }
        ensures none_stored { result ≡ None → (count : ℕ) (room : List ℕ)
            → StoresPart self.now.transfer number bytes.now count room count room }
    {
        if self.is_kept(number, bytes.len()) {
            Some(UploadPart { number, bytes })
        } else {
            None
        }
    }

    /// Returns true if part `number` of `len` bytes is kept: a full part, or a shorter one, which is the last. The full part that is one
    /// too many is not kept.
    fn is_kept(&self, number: u16, len: usize) -> bool
        requires { number < 65535 }
        ensures { result ≡ is_part_to_be_kept self.now.transfer number len }
    {
        let transfer = self.transfer as usize;
        len < transfer || len == transfer && number + 1 != MOST_PARTS
    }

    /// Returns the phase after the UPLOAD of part `number`. If the part in `heard` must be kept, it is kept already.
    pub(crate) fn after_fetch(&self, number: u16, heard: Heard) -> Phase
        requires { HasPhaseNeeds self.now.goal self.now.transfer (Phase.Fetch number) }
        ensures next { (memory memory' part : List ℕ)
            → MemoryAfter self.now.transfer memory (Phase.Fetch number) part heard memory'
            → phase_of memory' result
            ≡ table.host_row (task_of_session self.now) (table.Fetch number (bytes_kept_for_part number memory))
            (meaning_of_heard part heard) }
        ensures within { HasPhaseNeeds self.now.goal self.now.transfer result }
    {
        match heard {
            Heard::Part(len) => self.fetched(number, len),
            Heard::NoRoom => Phase::Over(Report::NoMemory),
            _ => Phase::Find,
        }
    }

    /// Returns the phase after part `number` of `len` bytes.
    fn fetched(&self, number: u16, len: usize) -> Phase
        requires { HasPhaseNeeds self.now.goal self.now.transfer (Phase.Fetch number) }
        ensures next { (memory memory' part : List ℕ)
            → Joined self.now.transfer number memory part len memory'
            → phase_of memory' result ≡ table.fetched_phase self.now.transfer number (bytes_kept_for_part number memory) part }
        ensures within { HasPhaseNeeds self.now.goal self.now.transfer result }
    {
        let transfer = self.transfer as usize;
        if len < transfer {
            Phase::LastUploaded
        } else if len > transfer {
            Phase::Find
        } else if number + 1 == MOST_PARTS {
            Phase::Over(Report::TooManyBlocks)
        } else {
            Phase::Fetch(number + 1)
        }
    }

    /// Returns the phase after the last reset of an upload, with all fetched bytes kept. After any result other than a reset, the host
    /// resets the bus again.
    pub(crate) fn after_last_uploaded(&self, heard: Heard) -> Phase
        ensures next { (memory part : List ℕ)
            → phase_of memory result ≡ table.host_row (task_of_session self.now) (table.LastUploaded memory) (meaning_of_heard part heard) }
        ensures within { HasPhaseNeeds self.now.goal self.now.transfer result }
    {
        match heard {
            Heard::WasReset => Phase::OverUploaded,
            _ => Phase::LastUploaded,
        }
    }
}
