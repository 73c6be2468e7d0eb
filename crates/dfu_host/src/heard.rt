//! Meanings of results for a host.

ghost use Rattle.std.specs.Prelude.{◌≡◌, List, ℕ, length};
ghost use Rattle.dfu_host.specs.inside.Comparing.{ComparedMeaning};
ghost use Rattle.dfu_host.specs.inside.PartMemory.{MemoryAfter, NoRoomOnlyIfNeeded};
ghost use Rattle.dfu_host.specs.inside.Refusing.{SeenMeaningIn, BytesMeaningIn};
ghost use Rattle.dfu_host.specs.Table.{deed};
ghost use Rattle.dfu_host.specs.UploadBuffer.{MemoryAfterSeen, MemoryAfterBytes};
ghost use Rattle.dfu_host.specs.InParts.{HasPhaseNeeds, phase_of};
ghost use Rattle.dfu_host.specs.inside.View.{meaning_of_heard, part_of, task_of_session};
ghost use Rattle.dfu_host.specs.Wire.{SeenMeaning, BytesMeaning, ReadsStatus, ReadsState};
ghost use Rattle.dfu_host.specs.declared.phase.Phase.{Phase};
ghost use Rattle.dfu_host.specs.declared.task.Task.{Task};

use crate::phase::Phase;
use crate::seen::Seen;
use crate::task::Task;
use dfu_wire::{State, Status};

/// Meaning of a result for a host.
#[derive(Clone, Copy)]
pub(crate) enum Heard {
    Acked,
    Told(Status),
    StateIs(State),
    /// Length in bytes of a part of an upload. If the part must be kept, it is kept already.
    Part(usize),
    /// A part of an image that was compared. `same` is true if it equals the payload's block, and `len` is its length in bytes.
    Compared { same: bool, len: usize },
    /// A part of an upload for which there was no memory.
    NoRoom,
    Stalled,
    Nothing,
    Waited,
    WasReset,
    Restarted,
    Left,
}

impl Task<'_> {
    /// Returns the meaning of `seen` in `phase`. Bytes are read as the answer to the phase's request; bytes that aren't a valid answer mean
    /// Nothing. A part of an upload that must be kept is kept already, unless it was `refused`. A part of a comparison is compared here.
    pub(crate) fn hear(&self, phase: Phase, seen: Seen<'_>, refused: bool) -> Heard
        requires { HasPhaseNeeds self.now.goal self.now.transfer phase }
        ensures hears { (memory : List ℕ) → SeenMeaning (deed (task_of_session self.now) (phase_of memory phase)) seen.entry
            (meaning_of_heard (part_of seen.entry) result) }
        ensures keeps { (memory memory' : List ℕ) → MemoryAfterSeen self.now.transfer phase seen.entry refused memory memory'
            → MemoryAfter self.now.transfer memory phase (part_of seen.entry) result memory' }
        ensures compares { ComparedMeaning (task_of_session self.now) phase (part_of seen.entry) result }
        ensures room { NoRoomOnlyIfNeeded self.now phase (part_of seen.entry) result }
        ensures by { (memory memory' : List ℕ) → MemoryAfterSeen self.now.transfer phase seen.entry refused memory memory'
            → SeenMeaningIn phase seen.entry refused result }
    {
        match seen {
            Seen::Ack => Heard::Acked,
            Seen::Bytes(bytes) => self.answered(phase, bytes, refused),
            Seen::Stall => Heard::Stalled,
            Seen::Nothing => Heard::Nothing,
            Seen::Waited => Heard::Waited,
            Seen::WasReset => Heard::WasReset,
            Seen::Restarted => Heard::Restarted,
            Seen::Left => Heard::Left,
        }
    }

    /// Returns the meaning of `bytes` as an answer in `phase`.
    fn answered(&self, phase: Phase, bytes: &[u8], refused: bool) -> Heard
        requires { HasPhaseNeeds self.now.goal self.now.transfer phase }
        ensures hears { (memory : List ℕ) → BytesMeaning (deed (task_of_session self.now) (phase_of memory phase)) bytes.now
            (meaning_of_heard bytes.now result) }
        ensures keeps { (memory memory' : List ℕ) → MemoryAfterBytes self.now.transfer phase bytes.now refused memory memory'
            → MemoryAfter self.now.transfer memory phase bytes.now result memory' }
        ensures compares { ComparedMeaning (task_of_session self.now) phase bytes.now result }
        ensures room { NoRoomOnlyIfNeeded self.now phase bytes.now result }
        ensures by { (memory memory' : List ℕ) → MemoryAfterBytes self.now.transfer phase bytes.now refused memory memory'
            → BytesMeaningIn phase (length bytes.now) refused result }
    {
        match phase {
            Phase::Find | Phase::FindAgain | Phase::Poll(_) | Phase::Manifest | Phase::Trouble => {
                status_in(bytes)
            }
            Phase::Ask(_) | Phase::AskLast => state_in(bytes),
            Phase::Fetch(number) => self.received(number, bytes, refused),
            Phase::Compare(number) => self.compare(number, bytes),
            _ => Heard::Nothing,
        }
    }
}

/// Returns the status that `bytes` encode, or Nothing if they encode none.
fn status_in(bytes: &[u8]) -> Heard
    ensures reads { (part : List ℕ) → ReadsStatus bytes.now (meaning_of_heard part result) }
    ensures room { (task : Task) (phase : Phase) (part : List ℕ) → NoRoomOnlyIfNeeded task phase part result }
{
    match Status::decode(bytes) {
        Ok(status) => Heard::Told(status),
        Err(_) => Heard::Nothing,
    }
}

/// Returns the state that `bytes` encode, or Nothing if they aren't a single byte that encodes a state.
fn state_in(bytes: &[u8]) -> Heard
    ensures reads { (part : List ℕ) → ReadsState bytes.now (meaning_of_heard part result) }
    ensures room { (task : Task) (phase : Phase) (part : List ℕ) → NoRoomOnlyIfNeeded task phase part result }
{
    match bytes {
        [byte] => match State::from_byte(*byte) {
            Ok(state) => Heard::StateIs(state),
            Err(_) => Heard::Nothing,
        },
        _ => Heard::Nothing,
    }
}
