//! A session of a host that takes no memory.

ghost use Rattle.std.specs.Prelude.{◌≡◌, ◌↔◌, ◌<◌, ◌≤◌, ◌-◌, ◌+◌, nat_lt, Bool, true, false, Err, IfOk, IfSome, IsTrue, List, None, Some, ℕ, length, take};
ghost use Rattle.std.specs.Borrow.{Bor};

use crate::action::Action;
use crate::fault::HostFault;
use crate::goal::Goal;
use crate::limits::Limits;
use crate::part::UploadPart;
use crate::parts::Parts;
use crate::phase::Phase;
use crate::progress::{Progress, beginning};
use crate::refusing::{gives_uploads, goal_to_install};
use crate::seen::Seen;
use crate::task::Task;
use dfu_suffix::File;
use dfu_wire::{Functional, Ids};
use std::marker::Model;

/// A session of a host, for a caller that keeps the fetched bytes itself. A session takes no memory.
#[derive(Drop)]
pub struct Session<'f> {
    task: Task<'f>,
    progress: Progress,
}

impl<'f> Model for Session<'f> {
    ghost use Rattle.dfu_host.specs.declared.parts.Parts.{Parts};
    ghost use Rattle.dfu_host.specs.InParts.{HasPhaseNeeds};
    ghost use Rattle.dfu_host.specs.inside.View.{session_parts};

    // The parts of the session. Together with the bytes that the caller keeps, they form a `HostState`, which is the view of a `Host` too.
    ghost Value = { Parts };

    ghost view = { λ s. session_parts s.task s.progress };

    ghost invariant = { λ s. HasPhaseNeeds s.task.goal s.task.transfer s.progress.phase };
}

impl<'f> Session<'f> {
    ghost use Rattle.dfu_host.specs.Host.{Act, aborted_host, host_for_goal};
    ghost use Rattle.dfu_host.specs.Budget.{is_done, remaining_results};
    ghost use Rattle.dfu_host.specs.Download.{first_download_fault, first_verify_fault};
    ghost use Rattle.dfu_host.specs.Phases.{FetchGoal, LoadGoal, VerifyGoal};
    ghost use Rattle.dfu_host.specs.Uploading.{first_upload_fault};
    ghost use Rattle.dfu_host.specs.Goals.{CarriesPayload, goal_of, payload_of, size_of};
    ghost use Rattle.dfu_host.specs.InParts.{BodyIsSliceOfPayload, ArePartsOfSession, body_offset, host_of, bytes_kept_for_part};
    ghost use Rattle.dfu_host.specs.UploadBuffer.{MemoryAfterSeen, PartAppendedOrRefused};
    ghost use Rattle.dfu_host.specs.TakeCall.{TakeResult};
    ghost use Rattle.dfu_host.specs.Rooms.{FetchResultIn};
    ghost use Rattle.dfu_host.specs.Storing.{PartIsStored, RoomAfterSeen};
    ghost use Rattle.dfu_host.specs.inside.Refusing.{RefusesAnswerByRoom};
    ghost use Rattle.dfu_host.specs.declared.fault.HostFault.{HostFault};

    /// Returns a new session that installs a file, as [`crate::Host::download`] does, with the same faults.
    pub fn download(
        file: &File<'f>,
        functional: &Functional,
        device: Ids,
        limits: Limits,
    ) -> Result<Session<'f>, HostFault>
        ensures refused { (fault : HostFault) → (result ≡ Err fault) ↔ (first_download_fault file.now functional.now device ≡ Some fault) }
        ensures started { IfOk result (λ s. (memory : List ℕ)
            → host_of memory s ≡ host_for_goal functional.now (LoadGoal file.now.payload) limits) }
    {
        let goal = goal_to_install(file, functional, device, false)?;
        Ok(Session::begin(goal, functional, limits))
    }

    /// Returns a new session that installs a file and then compares the image in the device with it, as [`crate::Host::download_verified`]
    /// does, with the same faults.
    pub fn download_verified(
        file: &File<'f>,
        functional: &Functional,
        device: Ids,
        limits: Limits,
    ) -> Result<Session<'f>, HostFault>
        ensures refused { (fault : HostFault) → (result ≡ Err fault) ↔ (first_verify_fault file.now functional.now device ≡ Some fault) }
        ensures started { IfOk result (λ s. (memory : List ℕ)
            → host_of memory s ≡ host_for_goal functional.now (VerifyGoal file.now.payload) limits) }
    {
        let goal = goal_to_install(file, functional, device, true)?;
        Ok(Session::begin(goal, functional, limits))
    }

    /// Returns a new session that fetches the active image, as [`crate::Host::upload`] does, with the same faults.
    pub fn upload(functional: &Functional, limits: Limits) -> Result<Session<'f>, HostFault>
        ensures refused { (fault : HostFault) → (result ≡ Err fault) ↔ (first_upload_fault functional.now ≡ Some fault) }
        ensures started { IfOk result (λ s. (memory : List ℕ) → host_of memory s ≡ host_for_goal functional.now FetchGoal limits) }
    {
        gives_uploads(functional)?;
        Ok(Session::begin(Goal::Fetch, functional, limits))
    }

    /// Returns a new session with `goal`, the device descriptor `functional` and `limits`.
    pub(crate) fn begin(goal: Goal<'f>, functional: &Functional, limits: Limits) -> Session<'f>
        requires some { 0 < size_of goal }
        requires transfers { 0 < functional.now.transfer }
        ensures { (memory : List ℕ) → host_of memory result ≡ host_for_goal functional.now (goal_of goal.entry) limits }
    {
        Session {
            task: Task {
                goal,
                transfer: functional.transfer,
                tolerant: functional.tolerant,
                will_detach: functional.will_detach,
                detach_ms: functional.detach_ms,
            },
            progress: beginning(limits),
        }
    }

    /// Returns the session's parts, from which [`Session::from_parts`] creates the session again.
    pub fn parts(&self) -> Parts<'f>
        ensures parts { result ≡ self.now }
        ensures sound { ArePartsOfSession result }
    {
        Parts {
            goal: self.task.goal,
            transfer: self.task.transfer,
            tolerant: self.task.tolerant,
            will_detach: self.task.will_detach,
            detach_ms: self.task.detach_ms,
            phase: self.progress.phase,
            actions: self.progress.actions,
            restarts: self.progress.restarts,
        }
    }

    /// Returns the session of `parts`. None exactly if no session has these parts: the goal has an empty payload, the transfer size is 0,
    /// or the phase needs something that doesn't exist, such as a block after the last one.
    pub fn from_parts(parts: Parts<'f>) -> Option<Session<'f>>
        ensures some { IfSome result (λ s. s ≡ parts.entry) }
        ensures refused { (result ≡ None) ↔ (ArePartsOfSession parts.entry → ⊥) }
    {
        if !parts.is_session() {
            return None;
        }
        Some(Session {
            task: Task {
                goal: parts.goal,
                transfer: parts.transfer,
                tolerant: parts.tolerant,
                will_detach: parts.will_detach,
                detach_ms: parts.detach_ms,
            },
            progress: Progress {
                phase: parts.phase,
                actions: parts.actions,
                restarts: parts.restarts,
            },
        })
    }

    /// Returns the next action that the caller must carry out. The call changes nothing, so it may be repeated.
    pub fn next(&self) -> Action<'f>
        ensures act { (memory : List ℕ) → Act (host_of memory self.now) result }
        ensures done { (memory : List ℕ) → IsTrue (is_done result) ↔ (remaining_results (host_of memory self.now) ≡ 0) }
        ensures cut { BodyIsSliceOfPayload (payload_of self.now.goal) (body_offset self.now.transfer self.now.phase) result }
    {
        self.task.action(self.progress.phase)
    }

    /// Returns the offset in the payload of the body of `next`; 0 if there is no body. The body is a slice of the payload that begins
    /// there.
    pub fn sends_from(&self) -> usize
        ensures { result ≡ body_offset self.now.transfer self.now.phase }
    {
        match self.progress.phase {
            Phase::Block(number) => self.task.begins(number),
            _ => 0,
        }
    }

    /// Returns the part of the image in `seen` that must be kept before the session takes the result; None if `seen` has no such part.
    pub(crate) fn part<'s>(&self, seen: Seen<'s>) -> Option<UploadPart<'s>>
        ensures some { IfSome result (λ part. (refused : Bool) (memory memory' : List ℕ)
            → PartAppendedOrRefused part.number part.bytes.now refused memory memory'
            → MemoryAfterSeen self.now.transfer self.now.phase seen.entry refused memory memory') }
        ensures none { result ≡ None → (memory : List ℕ) → MemoryAfterSeen self.now.transfer self.now.phase seen.entry false memory memory }
        ensures some_refused { IfSome result (λ part. (refused : Bool) (memory : List ℕ) (room : ℕ)
            → refused ≡ nat_lt room (length (bytes_kept_for_part part.number memory) + length part.bytes.now)
            → RefusesAnswerByRoom room self.now.transfer self.now.phase memory seen.entry refused) }
        ensures none_refused { result ≡ None → (memory : List ℕ) (room : ℕ)
            → RefusesAnswerByRoom room self.now.transfer self.now.phase memory seen.entry false }
        ensures some_stored { IfSome result (λ part. (count : ℕ) (room : List ℕ) (count' : ℕ) (room' : List ℕ)
            → false ≡ nat_lt (length room) (length (bytes_kept_for_part part.number (take count room)) + length part.bytes.now)
            → PartIsStored (bytes_kept_for_part part.number (take count room)) part.bytes.now room count' room'
            → RoomAfterSeen self.now.transfer self.now.phase seen.entry count room count' room') }
        ensures some_full { IfSome result (λ part. (count : ℕ) (room : List ℕ)
            → true ≡ nat_lt (length room) (length (bytes_kept_for_part part.number (take count room)) + length part.bytes.now)
            → RoomAfterSeen self.now.transfer self.now.phase seen.entry count room count room) }
        ensures none_stored { result ≡ None → (count : ℕ) (room : List ℕ)
            → RoomAfterSeen self.now.transfer self.now.phase seen.entry count room count room }
    {
        match (self.progress.phase, seen) {
            (Phase::Fetch(number), Seen::Bytes(bytes)) => self.task.part_in(number, bytes),
            _ => None,
        }
    }

    /// Passes the result of the session's action to the session. `refused` is true if the caller did not keep the part in the result.
    pub(crate) fn on_result(&mut self, seen: Seen<'_>, refused: bool)
        ensures payload { (payload : Bor (List ℕ)) → CarriesPayload payload self.old.goal → CarriesPayload payload self.new.goal }
        ensures takes { (memory memory' : List ℕ) → MemoryAfterSeen self.old.transfer self.old.phase seen.entry refused memory memory'
            → TakeResult (host_of memory self.old) seen.entry (host_of memory' self.new) }
        ensures room { (memory memory' : List ℕ) (room : ℕ) → MemoryAfterSeen self.old.transfer self.old.phase seen.entry refused memory memory'
            → RefusesAnswerByRoom room self.old.transfer self.old.phase memory seen.entry refused
            → FetchResultIn room (host_of memory self.old) (host_of memory self.old).phase seen.entry (host_of memory' self.new) }
    {
        let phase = self.progress.phase;
        let heard = self.task.hear(phase, seen, refused);
        self.progress = self.progress.after(&mut self.task, heard);
    }

    /// Aborts the session, as [`crate::Host::abort`] does.
    pub fn abort(&mut self)
        ensures payload { (payload : Bor (List ℕ)) → CarriesPayload payload self.old.goal → CarriesPayload payload self.new.goal }
        ensures given_up { (memory : List ℕ) → host_of memory self.new ≡ aborted_host (host_of memory self.old) }
    {
        match self.progress.phase {
            Phase::Over(_) | Phase::OverUploaded => {}
            _ => self.progress.phase = Phase::GiveUp,
        }
    }
}
