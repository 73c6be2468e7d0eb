//! Laws of a device that requests its flash writes from the caller. Each law is the proved contract of a function with an empty body;
//! calling it has no effect.

ghost use Rattle.std.specs.Prelude.{◌≡◌, ◌⊎◌, ◌+◌, ◌≤◌, ℕ, List, length, Bool, true, slice_range};
ghost use Rattle.dfu_slots.specs.Units.{Grain};
ghost use Rattle.dfu_slots.specs.declared.fault.WriteFault.{WriteFault};
ghost use Rattle.dfu_slots.specs.Medium.{MediumState, Write, AllWrites, BrokenWrites, Torn, written};
ghost use Rattle.dfu_slots.specs.StoreView.{SlotsState, Commit, writes_of, store_on, room_of, is_shaped};
ghost use Rattle.dfu_slots.specs.Store.{IsStore};
ghost use Rattle.dfu_device.specs.Parts.{is_put};
ghost use Rattle.dfu_device.specs.DeviceView.{DeviceView};
ghost use Rattle.dfu_device.specs.Errors.{IsMediumError};
ghost use Rattle.dfu_device.specs.Rows.{Cause, Row};
ghost use Rattle.dfu_device.specs.declared.answer.Answer.{Answer};
ghost use Rattle.dfu_asks.specs.declared.reply.Reply.TheVariants.{Answered};
ghost use Rattle.dfu_asks.specs.Lent.{LentDevice};
ghost use Rattle.dfu_asks.specs.Asks.{device_in};
ghost use Rattle.dfu_asks.specs.Calls.{DeviceCalled, DevicePieceReported};
ghost use Rattle.dfu_asks.specs.Mapped.{mapped_medium};
ghost use Rattle.dfu_asks.specs.declared.pending_writes.SlotWrite.{SlotWrite};
ghost use Rattle.dfu_asks.specs.Steps.{Step, step_writes};
ghost use Rattle.dfu_asks.specs.Jobs.{job_writes, job_steps};
ghost use Rattle.dfu_asks.specs.Carried.{total, bytes_after_writes, WritesWithin, IsStepPiece};
ghost use Rattle.dfu_asks.specs.Series.{block_series, block_store, BlockWritten, BlockBroken, CommitCompleted, CommitBroken};

use dfu_device::laws::rows_keep;

/// A series that is carried out piece by piece has the same effect as its writes. Once all pieces are carried out, all writes are made.
/// Each piece that succeeds advances the series by its bytes. A failed piece, whichever bytes it leaves in its range, breaks the series off
/// in its write.
pub fn pieces_are_the_writes()
    ensures all { (grain : Grain) (writes : List Write) (bytes : List ℕ) →
        AllWrites (mapped_medium grain bytes) writes (mapped_medium grain (bytes_after_writes bytes writes (total writes))) }
    ensures next { (steps : List Step) (bytes : List ℕ) (n : ℕ) (piece : Step) → let writes = step_writes steps in
        WritesWithin writes (length bytes) → IsStepPiece steps n piece →
        bytes_after_writes bytes writes (n + length piece.write.bytes) ≡ written
        (bytes_after_writes bytes writes n) piece.write.at piece.write.bytes }
    ensures torn { (grain : Grain) (fault : WriteFault) (steps : List Step) (bytes now : List ℕ) (n : ℕ) (piece : Step) →
        let writes = step_writes steps in WritesWithin writes (length bytes) → IsStepPiece steps n piece →
        Torn (bytes_after_writes bytes writes n) piece.write.at piece.write.bytes now →
        BrokenWrites fault (mapped_medium grain bytes) writes (mapped_medium grain now) }
{}

/// The steps of a job are its writes, each marked as the erase of a sector or as a program.
pub fn steps_are_the_writes()
    ensures { (job : SlotWrite) (grain : Grain) (end : ℕ) (held block : List ℕ) →
        step_writes (job_steps job grain end held block) ≡ job_writes job grain end held block }
{}

/// The writes of a row, made in their order, have the same effect as the slot store calls of the row; a write with a fault breaks these
/// calls off. No other part of a row changes the medium.
pub fn writes_are_the_calls()
    ensures block { (s : SlotsState) (n : ℕ) (block : List ℕ) (now : MediumState) → IsStore s → is_shaped s ≡ true →
        (n ≡ 0) ⊎ (is_put n s ≡ true) → n + length block ≤ room_of s →
        AllWrites s.medium (block_series s n block) now → BlockWritten s n block (block_store s n block now) }
    ensures block_broken { (fault : WriteFault) (s : SlotsState) (n : ℕ) (block : List ℕ) (now : MediumState) → IsStore s →
        is_shaped s ≡ true → (n ≡ 0) ⊎ (is_put n s ≡ true) → n + length block ≤ room_of s →
        BrokenWrites fault s.medium (block_series s n block) now → BlockBroken fault s n block (store_on now) }
    ensures commit { (s : SlotsState) (n : ℕ) (now : MediumState) → IsStore s → is_shaped s ≡ true → is_put n s ≡ true → n ≤ room_of s →
        AllWrites s.medium (writes_of s (Commit n)) now → CommitCompleted s n (store_on now) }
    ensures commit_broken { (fault : WriteFault) (s : SlotsState) (n : ℕ) (now : MediumState) → IsStore s → is_shaped s ≡ true →
        is_put n s ≡ true → n ≤ room_of s →
        BrokenWrites fault s.medium (writes_of s (Commit n)) now → CommitBroken fault s n (store_on now) }
{}

/// The device reports an error of the medium (errWRITE, errPROG or errVERIFY; USB DFU 1.1, section 6.1.2) only after an operation that
/// failed. A call that is answered leads to no such error, because it made no write. A reported piece leads to one only if it failed, or if
/// other bytes are on the flash.
pub fn errors_follow_failures()
    ensures answered { (a now : LentDevice) (flash out out' : List ℕ) (cause : Cause) (x : Answer) (count : ℕ) →
        DeviceCalled a flash out (λ d y sent d'. Row d cause y sent d') now out' (Answered x count) →
        IsMediumError (device_in now flash).stage → IsMediumError (device_in a flash).stage }
    ensures took { (d : DeviceView) (len : ℕ) (s : SlotsState) (was flash out out' : List ℕ) (p : Write) (failed : Bool) (now : LentDevice)
        (x : Answer) (count : ℕ) → DevicePieceReported d len s was p failed flash out now out' (Answered x count) →
        IsMediumError (device_in now flash).stage →
        (failed ≡ true) ⊎ ¬ (slice_range flash p.at (p.at + length p.bytes) ≡ p.bytes) }
{
    // The proof uses the clause `errors` of this call's contract.
    rows_keep();
}
