//! Next write of a row, and the state of a device at the end of the row.
ghost use Rattle.std.specs.Prelude.{◌≡◌, ◌≤◌, ℕ, List, [], length, take, true, false, if◌then◌else◌, ◌<◌, ◌↔◌, Some};
ghost use Rattle.dfu_slots.specs.Image.{HasImage};
ghost use Rattle.dfu_slots.specs.Writes.{put_rest};
ghost use Rattle.dfu_asks.specs.Mapped.{grain_of, mapped_medium, UnseenState};
ghost use Rattle.dfu_asks.specs.Noted.{IsNoteOfMedium};
ghost use Rattle.dfu_asks.specs.Lent.{lent, HasRoom, SameConfig};
ghost use Rattle.dfu_asks.specs.Asks.{is_block, capped_sum, done_mode, failed_mode, IsKeptAfterWrites, IsKeptAfterFault, NoteAfterRow, IsRowEndAnswer, AnswerInBuffer, device_of, store_with_unseen, device_with, IsWorkingForRow, writes_in, steps_in};
ghost use Rattle.dfu_slots.specs.StoreView.{SlotsState};
ghost use Rattle.dfu_asks.specs.declared.pending_writes.PendingWrites.{PendingWrites};
ghost use Rattle.dfu_asks.specs.Carried.{total, bytes_after_writes, EndsAtPiece};
ghost use Rattle.dfu_asks.specs.Calls.{CallCompleted, DueOutcome, ReplyHasAtMostBytes};
ghost use Rattle.dfu_asks.specs.Due.{DueRowWorks};
ghost use Rattle.dfu_device.specs.declared.answer.Answer.{Answer};

use crate::{Asking, Noted, Reply, Sector};
use dfu_device::{Answer, Config, DeviceState};
use dfu_slots::{Unit, WriteFault};
use dfu_wire::Code;

// Returns true if the due row of a mode writes a block.
fn is_block(mode: DeviceState) -> bool
    ensures { result ≡ is_block mode }
{
    match mode {
        DeviceState::DownloadSync { .. } | DeviceState::DownloadBusy { .. } => true,
        _ => false,
    }
}

// Returns the mode of a device after a row whose writes all succeeded; `len` is the length of the device's block.
fn done_mode(config: Config, mode: DeviceState, len: u32) -> DeviceState
    ensures { result ≡ done_mode config mode len }
{
    match mode {
        DeviceState::DownloadSync { written, number } => DeviceState::DownloadIdle {
            written: written.saturating_add(len),
            number,
        },
        DeviceState::DownloadBusy {
            written,
            number,
            ..
        } => DeviceState::DownloadSyncWritten {
            written: written.saturating_add(len),
            number,
        },
        DeviceState::ManifestSync { .. } => DeviceState::DfuIdle,
        DeviceState::Manifest { .. } => {
            if config.functional().tolerant {
                DeviceState::ManifestSyncComplete
            } else {
                DeviceState::ManifestWaitReset
            }
        }
        mode => mode,
    }
}

// Returns the mode of a device after a row with this fault in a write: dfuERROR with the fault's code.
fn failed_mode(mode: DeviceState, fault: WriteFault) -> DeviceState
    ensures { result ≡ failed_mode fault mode }
{
    let block = is_block(mode);
    let code = match fault {
        WriteFault::NotVerified => Code::Verify,
        WriteFault::Failed => { if block { Code::Write } else { Code::Prog } }
    };
    DeviceState::Error { code }
}

// Joins `held` and `block`, and moves the last bytes, which don't fill a unit, to the front of `held`. Returns the number of these bytes.
fn keep_rest(unit: Unit, held: &mut [u8], held_len: usize, block: &[u8]) -> usize
    requires few { held_len ≤ 256 }
    requires held { held_len ≤ length held.old }
    requires room { HasRoom unit held.old }
    requires block { length block.now ≤ 4096 }
    ensures held { take result held.new ≡ put_rest unit (take held_len held.old) block.now }
    ensures at_most_256 { result ≤ 256 }
{
    let size = unit.size() as usize;
    let all = held_len + block.len();
    let rest = all % size;
    let from = all - rest;
    for i in 0..rest {
        let at = from + i;
        held[i] = if at < held_len {
            held[at]
        } else {
            block[at - held_len]
        };
    }
    rest
}

// Updates the note of the active image after a row in this mode. A commit reads the images; a block leaves the note unchanged.
fn note(noted: &mut Noted, mode: DeviceState, flash: &[u8], unit: Unit, sector: Sector)
    ensures of_block { is_block mode ≡ true → noted.new ≡ noted.old }
    ensures of_commit { let m = mapped_medium (grain_of unit sector) flash.now in is_block mode ≡ false → HasImage m
        → IsNoteOfMedium noted.new m }
{
    if is_block(mode) {
        return;
    }
    if let Some(found) = Noted::find(flash, unit, sector) {
        *noted = found;
    }
}

impl Asking {
    // Moves the bytes that stay held back after a successful row to the front of `held`. Returns their number, and the number of bytes put
    // into the spare slot so far. Both are 0 unless the row wrote a block.
    fn rest_after(&self, block: &[u8], held: &mut [u8]) -> (usize, u32)
        requires { HasRoom self.now.unit held.old }
        ensures held { let a = lent self.now block.now held.old in
            take result.0 held.new ≡ (if is_block a.mode then put_rest a.unit a.held a.block else []) }
        ensures end { let a = lent self.now block.now held.old in
            result.1 ≡ (if is_block a.mode then capped_sum a.put_end (length a.block) else 0) }
        ensures at_most_256 { result.0 ≤ 256 }
    {
        if !is_block(self.mode) {
            return (0, 0);
        }
        let len = self.block_len.min(block.len());
        let held_len = self.held_len.min(held.len());
        let rest = keep_rest(self.unit, held, held_len, &block[..len]);
        (rest, self.put_end.saturating_add(len as u32))
    }

    /// Ends a row whose writes all succeeded.
    pub(crate) fn finish(&mut self, block: &[u8], held: &mut [u8], flash: &[u8])
        requires { HasRoom self.old.unit held.old }
        ensures finished { IsKeptAfterWrites (lent self.old block.now held.old) (lent self.new block.now held.new) }
        ensures notes { NoteAfterRow self.old.mode flash.now (lent self.old block.now held.old) (lent self.new block.now held.new) }
        ensures same_config { SameConfig self.old self.new }
        ensures block { self.new.block_len ≡ self.old.block_len }
    {
        note(&mut self.noted, self.mode, flash, self.unit, self.sector);
        let (held_len, put_end) = self.rest_after(block, held);
        self.held_len = held_len;
        self.put_end = put_end;
        let len = self.block_len.min(block.len());
        self.mode = done_mode(self.config, self.mode, len as u32);
        self.work = None;
    }

    /// Ends a row because one of its writes had `fault`.
    pub(crate) fn break_off(&mut self, fault: WriteFault, flash: &[u8])
        ensures broken { (block held : List ℕ) → IsKeptAfterFault fault (lent self.old block held) (lent self.new block held) }
        ensures notes { (block held : List ℕ) → NoteAfterRow self.old.mode flash.now (lent self.old block held) (lent self.new block held) }
        ensures same_config { SameConfig self.old self.new }
        ensures block { self.new.block_len ≡ self.old.block_len }
    {
        note(&mut self.noted, self.mode, flash, self.unit, self.sector);
        self.held_len = 0;
        self.put_end = 0;
        self.mode = failed_mode(self.mode, fault);
        self.work = None;
    }

    /// Returns the answer at the end of a row, and the number of its bytes, which are at the front of `out`. The answer is the status if a
    /// GETSTATUS requested `asked` bytes of it, else an acknowledgement.
    pub(crate) fn answer(&self, asked: Option<u16>, out: &mut [u8]) -> (Answer, usize)
        requires { 6 ≤ length out.old }
        ensures { AnswerInBuffer (λ x sent. IsRowEndAnswer self.now.config self.now.mode asked x sent) result.0 result.1 out.old out.new }
    {
        match asked {
            None => self.give(dfu_device::Reply::Ack, 0, out),
            Some(len) => self.give(dfu_device::Reply::Status, len, out),
        }
    }

    /// Requests the next write of the row, or ends the row if no write is left.
    pub(crate) fn advance(
        &mut self,
        block: &[u8],
        held: &mut [u8],
        flash: &[u8],
        out: &mut [u8],
    ) -> Reply
        requires room { 6 ≤ length out.old }
        requires memory { HasRoom self.old.unit held.old }
        ensures outcome { let a = lent self.old block.now held.old in (work : PendingWrites) (len : ℕ) (s : SlotsState) (was : List ℕ) →
            self.old.work ≡ Some work → IsWorkingForRow a work len s was →
            flash.now ≡ bytes_after_writes was (writes_in a work) work.done → EndsAtPiece (steps_in a work) work.done →
            DueOutcome (device_of a s) len s was flash.now out.old (lent self.new block.now held.new) out.new result }
        ensures begun { let a = lent self.old block.now held.old in
            let now = lent self.new block.now held.new in
            (work : PendingWrites) (len : ℕ) (s : SlotsState) (x : Answer) (count : ℕ) → self.old.work ≡ Some work →
            IsWorkingForRow a work len s flash.now → work.done ≡ 0 → result ≡ Reply.Answered x count →
            CallCompleted flash.now x count out.old out.new now
            (λ y sent. (u : UnseenState) → DueRowWorks len (device_of a (store_with_unseen u s)) y sent (device_with u now flash.now)) }
        ensures more { (work : PendingWrites) → self.old.work ≡ Some work →
            (result ≡ Reply.Asks) ↔ (work.done < total (writes_in (lent self.old block.now held.old) work)) }
        ensures kept { result ≡ Reply.Asks → self.new.work ≡ self.old.work }
        ensures at_most_6 { ReplyHasAtMostBytes 6 result }
        ensures same_config { SameConfig self.old self.new }
        ensures block { self.new.block_len ≡ self.old.block_len }
    {
        let Some(work) = self.work else {
            return Reply::Answered(Answer::Ack, 0);
        };
        // An empty flash suffices here, because only the number of bytes of the next piece matters.
        let (len, _) = self.look_at(&work, block, held, &[]);
        if len > 0 {
            return Reply::Asks;
        }
        self.finish(block, held, flash);
        let (answer, count) = self.answer(work.asked, out);
        Reply::Answered(answer, count)
    }

    /// Ends the row with the `fault` of one of its writes, and writes the answer to `out`.
    pub(crate) fn fail(
        &mut self,
        fault: WriteFault,
        asked: Option<u16>,
        flash: &[u8],
        out: &mut [u8],
    ) -> (Answer, usize)
        requires { 6 ≤ length out.old }
        ensures broken { (block held : List ℕ) → IsKeptAfterFault fault (lent self.old block held) (lent self.new block held) }
        ensures notes { (block held : List ℕ) → NoteAfterRow self.old.mode flash.now (lent self.old block held) (lent self.new block held) }
        ensures gives { AnswerInBuffer (λ x sent. IsRowEndAnswer self.old.config self.new.mode asked x sent) result.0 result.1 out.old
            out.new }
        ensures same_config { SameConfig self.old self.new }
        ensures block { self.new.block_len ≡ self.old.block_len }
    {
        self.break_off(fault, flash);
        self.answer(asked, out)
    }
}
