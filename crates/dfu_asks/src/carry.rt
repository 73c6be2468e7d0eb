//! Execution of a device's decisions, and the start of the writes that they need.
ghost use Rattle.std.specs.Prelude.{◌≡◌, ◌-◌, ◌≤◌, ◌++◌, min, ℕ, List, length, take, drop, Some, None};
ghost use Rattle.dfu_slots.specs.Image.{slot_of};
ghost use Rattle.dfu_slots.specs.StoreView.{image_of};
ghost use Rattle.dfu_device.specs.Decision.{IsPossibleDecision};
ghost use Rattle.dfu_device.specs.Rows.{Done};
ghost use Rattle.dfu_asks.specs.declared.pending_writes.PendingWrites.{PendingWrites};
ghost use Rattle.dfu_asks.specs.declared.noted.Noted.{Noted};
ghost use Rattle.dfu_asks.specs.Mapped.{grain_of, mapped_medium};
ghost use Rattle.dfu_asks.specs.Noted.{IsNoteView, noted_slot_place};
ghost use Rattle.dfu_asks.specs.Lent.{lent, HasRoom, SameConfig};
ghost use Rattle.dfu_asks.specs.Due.{plan_of_decision, SendsWithin, wanted_status_length};
ghost use Rattle.dfu_asks.specs.Asks.{flash_store, IsReplyInMode, AnswerInBuffer};
ghost use Rattle.dfu_asks.specs.Calls.{PlansAreStorelessOrDue, DeviceCalled, ReplyHasAtMostBytes};
ghost use Rattle.dfu_asks.specs.Refused.{IsDeviceOn};

use crate::noted::View;
use crate::{Asking, Mapped, Reply};
use dfu_device::{Answer, Decision, DeviceState, status_in};
use dfu_slots::read_data;

// Returns the number of bytes that the host requests of the answer, or 0 if elapsed time caused the row.
fn wanted(asked: Option<u16>) -> u16
    ensures { result ≡ wanted_status_length asked }
{
    match asked {
        Some(len) => len,
        None => 0,
    }
}

// Copies the first `asked` bytes of `bytes`, or all if there are fewer, to the front of `out`, and returns the number of copied bytes.
fn put_front(bytes: &[u8], asked: u16, out: &mut [u8]) -> usize
    requires few { length bytes.now ≤ 6 }
    requires room { 6 ≤ length out.old }
    ensures count { result ≡ length (take asked bytes.now) }
    ensures at_most_6 { result ≤ 6 }
    ensures bytes { out.new ≡ take asked bytes.now ++ drop result out.old }
{
    let count = usize::from(asked).min(bytes.len());
    out[..count].copy_from_slice(&bytes[..count]);
    count
}

// Copies at most `size` bytes of the active image, from offset `place` on, to the front of `out`, and returns the number of copied bytes.
// It is less than `size` if the image or `out` ends earlier.
fn put_image(medium: &Mapped<'_>, view: &View, place: u32, size: u16, out: &mut [u8]) -> usize
    requires view { (n : Noted) × IsNoteView view.now n (mapped_medium (grain_of medium.now.unit medium.now.sector) medium.now.bytes.now) }
    ensures count { result ≡ min (view.now.len - place) (min size (length out.old)) }
    ensures bytes { let m = mapped_medium (grain_of medium.now.unit medium.now.sector) medium.now.bytes.now in
        out.new ≡ take result (drop place (slot_of m view.now.active).data_bytes) ++ drop result out.old }
{
    let rest = view.len.saturating_sub(place);
    let count = (rest as usize).min(usize::from(size)).min(out.len());
    if count > 0 {
        read_data(medium, view.active, place, &mut out[..count]);
    }
    count
}

impl Asking {
    /// Writes at most `asked` bytes of `reply` to the front of `out`, and returns the answer and the number of written bytes.
    pub(crate) fn give(
        &self,
        reply: dfu_device::Reply,
        asked: u16,
        out: &mut [u8],
    ) -> (Answer, usize)
        requires { 6 ≤ length out.old }
        ensures { AnswerInBuffer (λ x sent. IsReplyInMode self.now.config self.now.mode self.now.block_len reply asked x sent)
            result.0 result.1 out.old out.new }
    {
        match reply {
            dfu_device::Reply::Ack => (Answer::Ack, 0),
            dfu_device::Reply::Stall => (Answer::Stall, 0),
            dfu_device::Reply::Status => {
                let bytes = status_in(&self.config, self.mode, self.block_len);
                (Answer::Bytes, put_front(&bytes, asked, out))
            }
            dfu_device::Reply::State => {
                let bytes = [self.mode.state().byte()];
                (Answer::Bytes, put_front(&bytes, asked, out))
            }
        }
    }

    /// Executes `decision`, which belongs to a request with `body`, or to elapsed time if `asked` is None. For a request, `asked` is
    /// wLength of GETSTATUS and GETSTATE, and 0 otherwise. If the decision writes, returns `Asks` to request the first write.
    pub(crate) fn carry_out(
        &mut self,
        decision: Decision,
        asked: Option<u16>,
        body: &[u8],
        block: &mut [u8],
        held: &mut [u8],
        medium: &Mapped<'_>,
        view: &View,
        out: &mut [u8],
    ) -> Reply
        requires room { 6 ≤ length out.old }
        requires unit { medium.now.unit ≡ self.old.unit }
        requires sector { medium.now.sector ≡ self.old.sector }
        requires view { IsNoteView view.now self.old.noted (mapped_medium (grain_of self.old.unit self.old.sector) medium.now.bytes.now) }
        requires idle { self.old.work ≡ None }
        requires block { self.old.block_len ≤ length block.old }
        requires end { self.old.put_end ≤ view.now.room }
        requires held { self.old.held_len ≤ self.old.put_end }
        requires memory { HasRoom self.old.unit held.old }
        ensures outcome { let a = lent self.old block.old held.old in
            let flash = medium.now.bytes.now in
            let s = flash_store a flash in
            let len = wanted_status_length asked in
            IsDeviceOn self.old block.old held.old flash →
            IsPossibleDecision self.old.config.functional.transfer (length a.block) (length body.now) s decision →
            PlansAreStorelessOrDue (plan_of_decision a.block body.now decision) a flash asked len
            → SendsWithin decision (image_of s) (length out.old) →
            DeviceCalled a flash out.old (λ d x sent d'. Done (plan_of_decision a.block body.now decision d) len d x sent d')
            (lent self.new block.new held.new) out.new result }
        ensures nothing_done_yet { result ≡ Reply.Asks → (w : PendingWrites) × (self.new.work ≡ Some w) × (w.done ≡ 0) }
        ensures at_most_65535 { ReplyHasAtMostBytes 65535 result }
        ensures same_config { SameConfig self.old self.new }
        ensures block_fits { self.new.block_len ≤ length block.new }
    {
        match decision {
            Decision::Sure { reply, mode } => {
                self.mode = mode;
                let (answer, count) = self.give(reply, wanted(asked), out);
                Reply::Answered(answer, count)
            }
            Decision::Holds { mode } => {
                // The body of a block is never longer than the block's memory. The limits only keep the slices within bounds.
                let len = body.len().min(block.len()).min(4096);
                block[..len].copy_from_slice(&body[..len]);
                self.block_len = len;
                self.mode = mode;
                Reply::Answered(Answer::Ack, 0)
            }
            Decision::Sends {
                place,
                size,
                number,
            } => {
                let count = put_image(medium, view, place, size, out);
                self.mode = if count < usize::from(size) {
                    DeviceState::DfuIdle
                } else {
                    DeviceState::UploadIdle {
                        place: place + u32::from(size),
                        number,
                    }
                };
                Reply::Answered(Answer::Bytes, count)
            }
            Decision::Writes { .. } | Decision::Commits { .. } => {
                self.start(asked, block, held, medium, view, out)
            }
        }
    }
}
