//! Answers of a device to a setup packet. Their bytes go into a buffer of the caller.

ghost use Rattle.std.specs.Prelude.{◌≡◌, ◌≤◌, ◌<◌, ◌+◌, ◌++◌, ◌∷◌, ◌^◌, max, ℕ, List, [], length, take, drop, slice_range, IfSome, IfNone};
ghost use Rattle.dfu_wire.specs.State.{state_byte};
ghost use Rattle.dfu_slots.specs.StoreView.{image_of};
ghost use Rattle.dfu_device.specs.Stage.{state_of};
ghost use Rattle.dfu_device.specs.Rows.{Handles};
ghost use Rattle.dfu_device.specs.inside.PendingAnswer.{pending_answer_of, AnswersPending};
ghost use Rattle.dfu_device.specs.inside.View.{view_of_core};

use crate::decision::Reply;
use crate::device_core::DeviceCore;
use crate::device_state::status_in;
use arrayvec::ArrayVec;
use dfu_slots::{Medium, Slots};

/// Answer of a device to a request. The buffer that the caller provided contains its bytes.
#[derive(Clone, Copy)]
pub enum Answer {
    /// Acknowledges the request, without bytes.
    Ack,
    /// Answers the request with the bytes in the buffer; there may be none.
    Bytes,
    /// Stalls the request, without bytes.
    Stall,
}

/// An answer whose bytes are not in a buffer yet. A status or a state is that of the device after the request.
///
/// `asked` is wLength: at most this many bytes are sent.
#[derive(Clone, Copy)]
pub(crate) enum PendingAnswer {
    Ack,
    /// Answers GETSTATUS with the status.
    Status { asked: u16 },
    /// Answers GETSTATE with the state.
    State { asked: u16 },
    /// Answers with the bytes of the active image from offset `place` on.
    Piece { place: u32, asked: u16 },
    Stall,
}

/// Returns the pending answer for `reply` to a request with wLength `asked`.
pub(crate) fn pending_answer_of(reply: Reply, asked: u16) -> PendingAnswer
    ensures { result ≡ pending_answer_of asked reply }
{
    match reply {
        Reply::Ack => PendingAnswer::Ack,
        Reply::Status => PendingAnswer::Status { asked },
        Reply::State => PendingAnswer::State { asked },
        Reply::Stall => PendingAnswer::Stall,
    }
}

impl<M: Medium> DeviceCore<M> {
    /// Answers `setup` with its `body`, and writes the bytes of the answer to `out`.
    pub(crate) fn handle(
        &mut self,
        setup: &[u8; 8],
        body: &[u8],
        out: &mut ArrayVec<u8, 4096>,
    ) -> Answer
        ensures row { Handles setup.now body.now (view_of_core self.old) result out.new.items (view_of_core self.new) }
    {
        // The result is not used: the postcondition `at_most_4096` of `transfer` proves that the answer fits into `out`.
        let _ = self.config.transfer();
        let pending_answer = self.pending_answer(setup, body);
        out.clear();
        self.give(pending_answer, out)
    }

    /// Writes the bytes of `pending_answer` to `out`, an empty buffer.
    fn give(&self, pending_answer: PendingAnswer, out: &mut ArrayVec<u8, 4096>) -> Answer
        requires out { out.old.items ≡ [] }
        requires fits { (a : Answer) (sent : List ℕ) → AnswersPending pending_answer (view_of_core self.now) a sent → length sent ≤ 4096 }
        ensures { AnswersPending pending_answer (view_of_core self.now) result out.new.items }
    {
        match pending_answer {
            PendingAnswer::Ack => Answer::Ack,
            PendingAnswer::Status { asked } => {
                let bytes = status_in(&self.config, self.mode, self.block.as_slice().len());
                let _ = out.try_extend_from_slice(&bytes[..usize::from(asked).min(6)]);
                Answer::Bytes
            }
            PendingAnswer::State { asked } => {
                if asked > 0 {
                    out.push(self.mode.state().byte());
                }
                Answer::Bytes
            }
            PendingAnswer::Piece { place, asked } => {
                let count = self.piece_len(place, asked);
                if count > 0 {
                    copy_image(&self.slots, place, count, out);
                }
                Answer::Bytes
            }
            PendingAnswer::Stall => Answer::Stall,
        }
    }

    /// Returns the number of bytes of the image from offset `place` on, at most `len`.
    #[inline(never)]
    pub(crate) fn piece_len(&self, place: u32, len: u16) -> u16
        ensures count { result ≡ length (take len (drop place (image_of self.now.slots))) }
        ensures bytes { slice_range (image_of self.now.slots) place (place + result) ≡ take len (drop place (image_of self.now.slots)) }
        ensures within { 0 < result → place + result ≤ length (image_of self.now.slots) }
        ensures end_in_24_bits { 0 < result → place + result ≤ 2 ^ 24 }
    {
        let rest = self.slots.active_len().saturating_sub(place);
        rest.min(len as u32) as u16
    }
}

/// Copies `count` bytes of the active image, from offset `place` on, to the empty buffer `out`.
fn copy_image<M: Medium>(slots: &Slots<M>, place: u32, count: u16, out: &mut ArrayVec<u8, 4096>)
    requires within { place + count ≤ length (image_of slots.now) }
    requires most { count ≤ 4096 }
    requires out { out.old.items ≡ [] }
    ensures { out.new.items ≡ slice_range (image_of slots.now) place (place + count) }
{
    let mut buffer = [0; 4096];
    let piece = &mut buffer[..count as usize];
    slots.read_active(place, piece);
    let _ = out.try_extend_from_slice(piece);
}
