//! Core of a device: its parts, and the changes that a decision makes to them.

ghost use Rattle.std.specs.Prelude.{◌≡◌, ◌<◌, ◌≤◌, ◌+◌, length, take, drop, nat_lt, ℕ, List, [], IsTrue, if◌then◌else◌};
ghost use Rattle.dfu_slots.specs.StoreView.{image_of, spare_of, room_of};
ghost use Rattle.dfu_device.specs.Stage.{InAppIdle};
ghost use Rattle.dfu_device.specs.DeviceView.{DeviceView, profile};
ghost use Rattle.dfu_device.specs.Parts.{are_device_parts};
ghost use Rattle.dfu_device.specs.Rows.{Elapses};
ghost use Rattle.dfu_device.specs.Borrowed.{answer_room};
ghost use Rattle.dfu_device.specs.Decision.{table_profile_of, plan_of, IsPossibleDecision, IsAcknowledgingDecision};
ghost use Rattle.dfu_device.specs.inside.PendingAnswer.{AnswersPending, CarriedOutPending, HandledPending};

use crate::answer::{PendingAnswer, pending_answer_of};
use crate::config::Profile;
use crate::decision::Decision;
use crate::device_state::DeviceState;
use crate::table::asked_row;
use crate::time_table::decide_time;
use crate::{Answer, Config};
use arrayvec::ArrayVec;
use dfu_slots::{Medium, Slots};

// Replaces the content of `block` by `bytes`.
fn hold(block: &mut ArrayVec<u8, 4096>, bytes: &[u8])
    requires { length bytes.now ≤ 4096 }
    ensures { block.new.items ≡ bytes.now }
{
    block.clear();
    let _ = block.try_extend_from_slice(bytes);
}

/// Core of a device: its fixed settings, its slot store, its mode, and the memory of a block that is not written yet.
#[derive(Drop)]
pub struct DeviceCore<M: Medium> {
    pub config: Config,
    pub slots: Slots<M>,
    pub mode: DeviceState,
    pub block: ArrayVec<u8, 4096>,
    ghost sound: { IsTrue (are_device_parts mode (length block.items) slots) },
}

impl<M: Medium> DeviceCore<M> {
    ghost use Rattle.dfu_device.specs.inside.View.{view_of_core};

    /// Returns a core with `config` in appIDLE, on `slots`. It uses `block` as the memory for blocks.
    pub(crate) fn start(config: Config, slots: Slots<M>, block: ArrayVec<u8, 4096>) -> DeviceCore<M>
        ensures { view_of_core result ≡ record { config = config; slots = slots; stage = InAppIdle } }
    {
        // The result is not used: its postconditions prove the invariant `sound`.
        let _ = slots.capacity();
        DeviceCore {
            config,
            slots,
            mode: DeviceState::AppIdle,
            block,
        }
    }

    /// Returns the settings that the device table reads.
    fn profile(&self) -> Profile
        ensures profile { table_profile_of result ≡ profile (view_of_core self.now) }
        ensures capacity { result.capacity ≡ room_of self.now.slots }
        ensures transfer { result.functional.transfer ≡ self.now.config.functional.transfer }
    {
        self.config.profile(u64::from(self.slots.capacity()))
    }

    /// Returns the answer to `setup` with its `body`. A request without a row in the device table is stalled.
    pub(crate) fn pending_answer(&mut self, setup: &[u8; 8], body: &[u8]) -> PendingAnswer
        ensures row { HandledPending setup.now body.now (view_of_core self.old) result (view_of_core self.new) }
        ensures answer_fits { (a : Answer) (sent : List ℕ) → AnswersPending result (view_of_core self.new) a sent
            → length sent ≤ answer_room self.old.config }
    {
        let (decision, asked) = asked_row(&self.profile(), self.mode, setup, body);
        self.carry_out(decision, asked, body)
    }

    /// Performs `decision`. `asked` is wLength if the request is GETSTATUS or GETSTATE, and `body` is the data stage of the request.
    pub(crate) fn carry_out(&mut self, decision: Decision, asked: u16, body: &[u8]) -> PendingAnswer
        requires { IsPossibleDecision self.old.config.functional.transfer (length self.old.block.items)
            (length body.now) self.old.slots decision }
        ensures row { let w = view_of_core self.old in let spare = spare_of w.slots in
            CarriedOutPending (plan_of (profile w) (image_of w.slots) spare self.old.block.items body.now decision) asked w result
            (view_of_core self.new) }
        ensures silent { IsAcknowledgingDecision decision → result ≡ PendingAnswer.Ack }
    {
        match decision {
            Decision::Sure { reply, mode } => {
                self.mode = mode;
                pending_answer_of(reply, asked)
            }
            Decision::Holds { mode } => {
                // The result is not used: the postcondition `at_most_4096` of `transfer` proves that the body fits into the block.
                let _ = self.config.transfer();
                hold(&mut self.block, body);
                self.mode = mode;
                PendingAnswer::Ack
            }
            Decision::Sends {
                place,
                size,
                number,
            } => {
                self.mode = self.after_piece(place, size, number);
                PendingAnswer::Piece { place, asked: size }
            }
            Decision::Writes {
                reply,
                written,
                number,
                late,
            } => {
                let _ = self.write_block(written, number, late);
                pending_answer_of(reply, asked)
            }
            Decision::Commits {
                reply,
                written,
                mode,
            } => {
                let _ = self.commit_taken(written, mode);
                pending_answer_of(reply, asked)
            }
        }
    }

    /// Returns the mode after a piece of the image is sent. A piece shorter than `size` bytes is the last one.
    fn after_piece(&self, place: u32, size: u16, number: u16) -> DeviceState
        ensures mode { let part = take size (drop place (image_of self.now.slots)) in
            result ≡ (if nat_lt (length part) size then DeviceState.DfuIdle else DeviceState.UploadIdle (place + size) number) }
    {
        if self.piece_len(place, size) < size {
            return DeviceState::DfuIdle;
        }
        DeviceState::UploadIdle {
            place: place + u32::from(size),
            number,
        }
    }

    /// Performs the row of `ms` elapsed milliseconds.
    pub(crate) fn elapse(&mut self, ms: u32)
        ensures row { Elapses ms (view_of_core self.old) (view_of_core self.new) }
    {
        let block_len = self.block.as_slice().len();
        let decision = decide_time(&self.profile(), self.mode, block_len, ms);
        let _ = self.carry_out(decision, 0, &[]);
    }
}
