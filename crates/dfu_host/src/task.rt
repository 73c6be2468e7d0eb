//! Task of a session, and the action of each phase.

ghost use Rattle.std.specs.Prelude.{◌≡◌, ℕ, suc, ◌+◌, ◌*◌, ◌<◌, ◌^◌, ◌==◌, drop, length, take, IsTrue, ◌↔◌, slice_index_or, if◌then◌else◌, [], List, ◌≤◌};
ghost use Rattle.dfu_host.specs.Goals.{CarriesPayload, size_of};
ghost use Rattle.std.specs.Borrow.{Bor};
ghost use Rattle.dfu_wire.specs.Request.{IsUnnamedRequest};
ghost use Rattle.dfu_host.specs.Table as table;
ghost use Rattle.dfu_host.specs.Wire.{SpellsDeed};
ghost use Rattle.dfu_host.specs.InParts.{BodyIsSliceOfPayload};

use crate::action::Action;
use crate::goal::Goal;
use crate::phase::Phase;
use crate::report::Report;
use dfu_wire::Request;

/// Task of a session, with the fields of its device's descriptor.
#[derive(Drop)]
pub(crate) struct Task<'f> {
    pub(crate) goal: Goal<'f>,
    /// Largest number of bytes of a block, at least 1.
    pub(crate) transfer: u16,
    pub(crate) tolerant: bool,
    pub(crate) will_detach: bool,
    /// Milliseconds of the descriptor's wDetachTimeOut.
    pub(crate) detach_ms: u16,
    ghost some: { 0 < size_of goal },
    ghost transfers: { 0 < transfer },
}

impl<'f> Task<'f> {
    ghost use Rattle.dfu_host.specs.Goals.{goal_of, payload_of};
    ghost use Rattle.dfu_host.specs.Table.{session_blocks};
    ghost use Rattle.dfu_host.specs.declared.phase.Phase.{Phase};
    ghost use Rattle.dfu_host.specs.InParts.{HasPhaseNeeds, body_offset, phase_of};
    ghost use Rattle.dfu_host.specs.inside.View.{task_of_session};

    /// Returns the payload that is sent or compared; empty for an upload.
    fn payload(&self) -> &'f [u8]
        ensures { result.now ≡ payload_of self.now.goal }
    {
        self.goal.payload()
    }

    /// Returns block `number`, as a slice of the payload; empty beyond the last block.
    pub(crate) fn block(&self, number: usize) -> &'f [u8]
        ensures bytes { result.now ≡ slice_index_or (session_blocks (task_of_session self.now)) number [] }
        ensures in_16_bits { length result.now < 2 ^ 16 }
        ensures cut { result.now ≡ take (length result.now) (drop (number * self.now.transfer) (payload_of self.now.goal)) }
    {
        let transfer = self.transfer as usize;
        let payload = self.payload();
        let rest = &payload[number.saturating_mul(transfer).min(payload.len())..];
        &rest[..transfer.min(rest.len())]
    }

    /// Returns the offset of block `number` in the payload.
    pub(crate) fn begins(&self, number: usize) -> usize
        requires { number * self.now.transfer < length (payload_of self.now.goal) }
        ensures { result ≡ number * self.now.transfer }
    {
        let all = self.payload().len();
        number.saturating_mul(self.transfer as usize).min(all)
    }

    /// Returns true if block `number` is the last one.
    pub(crate) fn is_last(&self, number: usize) -> bool
        requires { number * self.now.transfer < length (payload_of self.now.goal) }
        ensures last { result ≡ (suc number == length (session_blocks (task_of_session self.now))) }
        ensures next_in_64_bits { number + 1 < 2 ^ 64 }
    {
        let transfer = self.transfer as usize;
        self.payload().len() - number * transfer <= transfer
    }

    /// Changes the goal Verify to Compare if `done` is true, because the last reset is done then. Every other goal is unchanged.
    pub(crate) fn go_on(&mut self, done: bool)
        ensures payload { (payload : Bor (List ℕ)) → CarriesPayload payload self.old.goal → CarriesPayload payload self.new.goal }
        ensures task { task_of_session self.new
            ≡ record (task_of_session self.old) { goal = if done then table.goal_after_reset (goal_of self.old.goal) else goal_of self.old.goal } }
        ensures within { (next : Phase) → HasPhaseNeeds self.old.goal self.old.transfer next
            → HasPhaseNeeds self.new.goal self.new.transfer next }
    {
        if !done {
            return;
        }
        if let Goal::Verify(payload) = &self.goal {
            let payload = *payload;
            self.goal = Goal::Compare(payload);
        }
    }

    /// Returns the number of blocks.
    pub(crate) fn count(&self) -> usize
        requires { 0 < length (payload_of self.now.goal) }
        ensures { result ≡ length (session_blocks (task_of_session self.now)) }
    {
        (self.payload().len() - 1) / self.transfer as usize + 1
    }

    /// Returns the action of `phase`.
    pub(crate) fn action(&self, phase: Phase) -> Action<'f>
        requires { HasPhaseNeeds self.now.goal self.now.transfer phase }
        ensures spells { (memory : List ℕ) → SpellsDeed (table.deed (task_of_session self.now) (phase_of memory phase)) result }
        ensures cut { BodyIsSliceOfPayload (payload_of self.now.goal) (body_offset self.now.transfer phase) result }
    {
        match phase {
            Phase::Find | Phase::FindAgain | Phase::Poll(_) | Phase::Manifest | Phase::Trouble => {
                send(Request::GetStatus { length: 6 }, &[])
            }
            Phase::Ask(_) | Phase::AskLast => send(Request::GetState { length: 1 }, &[]),
            Phase::Detach => {
                let timeout = self.detach_ms;
                send(Request::Detach { timeout }, &[])
            }
            Phase::Enter => self.entering(),
            Phase::Clear => send(Request::ClrStatus, &[]),
            Phase::Quit | Phase::GiveUp => send(Request::Abort, &[]),
            Phase::Block(number) => download(number, self.block(number)),
            Phase::Close => download(self.count(), &[]),
            Phase::WaitFind(poll_ms)
            | Phase::WaitPoll(_, poll_ms)
            | Phase::WaitManifest(poll_ms)
            | Phase::WaitLast(poll_ms) => Action::Wait(poll_ms),
            Phase::Fetch(block) | Phase::Compare(block) => {
                let length = self.transfer;
                send(Request::Upload { block, length }, &[])
            }
            Phase::ResetFind | Phase::Last(_) | Phase::LastUploaded => Action::Reset,
            Phase::Over(report) => Action::Done(report),
            Phase::OverUploaded => Action::Done(Report::Uploaded),
        }
    }

    /// Returns a wait of at least 1 ms if the device detaches by itself, else a reset.
    fn entering(&self) -> Action<'f>
        ensures spells { SpellsDeed (table.deed (task_of_session self.now) table.Enter) result }
        ensures cut { (payload : List ℕ) (from : ℕ) → BodyIsSliceOfPayload payload from result }
    {
        if self.will_detach {
            Action::Wait(self.detach_ms.max(1) as u32)
        } else {
            Action::Reset
        }
    }
}

/// Returns the DNLOAD of `body` as block `number`. wBlockNum is the number modulo 65,536.
fn download(number: usize, body: &[u8]) -> Action<'_>
    requires { length body.now < 2 ^ 16 }
    ensures spells { SpellsDeed (table.download number body.now) result }
    ensures cut { (payload : List ℕ) (from : ℕ) → body.now ≡ take (length body.now) (drop from payload) → BodyIsSliceOfPayload payload from result }
{
    let block = (number % 65_536) as u16;
    let length = body.len() as u16;
    send(Request::Dnload { block, length }, body)
}

/// Returns the action that sends `request`, one of the seven class requests, with its `body`.
fn send(request: Request, body: &[u8]) -> Action<'_>
    requires { IsUnnamedRequest request → ⊥ }
    ensures spells { SpellsDeed (table.Send request body.now) result }
    ensures cut { (payload : List ℕ) (from : ℕ) → body.now ≡ take (length body.now) (drop from payload) → BodyIsSliceOfPayload payload from result }
{
    match request.setup() {
        Some(setup) => Action::Send {
            setup: setup.encode(),
            body,
        },
        None => unreachable!(),
    }
}
