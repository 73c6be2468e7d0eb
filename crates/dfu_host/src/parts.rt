//! The parts of a session, as plain values.

ghost use Rattle.std.specs.Prelude.{◌≡◌, ◌*◌, ◌<◌, IsTrue, false, length};
ghost use Rattle.dfu_host.specs.Goals.{payload_of, size_of};
ghost use Rattle.dfu_host.specs.InParts.{ArePartsOfSession, HasPhaseNeeds};

use crate::fetching::MOST_PARTS;
use crate::goal::Goal;
use crate::phase::Phase;

/// The parts of a session: plain values, which a caller may keep between two calls.
#[derive(Clone, Copy)]
pub struct Parts<'f> {
    /// Goal of the session.
    pub goal: Goal<'f>,
    /// Largest number of bytes of a block, 1 to 65,535.
    pub transfer: u16,
    /// The descriptor's bitManifestationTolerant.
    pub tolerant: bool,
    /// The descriptor's bitWillDetach.
    pub will_detach: bool,
    /// The descriptor's wDetachTimeOut, in milliseconds.
    pub detach_ms: u16,
    /// Phase of the session.
    pub phase: Phase,
    /// Number of actions that are left.
    pub actions: u32,
    /// Number of further restarts of the device that the session tolerates.
    pub restarts: u16,
}

impl Parts<'_> {
    /// Returns true if a session can have these parts.
    pub(crate) fn is_session(&self) -> bool
        ensures yes { IsTrue result → ArePartsOfSession self.now }
        ensures no { result ≡ false → ArePartsOfSession self.now → ⊥ }
    {
        self.transfer > 0 && self.has_some() && self.is_within()
    }

    /// Returns true if the goal is an upload, or has a payload of at least one byte.
    fn has_some(&self) -> bool
        ensures yes { IsTrue result → 0 < size_of self.now.goal }
        ensures no { result ≡ false → 0 < size_of self.now.goal → ⊥ }
    {
        match &self.goal {
            Goal::Load(payload) | Goal::Verify(payload) | Goal::Compare(payload) => {
                !payload.is_empty()
            }
            Goal::Fetch => true,
        }
    }

    /// Returns true if the session has the payload, block or part that its phase needs.
    fn is_within(&self) -> bool
        ensures yes { IsTrue result → HasPhaseNeeds self.now.goal self.now.transfer self.now.phase }
        ensures no { result ≡ false → HasPhaseNeeds self.now.goal self.now.transfer self.now.phase → ⊥ }
    {
        match self.phase {
            Phase::Block(number) => self.has_block(number),
            Phase::Ask(number) => self.has_block(number),
            Phase::Poll(number) => self.has_block(number),
            Phase::WaitPoll(number, _) => self.has_block(number),
            Phase::Close => self.has_block(0),
            Phase::AskLast => self.has_block(0),
            Phase::Fetch(number) => self.goal.is_fetch() && number < MOST_PARTS,
            Phase::Compare(number) => number < MOST_PARTS,
            _ => true,
        }
    }

    /// Returns true if the payload has block `number`.
    fn has_block(&self, number: usize) -> bool
        ensures yes { IsTrue result → number * self.now.transfer < length (payload_of self.now.goal) }
        ensures no { result ≡ false → number * self.now.transfer < length (payload_of self.now.goal) → ⊥ }
    {
        number.saturating_mul(self.transfer as usize) < self.goal.payload().len()
    }
}
