//! Location of a received image that is not active yet, in the flash of a device that requests its writes from the caller.
ghost use Rattle.std.specs.Prelude.{◌≡◌, ◌+◌, ◌≤◌, ℕ, List, length, IfOk, IfErr, IfSome, IfNone, None};
ghost use Rattle.dfu_device.specs.Candidate.{candidate_in, IsCandidate};
ghost use Rattle.dfu_asks.specs.Lent.{lent};
ghost use Rattle.dfu_asks.specs.Asks.{device_in};
ghost use Rattle.dfu_asks.specs.Refused.{IsDeviceOn, IsRefusedCall};

use crate::noted::look;
use crate::{Asking, Mapped, Refusal};
use dfu_device::Candidate;
use dfu_slots::{Medium, data_at};

impl Asking {
    /// Returns the location of the received image, as `Device::candidate` does. The flash contains the image's first bytes; its last
    /// `held_len` bytes are held back.
    ///
    /// # Errors
    ///
    /// The errors of `elapse`, except that the memory of the block is not checked.
    pub fn candidate(&self, flash: &[u8]) -> Result<Option<Candidate>, Refusal>
        ensures some { (block held : List ℕ) → IsDeviceOn self.now block held flash.now →
            IfOk result (λ r. IfSome r (λ c. IsCandidate (device_in (lent self.now block held) flash.now) c)) }
        ensures none { (block held : List ℕ) →
            IfOk result (λ r. IfNone r (candidate_in (device_in (lent self.now block held) flash.now).stage ≡ None)) }
        ensures within { IfOk result (λ r. IfSome r (λ c. c.at + c.stored ≤ length flash.now)) }
        ensures refused { (block held : List ℕ) → IfErr result (λ e. IsRefusedCall e self.now block held flash.now 0 0) }
    {
        if self.work.is_some() {
            return Err(Refusal::Asked);
        }
        let Some(medium) = Mapped::with_sector(flash, self.unit, self.sector) else {
            return Err(Refusal::NoMedium);
        };
        let Some(view) = look(&medium, &self.noted) else {
            return Err(Refusal::NoMedium);
        };
        let Some(len) = self.mode.candidate_len() else {
            return Ok(None);
        };
        if len > view.room {
            return Err(Refusal::NoDevice);
        }
        Ok(Some(Candidate {
            at: data_at(&medium, view.spare),
            stored: len - len % self.unit.size(),
        }))
    }
}
