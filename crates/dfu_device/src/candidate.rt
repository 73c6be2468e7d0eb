//! An image that was received and is not active yet.

ghost use Rattle.std.specs.Prelude.{◌≡◌, IfSome, IfNone, None};
ghost use Rattle.dfu_device.specs.Candidate.{candidate_in, IsCandidate};
ghost use Rattle.dfu_device.specs.inside.View.{view_of_core};

use crate::Device;
use crate::device_core::DeviceCore;
use dfu_slots::Medium;

/// An image that was received and is not active yet. Its first bytes are on the medium, in the spare slot. The others, fewer than a unit of
/// the medium, are held back in memory (`Slots::held`).
#[derive(Clone, Copy)]
pub struct Candidate {
    /// Offset of the image's first byte on the medium.
    pub at: u32,
    /// Number of the image's bytes on the medium.
    pub stored: u32,
}

impl<M: Medium> Device<M> {
    /// Returns the location of the received image, so that the program can check it before it calls `refuse_close` or `refuse`. Returns
    /// Some in dfuDNLOAD-IDLE, in dfuMANIFEST-SYNC before manifestation is complete, and in dfuMANIFEST, otherwise None. The call reads and
    /// writes no byte of the medium.
    pub fn candidate(&self) -> Option<Candidate>
        ensures some { IfSome result (λ c. IsCandidate self.now c) }
        ensures none { IfNone result (candidate_in self.now.stage ≡ None) }
    {
        self.core.candidate()
    }
}

impl<M: Medium> DeviceCore<M> {
    fn candidate(&self) -> Option<Candidate>
        ensures some { IfSome result (λ c. IsCandidate (view_of_core self.now) c) }
        ensures none { IfNone result (candidate_in (view_of_core self.now).stage ≡ None) }
    {
        let len = self.mode.candidate_len()?;
        // The result is not used: its postcondition `store` proves that fewer bytes are held back than fill a unit.
        let _ = self.slots.held();
        let medium = self.slots.medium();
        let half = medium.len() / 2;
        // The data begins at the same offset within both slots.
        let image = self.slots.image_at();
        let at = if image < half {
            image + half
        } else {
            image - half
        };
        Some(Candidate {
            at,
            stored: len - len % medium.unit().size(),
        })
    }
}
