//! End of a trial, on request or before an upload.
ghost use Rattle.std.specs.Prelude.{◌≡◌, IfSome};
ghost use Rattle.dfu_boot.specs.trial.Marks.{AreTries};
ghost use Rattle.dfu_boot.specs.trial.Calls.{IsStanding, MediumAccepts, end_of_trial, upload_operation};

use crate::trial::{Operation, Standing};
use dfu_slots::Medium;

impl Standing {
    /// Returns the operation that ends the trial, by closing the gate of the slot on trial. None means that no image is on trial. Does not
    /// read the medium.
    ///
    /// A download must end the trial before it opens the store and calls `begin`. Before the end, the store's spare slot is that of the
    /// confirmed image, which `begin` would close.
    pub fn end<M: Medium>(self, _medium: &M, tries: u32) -> Option<Operation>
        requires tries { AreTries (M.state _medium.now).grain tries }
        requires stands { IsStanding (M.state _medium.now) tries self }
        ensures value { result ≡ end_of_trial self }
        ensures taken { IfSome result (λ operation. MediumAccepts (M.state _medium.now) operation) }
    {
        match self {
            Standing::Settled(_) => None,
            Standing::OnTrial(trial) => Some(Operation::Close(trial.slot)),
        }
    }
    /// Returns the operation that must come before an upload. If no try is left, the operation ends the trial, as the next start would, so
    /// that the host reads the image that the next start runs. None means that no image is on trial, or that a try is left. Does not read
    /// the medium.
    pub fn upload<M: Medium>(self, _medium: &M, tries: u32) -> Option<Operation>
        requires tries { AreTries (M.state _medium.now).grain tries }
        requires stands { IsStanding (M.state _medium.now) tries self }
        ensures value { result ≡ upload_operation tries self }
        ensures taken { IfSome result (λ operation. MediumAccepts (M.state _medium.now) operation) }
    {
        match self {
            Standing::Settled(_) => None,
            Standing::OnTrial(trial) => {
                if trial.starts < tries {
                    None
                } else {
                    Some(Operation::Close(trial.slot))
                }
            }
        }
    }
}
