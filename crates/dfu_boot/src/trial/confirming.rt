//! Confirmation of a running image.
ghost use Rattle.std.specs.Prelude.{◌≡◌, ◌+◌, ◌≤◌, length};
ghost use Rattle.dfu_boot.specs.trial.Marks.{AreTries, mark_at};
ghost use Rattle.dfu_boot.specs.trial.Calls.{IsStanding, ConfirmationAccepted, mark_op, trial_confirmation};
ghost use Rattle.dfu_boot.specs.declared.trial.confirming.Confirmation.TheVariants.{By};

use crate::trial::marks::{mark_at, mark_size};
use crate::trial::{Operation, Standing};
use dfu_slots::{Medium, data_at};

/// Result of `confirm` for the running image.
#[derive(Clone, Copy, Drop)]
pub enum Confirmation {
    /// The image is confirmed once the caller has carried out this operation.
    By(Operation),
    /// The image is confirmed already.
    Confirmed,
    /// No image that may run begins at the given offset.
    Elsewhere,
}

// Returns the operation that sets the confirmation mark of the slot at offset `slot`.
fn by_mark<M: Medium>(medium: &M, slot: u32) -> Confirmation
    requires { mark_at (M.state medium.now).grain slot 0 ≤ length (M.state medium.now).bytes }
    ensures { result ≡ By (mark_op (M.state medium.now).grain slot 0) }
{
    Confirmation::By(Operation::Mark(mark_at(medium, slot, 0), mark_size(medium)))
}

impl Standing {
    /// Returns the `Confirmation` of the running image, which begins at the offset `at`, as `image_at` of a store returns it. If the
    /// confirmed image runs because the mark of a start failed, its offset is not that of the image on trial, and the image on trial is not
    /// confirmed.
    pub fn confirm<M: Medium>(self, medium: &M, tries: u32, at: u32) -> Confirmation
        requires tries { AreTries (M.state medium.now).grain tries }
        requires stands { IsStanding (M.state medium.now) tries self }
        ensures value { result ≡ trial_confirmation (M.state medium.now).grain self at }
        ensures taken { ConfirmationAccepted (M.state medium.now) result }
    {
        match self {
            Standing::Settled(settled) => {
                if at != data_at(medium, settled.slot) {
                    return Confirmation::Elsewhere;
                }
                if settled.is_confirmed {
                    return Confirmation::Confirmed;
                }
                by_mark(medium, settled.slot)
            }
            Standing::OnTrial(trial) => {
                if at == data_at(medium, trial.slot) {
                    return by_mark(medium, trial.slot);
                }
                if at == data_at(medium, trial.base) {
                    return Confirmation::Confirmed;
                }
                Confirmation::Elsewhere
            }
        }
    }
}
