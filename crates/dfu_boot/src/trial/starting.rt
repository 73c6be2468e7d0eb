//! Choice of the image that starts at a power on, and of the operation before it.
ghost use Rattle.std.specs.Prelude.{◌≡◌, IfSome};
ghost use Rattle.dfu_boot.specs.trial.Marks.{AreTries};
ghost use Rattle.dfu_boot.specs.trial.Calls.{MediumAccepts, MarkIsWithin, trial_start, runs_in};
ghost use Rattle.dfu_boot.specs.trial.Again.{MatchesMedium};

use crate::trial::marks::{is_marked, mark_at, mark_size};
use crate::trial::{Operation, Standing};
use dfu_slots::Medium;

/// Choice of the image that starts, with the operation that the caller must carry out first.
#[derive(Clone, Copy, Drop)]
pub struct Starting {
    /// Operation to carry out before the start, or None.
    pub operation: Option<Operation>,
    /// Offset of the slot that runs after the operation. After a mark, it runs only if the mark reads as set.
    pub slot: u32,
    /// Offset of the slot that runs if the mark does not read as set. Equal to `slot` if there is no mark.
    pub otherwise: u32,
}

impl Standing {
    /// Returns the image that starts, and the operation that must come first. On trial, that is the mark of the next start, or if no try is
    /// left, the erase that closes the gate of the slot on trial. After the operation, `Starting::runs` returns the slot that runs.
    pub fn start<M: Medium>(self, medium: &M, tries: u32) -> Starting
        requires tries { AreTries (M.state medium.now).grain tries }
        requires stands { MatchesMedium (M.state medium.now) tries self }
        ensures value { result ≡ trial_start (M.state medium.now).grain tries self }
        ensures taken { IfSome result.operation (λ operation. MediumAccepts (M.state medium.now) operation) }
        ensures within { IfSome result.operation (λ operation. MarkIsWithin (M.state medium.now) operation) }
    {
        match self {
            Standing::Settled(settled) => Starting {
                operation: None,
                slot: settled.slot,
                otherwise: settled.slot,
            },
            Standing::OnTrial(trial) => {
                if trial.starts < tries {
                    let mark = mark_at(medium, trial.slot, trial.starts + 1);
                    Starting {
                        operation: Some(Operation::Mark(mark, mark_size(medium))),
                        slot: trial.slot,
                        otherwise: trial.base,
                    }
                } else {
                    Starting {
                        operation: Some(Operation::Close(trial.slot)),
                        slot: trial.base,
                        otherwise: trial.base,
                    }
                }
            }
        }
    }
}

impl Starting {
    /// Returns the offset of the slot that runs, after the operation was carried out with any outcome. Reads the mark if the operation is a
    /// mark.
    pub fn runs<M: Medium>(self, medium: &M) -> u32
        requires { IfSome self.operation (λ operation. MarkIsWithin (M.state medium.now) operation) }
        ensures { result ≡ runs_in (M.state medium.now) self self.operation }
    {
        match self.operation {
            Some(Operation::Mark(at, len)) => {
                if is_marked(medium, at, len) {
                    self.slot
                } else {
                    self.otherwise
                }
            }
            _ => self.slot,
        }
    }
}
