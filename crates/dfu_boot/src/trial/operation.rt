//! Operations of a trial, which the caller carries out.
ghost use Rattle.std.specs.Prelude.{OnOk, OnErr};
ghost use Rattle.dfu_boot.specs.trial.Calls.{MediumAccepts, MarkIsWithin};
ghost use Rattle.dfu_boot.specs.trial.Laws.{OperationOutcome, OperationReportedOk, OperationReportedFailed};

use dfu_slots::{Failed, Medium};

/// One operation on the medium, which the caller must carry out. It changes only bytes of its range, even if it fails.
#[derive(Clone, Copy, Drop)]
pub enum Operation {
    /// Program of zeros, at most 256, over a mark whose bytes are all FFh: the offset of the first byte, and the number of bytes.
    Mark(u32, u32),
    /// Erase of the sector at this offset, which closes a gate.
    Close(u32),
}

impl Operation {
    /// Carries out the operation on `medium`. Does not read the bytes afterwards, because the next `look` or `runs` does.
    ///
    /// # Errors
    ///
    /// `Failed` if the medium reported a failure.
    pub fn carry_out<M: Medium>(self, medium: &mut M) -> Result<(), Failed>
        requires taken { MediumAccepts (M.state medium.old) self }
        requires within { MarkIsWithin (M.state medium.old) self }
        ensures carried { OperationOutcome (M.state medium.old) self (M.state medium.new) }
        ensures worked { OnOk result (OperationReportedOk (M.state medium.old) self (M.state medium.new)) }
        ensures failed { OnErr result (OperationReportedFailed (M.state medium.old) self (M.state medium.new)) }
    {
        match self {
            Operation::Mark(at, len) => medium.write(at, &[0; 256][..len as usize]),
            Operation::Close(at) => medium.erase(at),
        }
    }
}
