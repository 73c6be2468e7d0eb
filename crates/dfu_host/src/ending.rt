//! The rows of the phases after the last block, and of the phase after a stall.

ghost use Rattle.std.specs.Prelude.{◌≡◌, true, false, List, ℕ};
ghost use Rattle.dfu_host.specs.BehindClose.{is_behind_close};
ghost use Rattle.dfu_host.specs.Goals.{goal_of};
ghost use Rattle.dfu_host.specs.Table as table;
ghost use Rattle.dfu_host.specs.InParts.{HasPhaseNeeds, phase_of};
ghost use Rattle.dfu_host.specs.inside.View.{meaning_of_heard, task_of_session};

use crate::goal::Goal;
use crate::heard::Heard;
use crate::phase::Phase;
use crate::report::Report;
use crate::task::Task;
use dfu_wire::{Code, State, Status};

impl Task<'_> {
    /// Returns the phase after `status`, which the host requested after a stall or an unexpected state. dfuERROR with a code other than OK
    /// and errSTALLEDPKT ends the session; every other status leads to the phase for its state.
    pub(crate) fn troubled(&self, status: Status) -> Phase
        ensures next { (memory : List ℕ)
            → phase_of memory result ≡ table.phase_in_trouble
            (table.work_start (goal_of self.now.goal)) status.code status.poll_ms status.state }
        ensures within { HasPhaseNeeds self.now.goal self.now.transfer result }
    {
        match status.state() {
            State::Error => match status.code() {
                Code::Ok | Code::StalledPkt => self.listed(status),
                code => Phase::Over(Report::Refused(code)),
            },
            _ => self.listed(status),
        }
    }

    /// Returns true if `phase` follows the close of a download.
    pub(crate) fn is_behind_close(&self, phase: Phase) -> bool
        ensures { (memory : List ℕ) → result ≡ is_behind_close (goal_of self.now.goal) (phase_of memory phase) }
    {
        match phase {
            Phase::Manifest | Phase::WaitManifest(_) | Phase::WaitLast(_) => true,
            Phase::Last(_) => self.goal.installs(),
            _ => false,
        }
    }

    /// Returns the phase after the last reset: the end with `report`, or Find if the session must still compare the image. After any result
    /// other than a reset, the host resets the bus again.
    pub(crate) fn after_last(&self, report: Report, heard: Heard) -> Phase
        ensures next { (memory part : List ℕ)
            → phase_of memory result ≡ table.host_row (task_of_session self.now) (table.Last report) (meaning_of_heard part heard) }
        ensures within { HasPhaseNeeds self.now.goal self.now.transfer result }
    {
        match heard {
            Heard::WasReset => match &self.goal {
                Goal::Verify(_) => Phase::Find,
                _ => Phase::Over(report),
            },
            _ => Phase::Last(report),
        }
    }

    /// Returns the phase after `status`, which the host requested after the close.
    pub(crate) fn manifested(&self, status: Status) -> Phase
        ensures next { (memory : List ℕ)
            → phase_of memory result
            ≡ table.manifest_phase (table.work_start (goal_of self.now.goal)) self.now.tolerant status.code status.poll_ms status.state }
        ensures within { HasPhaseNeeds self.now.goal self.now.transfer result }
    {
        if self.tolerant {
            self.confirmed(status)
        } else {
            self.unconfirmed(status)
        }
    }

    /// Returns the phase after `status` of a tolerant device. Only dfuIDLE with OK confirms the new image.
    fn confirmed(&self, status: Status) -> Phase
        ensures next { (memory : List ℕ)
            → phase_of memory result
            ≡ table.manifest_phase (table.work_start (goal_of self.now.goal)) true status.code status.poll_ms status.state }
        ensures within { HasPhaseNeeds self.now.goal self.now.transfer result }
    {
        match (status.state(), status.code()) {
            (State::ManifestSync | State::Manifest, _) => Phase::WaitManifest(status.poll_ms()),
            (State::DfuIdle, Code::Ok) => Phase::Last(Report::Installed),
            _ => self.troubled(status),
        }
    }

    /// Returns the phase after `status` of a device that isn't tolerant, which never confirms the new image.
    fn unconfirmed(&self, status: Status) -> Phase
        ensures next { (memory : List ℕ)
            → phase_of memory result
            ≡ table.manifest_phase (table.work_start (goal_of self.now.goal)) false status.code status.poll_ms status.state }
        ensures within { HasPhaseNeeds self.now.goal self.now.transfer result }
    {
        match status.state() {
            State::ManifestSync | State::Manifest => Phase::WaitLast(status.poll_ms()),
            State::DfuIdle | State::ManifestWaitReset => Phase::Last(Report::Unconfirmed),
            _ => self.troubled(status),
        }
    }
}
