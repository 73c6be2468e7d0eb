//! Clearing: the session drops or waits for a command of an earlier session, but never starts it.

ghost use Rattle.std.specs.Prelude.{◌≡◌};
ghost use Rattle.dfuse_host.specs.Table.{state_found, phase_after_comparing_fault, phase_after_fault, status_found, on_abort, on_ask_state, on_ask_status, on_clear_wait};

use crate::command::cleared;
use crate::heard::Heard;
use crate::phase::Phase;
use crate::place::Place;
use crate::plan::Plan;
use crate::report::Report;
use crate::settling::stand;
use crate::step::Step;
use crate::work::Work;
use dfu_wire::{Code, State, Status};

/// Milliseconds to wait if the session requested the status too early.
pub(crate) const TOO_EARLY_MS: u32 = 100;

/// Returns the phase after dfuERROR with `code` while `work` reads bytes back. `errSTALLEDPKT` reports an unexpected request, not a fault
/// of the memory.
fn phase_after_comparing_fault(work: Work, code: Code) -> Phase
    ensures { result ≡ phase_after_comparing_fault work code }
{
    match code {
        Code::StalledPkt => stand(work, Place::Lost, Step::ClearStatus),
        _ => Phase::Over(Report::Refused(code)),
    }
}

/// Returns the phase after dfuERROR with `code` while the session clears the device.
fn phase_after_fault(work: Work, code: Code) -> Phase
    ensures { result ≡ phase_after_fault work code }
{
    match (work, code) {
        (Work::Erase { .. }, _) => stand(work, Place::Lost, Step::ClearStatus),
        (_, Code::Vendor) => Phase::Over(Report::ReadProtected),
        (Work::Compare { .. } | Work::CompareFront { .. }, _) => phase_after_comparing_fault(
            work, code,
        ),
        _ => stand(work, Place::Lost, Step::ClearStatus),
    }
}

/// Returns the phase after `status` while the session clears the device.
fn status_found(work: Work, status: &Status) -> Phase
    ensures { result ≡ status_found work status.now.code status.now.poll_ms status.now.state }
{
    match status.state() {
        State::AppIdle | State::AppDetach => Phase::Over(Report::NotDfu),
        State::DfuIdle => stand(work, Place::Lost, Step::AskState),
        State::DownloadIdle | State::UploadIdle => cleared(work),
        State::Error => phase_after_fault(work, status.code()),
        _ => stand(work, Place::Lost, Step::ClearWait(status.poll_ms())),
    }
}

/// Returns the phase after ABORT with the result `heard`, while the session clears the device.
pub(crate) fn on_abort(work: Work, heard: &Heard) -> Phase
    ensures { result ≡ on_abort work heard.now }
{
    match heard {
        Heard::Acked | Heard::Stalled => stand(work, Place::Lost, Step::AskState),
        _ => cleared(work),
    }
}

/// Returns the phase after GETSTATUS with the result `heard`, while the session clears the device.
pub(crate) fn on_ask_status(work: Work, heard: &Heard) -> Phase
    ensures { result ≡ on_ask_status work heard.now }
{
    match heard {
        Heard::Told(status) => status_found(work, status),
        Heard::Stalled => stand(work, Place::Lost, Step::ClearWait(TOO_EARLY_MS)),
        _ => stand(work, Place::Lost, Step::AskStatus),
    }
}

/// Returns the phase after a wait of `ms` milliseconds with the result `heard`, while the session clears the device.
pub(crate) fn on_clear_wait(work: Work, ms: u32, heard: &Heard) -> Phase
    ensures { result ≡ on_clear_wait work ms heard.now }
{
    match heard {
        Heard::Waited => stand(work, Place::Lost, Step::AskState),
        _ => stand(work, Place::Lost, Step::ClearWait(ms)),
    }
}

impl Plan<'_> {
    /// Returns the phase after `state`, the answer to the GETSTATE that follows ABORT.
    fn state_found(&self, work: Work, state: State) -> Phase
        ensures { result ≡ state_found self.now work state }
    {
        match state {
            State::AppIdle | State::AppDetach => Phase::Over(Report::NotDfu),
            State::DfuIdle => self.settle(work, Place::Lost),
            State::DownloadSync | State::DownloadIdle | State::ManifestSync | State::UploadIdle =>
                cleared(work),
            State::DownloadBusy | State::Manifest | State::ManifestWaitReset | State::Error => {
                stand(work, Place::Lost, Step::AskStatus)
            }
        }
    }

    /// Returns the phase after GETSTATE with the result `heard`, while the session clears the device.
    pub(crate) fn on_ask_state(&self, work: Work, heard: &Heard) -> Phase
        ensures { result ≡ on_ask_state self.now work heard.now }
    {
        match heard {
            Heard::StateIs(state) => self.state_found(work, *state),
            Heard::Stalled => stand(work, Place::Lost, Step::AskStatus),
            _ => stand(work, Place::Lost, Step::AskState),
        }
    }
}
