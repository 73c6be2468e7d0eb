//! Leaving: the leave request, a DNLOAD without bytes, makes the device start its application.

ghost use Rattle.std.specs.Prelude.{◌≡◌};
ghost use Rattle.dfuse_host.specs.Table.{on_close, close_probed, on_close_probe, close_polled, on_close_poll};

use crate::command::cleared;
use crate::heard::Heard;
use crate::phase::Phase;
use crate::place::Place;
use crate::report::{Leaving, Report};
use crate::settling::stand;
use crate::step::Step;
use crate::work::Work;
use dfu_wire::{Code, State};

/// Returns the phase after the leave request, with the result `heard`.
pub(crate) fn on_close(work: Work, place: Place, heard: &Heard) -> Phase
    ensures { result ≡ on_close work place heard.now }
{
    match heard {
        Heard::Acked => stand(work, place, Step::ClosePoll),
        _ => stand(work, place, Step::CloseProbe),
    }
}

/// Returns the phase after an unacknowledged leave request, if GETSTATE then returned `state`.
fn close_probed(work: Work, place: Place, state: State) -> Phase
    ensures { result ≡ close_probed work place state }
{
    match state {
        State::DfuIdle | State::DownloadIdle => stand(work, place, Step::Close),
        State::Error => cleared(work),
        _ => stand(work, place, Step::ClosePoll),
    }
}

/// Returns the phase after GETSTATE, with which the session finds out if the leave request arrived.
pub(crate) fn on_close_probe(work: Work, place: Place, heard: &Heard) -> Phase
    ensures { result ≡ on_close_probe work place heard.now }
{
    match heard {
        Heard::StateIs(state) => close_probed(work, place, *state),
        Heard::Stalled => stand(work, place, Step::ClosePoll),
        _ => stand(work, place, Step::CloseProbe),
    }
}

/// Returns the phase after a leave request, if GETSTATUS then returned `code` and `state`.
fn close_polled(work: Work, place: Place, code: Code, state: State) -> Phase
    ensures { result ≡ close_polled work place code state }
{
    match (code, state) {
        (_, State::DfuIdle | State::DownloadIdle) => stand(work, place, Step::Close),
        (_, State::Error) => cleared(work),
        (Code::Ok, State::Manifest | State::ManifestWaitReset) => {
            Phase::Over(Report::Verified(Leaving::Left))
        }
        _ => stand(work, place, Step::ClosePoll),
    }
}

/// Returns the phase after GETSTATUS, with which the session finds out if the device leaves.
pub(crate) fn on_close_poll(work: Work, place: Place, heard: &Heard) -> Phase
    ensures { result ≡ on_close_poll work place heard.now }
{
    match heard {
        Heard::Told(status) => close_polled(work, place, status.code(), status.state()),
        _ => stand(work, place, Step::ClosePoll),
    }
}
