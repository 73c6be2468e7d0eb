//! Commands: a DNLOAD carries the command, and the next GETSTATUS starts it.

ghost use Rattle.std.specs.Prelude.{◌≡◌};
ghost use Rattle.dfuse_host.specs.Commands.{command_of, phase_if_unsure};
ghost use Rattle.dfuse_host.specs.Table.{on_send, probed, on_probe, phase_if_refused, phase_after_poll, stalled_ms, on_poll, on_poll_wait};

use crate::clearing::TOO_EARLY_MS;
use crate::command::cleared;
use crate::heard::Heard;
use crate::phase::Phase;
use crate::place::Place;
use crate::plan::Plan;
use crate::report::Report;
use crate::settling::stand;
use crate::step::Step;
use crate::work::Work;
use dfu_wire::{Code, State, Status};

/// Returns the phase after the DNLOAD of a command, with the result `heard`.
pub(crate) fn on_send(work: Work, place: Place, heard: &Heard) -> Phase
    ensures { result ≡ on_send work place heard.now }
{
    match heard {
        Heard::Acked => stand(work, place, Step::Poll(0)),
        _ => stand(work, place, Step::Probe),
    }
}

/// Returns the phase after a wait of `ms` milliseconds for a command, with the result `heard`.
pub(crate) fn on_poll_wait(work: Work, place: Place, ms: u32, heard: &Heard) -> Phase
    ensures { result ≡ on_poll_wait work place ms heard.now }
{
    match heard {
        Heard::Waited => stand(work, place, Step::Poll(ms)),
        _ => stand(work, place, Step::PollWait(ms)),
    }
}

/// Returns the milliseconds to wait after a stalled GETSTATUS: the length of the last wait for the command, or 100 before any wait.
#[tactic(auto, using(std::proofs::lemmas::Bool::Decides::nat_tests))]
fn stalled_ms(last: u32) -> u32
    ensures { result ≡ stalled_ms last }
{
    if last == 0 { TOO_EARLY_MS } else { last }
}

impl Plan<'_> {
    /// Returns the phase after the command of `work`, if the command may have been started and has an unknown outcome.
    fn on_unsure_command(&self, work: Work, place: Place) -> Phase
        ensures { result ≡ phase_if_unsure self.now work (command_of self.now work place) }
    {
        self.phase_when_unsure(work, self.command_of(work, place))
    }

    /// Returns the phase after an unacknowledged command, if GETSTATE then returned `state`.
    fn probed(&self, work: Work, place: Place, state: State) -> Phase
        ensures { result ≡ probed self.now work place state }
    {
        match state {
            State::DownloadSync => stand(work, place, Step::Poll(0)),
            State::DfuIdle | State::DownloadIdle => stand(work, place, Step::Send),
            State::Error => cleared(work),
            _ => self.on_unsure_command(work, place),
        }
    }

    /// Returns the phase after GETSTATE, with which the session finds out if a command arrived.
    pub(crate) fn on_probe(&self, work: Work, place: Place, heard: &Heard) -> Phase
        ensures { result ≡ on_probe self.now work place heard.now }
    {
        match heard {
            Heard::StateIs(state) => self.probed(work, place, *state),
            Heard::Stalled => self.on_unsure_command(work, place),
            _ => stand(work, place, Step::Probe),
        }
    }

    /// Returns the phase after a command that ended in dfuERROR with `code`.
    fn refused(&self, work: Work, place: Place, code: Code) -> Phase
        ensures { result ≡ phase_if_refused self.now work place code }
    {
        match code {
            Code::StalledPkt => self.on_unsure_command(work, place),
            Code::Vendor => Phase::Over(Report::ReadProtected),
            _ => Phase::Over(Report::Refused(code)),
        }
    }

    /// Returns the phase after the `status` that follows a command.
    fn on_polled_status(&self, work: Work, place: Place, status: &Status) -> Phase
        ensures { result ≡ phase_after_poll self.now work place status.now.code status.now.poll_ms status.now.state }
    {
        match status.state() {
            State::DownloadSync | State::DownloadBusy => {
                stand(work, place, Step::PollWait(status.poll_ms()))
            }
            State::DownloadIdle => self.done(work, self.command_of(work, place)),
            State::Error => self.refused(work, place, status.code()),
            _ => self.on_unsure_command(work, place),
        }
    }

    /// Returns the phase after GETSTATUS, with which the session starts a command or checks if it is done.
    pub(crate) fn on_poll(&self, work: Work, place: Place, last: u32, heard: &Heard) -> Phase
        ensures { result ≡ on_poll self.now work place last heard.now }
    {
        match heard {
            Heard::Told(status) => self.on_polled_status(work, place, status),
            Heard::Stalled => stand(work, place, Step::PollWait(stalled_ms(last))),
            _ => stand(work, place, Step::Poll(last)),
        }
    }
}
