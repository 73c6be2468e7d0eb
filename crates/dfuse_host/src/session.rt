//! The session of a host with a DfuSe device.

ghost use Rattle.std.specs.Prelude.{◌≡◌, ◌≤◌, ◌-◌, pred, IfOk, IfErr, OnOk};
ghost use Rattle.dfuse_host.specs.Refusing.{IsSoundPlan, FirstPlanFault};
ghost use Rattle.dfuse_host.specs.Sessions.{DfuseAct, SessionRow, DfuseIsOver, remaining_dfuse_inputs, initial_dfuse_session, phase_within_budget, session_after_action, phase_without_actions, left_at, phase_resumed, session_with_restart_taken, restarted_leaving, session_after_restart, session_after_step_heard, session_after_heard, session_after_phase_heard};

use crate::action::Action;
use crate::command::cleared;
use crate::fault::PlanFault;
use crate::heard::Heard;
use crate::image::image_start;
use crate::limits::Limits;
use crate::phase::{Phase, Standing};
use crate::place::Place;
use crate::plan::Plan;
use crate::report::{Leaving, Report};
use crate::seen::Seen;
use crate::step::Step;
use crate::work::Work;

/// A session of a host with a DfuSe device. It is plain data, which a caller may store between two calls.
#[derive(Clone, Copy)]
pub struct Session<'f> {
    /// Image to write, and the memory that receives it.
    pub plan: Plan<'f>,
    /// Standing of the session, or its report when it is over.
    pub phase: Phase,
    /// Number of actions left.
    pub actions: u32,
    /// Number of restarts of the device that are still allowed.
    pub restarts: u16,
}

/// Returns the `Leaving` of a session that ends at `step`: `Unknown` if it has reached the leave request (a DNLOAD without bytes), and
/// `Stayed` otherwise.
fn left_at(step: Step) -> Leaving
    ensures { result ≡ left_at step }
{
    match step {
        Step::Close | Step::CloseProbe | Step::ClosePoll => Leaving::Unknown,
        _ => Leaving::Stayed,
    }
}

/// Returns the phase of a session without actions left: over as `Verified` if its work is `Leave`, and as `GaveUp` otherwise.
fn phase_without_actions(work: Work, step: Step) -> Phase
    ensures { result ≡ phase_without_actions work step }
{
    match work {
        Work::Leave => Phase::Over(Report::Verified(left_at(step))),
        _ => Phase::Over(Report::GaveUp),
    }
}

/// Returns `phase` if `left` actions are more than 0 or the session is over, and the end of the session otherwise.
fn budget_phase(left: u32, phase: Phase) -> Phase
    ensures { result ≡ phase_within_budget left phase }
{
    match phase {
        Phase::Over(_) => phase,
        Phase::On(at) if left == 0 => phase_without_actions(at.work, at.step),
        Phase::On(_) => phase,
    }
}

impl<'f> Session<'f> {
    ghost use Rattle.dfuse_host.specs.declared.session.Session.{Session};

    /// Returns the session after an action that leads to `phase`, with `restarts` restarts left.
    fn spend_action(self, phase: Phase, restarts: u16) -> Session<'f>
        ensures { result ≡ session_after_action self.entry phase restarts }
    {
        let actions = self.actions.saturating_sub(1);
        Session {
            plan: self.plan,
            phase: budget_phase(actions, phase),
            actions,
            restarts,
        }
    }

    /// Returns the phase in which the session resumes after the device restarted at the standing `at`.
    fn resumed(self, at: Standing) -> Phase
        ensures { result ≡ phase_resumed self.entry.plan at.work at.place at.step }
    {
        match at.step {
            Step::Poll(_) | Step::PollWait(_) => {
                self.plan
                    .phase_when_unsure(at.work, self.plan.command_of(at.work, at.place))
            }
            _ => cleared(at.work),
        }
    }

    /// Returns the session after the device restarted at the standing `at`. It is over as `RestartsSpent` if no restart is left.
    fn take_restart(self, at: Standing) -> Session<'f>
        ensures { result ≡ session_with_restart_taken self.entry (phase_resumed self.entry.plan at.work at.place at.step) self.entry.restarts }
    {
        if self.restarts == 0 {
            return self.spend_action(Phase::Over(Report::RestartsSpent), 0);
        }
        let phase = self.resumed(at);
        self.spend_action(phase, self.restarts - 1)
    }

    /// Returns the session after the device restarted at the standing `at`, whose work is `Leave`. If the session has reached the leave
    /// request, it is over as `Verified`.
    fn restarted_leaving(self, at: Standing) -> Session<'f>
        requires { at.work ≡ Work.Leave }
        ensures { result ≡ restarted_leaving self.entry at.place at.step }
    {
        match at.step {
            Step::Close | Step::CloseProbe | Step::ClosePoll => {
                self.spend_action(
                    Phase::Over(Report::Verified(Leaving::Unknown)),
                    self.restarts,
                )
            }
            _ => self.take_restart(at),
        }
    }

    /// Returns the session after the device restarted at the standing `at`.
    fn restarted(self, at: Standing) -> Session<'f>
        ensures { result ≡ session_after_restart self.entry at.work at.place at.step }
    {
        match at.work {
            Work::Leave => self.restarted_leaving(at),
            _ => self.take_restart(at),
        }
    }

    /// Returns the session after the result `heard` at the standing `at`.
    fn after(self, at: Standing, heard: Heard) -> Session<'f>
        ensures { result ≡ session_after_step_heard self.entry at.work at.place at.step heard }
    {
        match heard {
            Heard::Restarted => self.restarted(at),
            _ => self.spend_action(
                self.plan.row(at.work, at.place, at.step, &heard),
                self.restarts,
            ),
        }
    }

    /// Begins a session that writes an image and reads it back. The session writes the front last, so that a device doesn't start an image
    /// that is only partly written.
    ///
    /// # Errors
    ///
    /// The first fault of the plan, in the order of [`PlanFault`].
    pub fn begin(plan: Plan<'f>, limits: Limits) -> Result<Session<'f>, PlanFault>
        ensures begun { IfOk result (λ s. s ≡ initial_dfuse_session plan.entry limits) }
        ensures sound { OnOk result (IsSoundPlan plan.entry) }
        ensures fault { IfErr result (FirstPlanFault plan.entry) }
    {
        match plan.check() {
            Ok(()) => Ok(Session {
                plan,
                phase: cleared(Work::Erase {
                    at: image_start(plan.image),
                }),
                actions: limits.actions.max(1),
                restarts: limits.restarts,
            }),
            Err(fault) => Err(fault),
        }
    }

    /// Returns the next action. The call changes nothing, so it may be repeated.
    pub fn next(&self) -> Action<'f>
        ensures { DfuseAct self.now result }
    {
        self.plan.action(self.phase)
    }

    /// Gives the session the result of its action. After `actions` calls, or after one call if the limits allow none, the session is over,
    /// no matter which results it got. A session that is over never changes.
    pub fn take(&mut self, seen: Seen<'_>)
        ensures row { SessionRow self.old seen.entry self.new }
        ensures plan { self.new.plan ≡ self.old.plan }
        ensures budget { remaining_dfuse_inputs self.new ≤ remaining_dfuse_inputs self.old - 1 }
        ensures over { DfuseIsOver self.old.phase → self.new ≡ self.old }
    {
        if let Phase::On(at) = self.phase {
            let heard = self.plan.hear(at.work, at.step, seen);
            *self = self.after(at, heard);
        }
    }
}
