//! Progress of a session: its phase, the actions and the restarts that are left.

ghost use Rattle.std.specs.Prelude.{◌≡◌, if◌then◌else◌, List, ℕ, max};
ghost use Rattle.dfu_host.specs.Host as host;
ghost use Rattle.dfu_host.specs.inside.Comparing.{ComparedMeaning};
ghost use Rattle.dfu_host.specs.inside.PartMemory.{MemoryAfter};
ghost use Rattle.dfu_host.specs.Table as table;
ghost use Rattle.dfu_host.specs.InParts.{HasPhaseNeeds, phase_of};
ghost use Rattle.dfu_host.specs.inside.View.{meaning_of_heard, host_of_progress, task_of_session};
ghost use Rattle.dfu_host.specs.declared.task.Task.{Task};
ghost use Rattle.std.specs.Borrow.{Bor};
ghost use Rattle.dfu_host.specs.BehindClose.{is_behind_close};
ghost use Rattle.dfu_host.specs.Goals.{CarriesPayload, goal_of};

use crate::heard::Heard;
use crate::limits::Limits;
use crate::phase::Phase;
use crate::report::Report;
use crate::task::Task;

/// Progress of a session.
#[derive(Clone, Copy)]
pub(crate) struct Progress {
    pub(crate) phase: Phase,
    /// Number of actions that are left.
    pub(crate) actions: u32,
    /// Number of further restarts of the device that the session tolerates.
    pub(crate) restarts: u16,
}

/// Returns the progress of a new session, with at least one action.
pub(crate) fn beginning(limits: Limits) -> Progress
    ensures { result ≡ record { phase = Phase.Find; actions = max 1 limits.actions; restarts = limits.restarts } }
{
    Progress {
        phase: Phase::Find,
        actions: limits.actions.max(1),
        restarts: limits.restarts,
    }
}

impl Progress {
    /// Returns the progress after the result `heard`, and changes the task with it. The caller has already kept or refused a part in the
    /// result.
    pub(crate) fn after(self, task: &mut Task<'_>, heard: Heard) -> Progress
        requires { HasPhaseNeeds task.old.goal task.old.transfer self.phase }
        ensures state { (memory memory' part : List ℕ)
            → MemoryAfter task.old.transfer memory self.phase part heard memory'
            → ComparedMeaning (task_of_session task.old) self.phase part heard
            → host_of_progress memory' task.new result ≡ host.after (host_of_progress memory task.old self) (meaning_of_heard part heard) }
        ensures payload { (payload : Bor (List ℕ)) → CarriesPayload payload task.old.goal → CarriesPayload payload task.new.goal }
        ensures within { HasPhaseNeeds task.new.goal task.new.transfer result.phase }
    {
        if let Phase::Over(_) | Phase::OverUploaded = self.phase {
            return self;
        }
        match heard {
            Heard::Restarted => self.restarted(),
            Heard::Left => self.left(task),
            _ => self.by_row(task, heard),
        }
    }

    /// Returns the progress after a result that is handled by the table's row.
    fn by_row(self, task: &mut Task<'_>, heard: Heard) -> Progress
        requires { HasPhaseNeeds task.old.goal task.old.transfer self.phase }
        ensures state { (memory memory' part : List ℕ)
            → MemoryAfter task.old.transfer memory self.phase part heard memory'
            → ComparedMeaning (task_of_session task.old) self.phase part heard
            → host_of_progress memory' task.new result
            ≡ host.host_by_row (host_of_progress memory task.old self) (phase_of memory self.phase) (meaning_of_heard part heard) }
        ensures payload { (payload : Bor (List ℕ)) → CarriesPayload payload task.old.goal → CarriesPayload payload task.new.goal }
        ensures within { HasPhaseNeeds task.new.goal task.new.transfer result.phase }
    {
        let done = is_last_done(&self.phase, &heard);
        let next = task.row(self.phase, heard);
        task.go_on(done);
        self.spent(next, self.restarts)
    }

    /// Returns the progress after the device left by itself. After the close, this counts as the last reset, which confirms nothing; in
    /// every other phase it counts as a restart.
    fn left(self, task: &mut Task<'_>) -> Progress
        ensures state { (memory old : List ℕ) → host_of_progress memory task.new result
            ≡ host.host_after_leaving (host_of_progress old task.old self) (phase_of old self.phase)
            (is_behind_close (goal_of task.old.goal) (phase_of old self.phase)) }
        ensures payload { (payload : Bor (List ℕ)) → CarriesPayload payload task.old.goal → CarriesPayload payload task.new.goal }
        ensures within { HasPhaseNeeds task.new.goal task.new.transfer result.phase }
    {
        if !task.is_behind_close(self.phase) {
            return self.restarted();
        }
        let next = task.after_last(Report::Unconfirmed, Heard::WasReset);
        task.go_on(true);
        self.spent(next, self.restarts)
    }

    /// Returns the progress after a restart of the device.
    fn restarted(self) -> Progress
        ensures state { (task : Task) (memory old : List ℕ) → host_of_progress memory task result
            ≡ host.host_after_restart (host_of_progress old task self) (phase_of old self.phase) self.restarts }
        ensures within { (task : Task) → HasPhaseNeeds task.goal task.transfer result.phase }
    {
        if let Phase::GiveUp = self.phase {
            return self.spent(Phase::Over(Report::Aborted), self.restarts);
        }
        if self.restarts == 0 {
            self.spent(Phase::Over(Report::RestartsSpent), 0)
        } else {
            self.spent(Phase::Find, self.restarts - 1)
        }
    }

    /// Returns the progress after an action that leads to `next`.
    fn spent(self, next: Phase, restarts: u16) -> Progress
        ensures state { (task : Task) (memory old : List ℕ) → host_of_progress memory task result
            ≡ host.host_after_action (host_of_progress old task self) (phase_of memory next) restarts }
        ensures within { (task : Task) → HasPhaseNeeds task.goal task.transfer next → HasPhaseNeeds task.goal task.transfer result.phase }
    {
        let actions = self.actions.saturating_sub(1);
        Progress {
            phase: budgeted(actions, next),
            actions,
            restarts,
        }
    }
}

/// Returns true if `phase` was the last reset, and the bus was reset.
fn is_last_done(phase: &Phase, heard: &Heard) -> bool
    ensures { (goal : table.Goal) (memory part : List ℕ)
        → table.goal_after goal (phase_of memory phase.now) (meaning_of_heard part heard.now)
        ≡ (if result then table.goal_after_reset goal else goal) }
{
    match (phase, heard) {
        (Phase::Last(_), Heard::WasReset) => true,
        _ => false,
    }
}

/// Returns the phase after the budget check. A session without actions left gives up, unless it is over.
fn budgeted(left: u32, phase: Phase) -> Phase
    ensures next { (memory : List ℕ) → phase_of memory result ≡ host.phase_in_budget left (phase_of memory phase) }
    ensures within { (task : Task) → HasPhaseNeeds task.goal task.transfer phase → HasPhaseNeeds task.goal task.transfer result }
{
    match phase {
        Phase::Over(_) | Phase::OverUploaded => phase,
        _ if left == 0 => Phase::Over(Report::GaveUp),
        _ => phase,
    }
}
