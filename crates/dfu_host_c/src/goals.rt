//! Conversion between the goals of sessions and numbers.

ghost use Rattle.std.specs.Prelude.{◌≡◌, List, ℕ, IfSome, Some, None};
ghost use Rattle.std.specs.Borrow.{Bor};
ghost use Rattle.dfu_host.specs.Goals.{CarriesPayload};
ghost use Rattle.dfu_host_core.specs.Sessions.{goal_at};

use dfu_host::Goal;

/// Returns the goal with this number and this payload; None if no goal has the number.
pub(crate) fn goal_at<'f>(number: u32, payload: &'f [u8]) -> Option<Goal<'f>>
    ensures value { result ≡ goal_at number payload.entry }
    ensures carries { IfSome result (λ goal. CarriesPayload payload.entry goal) }
{
    match number {
        1 => Some(Goal::Load(payload)),
        2 => Some(Goal::Fetch),
        3 => Some(Goal::Verify(payload)),
        4 => Some(Goal::Compare(payload)),
        _ => None,
    }
}

pub(crate) fn goal_number(goal: Goal<'_>) -> u32
    ensures { (payload : Bor (List ℕ)) → CarriesPayload payload goal.entry → goal_at result payload ≡ Some goal.entry }
{
    match goal {
        Goal::Load(_) => 1,
        Goal::Fetch => 2,
        Goal::Verify(_) => 3,
        Goal::Compare(_) => 4,
    }
}
