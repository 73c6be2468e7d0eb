//! The next action of a session, as a record for C.

ghost use Rattle.std.specs.Prelude.{◌≤◌, List, length, ℕ};
ghost use Rattle.dfu_host.specs.Phases.{Deed};
ghost use Rattle.dfu_host.specs.InParts.{BodyIsSliceOfPayload};
ghost use Rattle.dfu_host.specs.Wire.{SpellsDeed};
ghost use Rattle.dfu_host_core.specs.Actions.{ActionRecord};
ghost use Rattle.dfu_host_core.specs.Calls.{HostNextResult};

use crate::holding::session_of;
use crate::refusals::NO_SESSION;
use crate::reports::report_numbers;
use dfu_host::Action;
use dfu_host_core::{DfuAction, DfuSession};

/// Returns the record of an action. The body of the action, if it has one, begins at offset `from` in the payload.
#[tactic(auto, using(crate::proofs::Bodies::body_ends_in_payload))]
fn record_of(action: Action<'_>, from: usize) -> DfuAction
    ensures { (deed : Deed) (payload : List ℕ) → SpellsDeed deed action.entry → BodyIsSliceOfPayload payload from action.entry → from ≤ length payload
        → ActionRecord payload from deed result }
{
    let none = DfuAction {
        what: 2,
        value: 0,
        from: 0,
        length: 0,
        code: 0,
        setup: [0; 8],
    };
    match action {
        Action::Send { setup, body } => DfuAction {
            what: 0,
            from: from as u64,
            length: body.len() as u64,
            setup,
            ..none
        },
        Action::Wait(ms) => DfuAction {
            what: 1,
            value: ms,
            ..none
        },
        Action::Reset => none,
        Action::Done(report) => {
            let (value, code) = report_numbers(report);
            DfuAction {
                what: 3,
                value,
                code,
                ..none
            }
        }
    }
}

/// Writes the next action of a session. Returns 0 or `DFU_NO_SESSION`.
#[tactic(auto, using(crate::proofs::Bodies::body_begins_in_payload))]
#[unsafe(no_mangle)]
pub extern "C" fn dfu_host_next(session: &DfuSession, payload: &[u8], action: &mut DfuAction) -> i32
    ensures outcome { HostNextResult session.now payload.entry result action.old action.new }
{
    let Some(host) = session_of(session, payload) else {
        return NO_SESSION;
    };
    *action = record_of(host.next(), host.sends_from());
    0
}
