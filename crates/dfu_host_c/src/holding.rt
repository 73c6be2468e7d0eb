//! Conversion between a session and its record for C.

ghost use Rattle.std.specs.Prelude.{◌≡◌, List, ℕ, IfSome, None, Some};
ghost use Rattle.std.specs.Borrow.{Bor};
ghost use Rattle.dfu_host.specs.Goals.{CarriesPayload};
ghost use Rattle.dfu_host.specs.declared.parts.Parts.{Parts};
ghost use Rattle.dfu_host_core.specs.Sessions.{IsRecord, HasWrittenNumbers, parts_of};

use crate::goals::{goal_at, goal_number};
use crate::phases::{numbers_of, phase_at};
use crate::version::VERSION;
use dfu_host::{Parts, Session};
use dfu_host_core::DfuSession;

/// Returns the parts of a record; None if no goal or no phase has its numbers.
fn parts_of<'f>(given: &DfuSession, payload: &'f [u8]) -> Option<Parts<'f>>
    ensures value { result ≡ parts_of given.now payload.entry }
    ensures carries { IfSome result (λ parts. CarriesPayload payload.entry parts.goal) }
{
    let Some(goal) = goal_at(given.goal, payload) else {
        return None;
    };
    let Some(phase) = phase_at(given.phase, given.number, given.more) else {
        return None;
    };
    Some(Parts {
        goal,
        transfer: given.transfer,
        tolerant: given.tolerant != 0,
        will_detach: given.will_detach != 0,
        detach_ms: given.detach_ms,
        phase,
        actions: given.actions,
        restarts: given.restarts,
    })
}

/// Returns the session of a record with a payload; None if the record has another version, or if its parts can't be those of a session.
pub(crate) fn session_of<'f>(given: &DfuSession, payload: &'f [u8]) -> Option<Session<'f>>
    ensures some { IfSome result (λ s. IsRecord given.now payload.entry s × CarriesPayload payload.entry s.goal) }
    ensures none { result ≡ None → (parts : Parts) → IsRecord given.now payload.entry parts → ⊥ }
{
    if given.version != VERSION {
        return None;
    }
    let Some(parts) = parts_of(given, payload) else {
        return None;
    };
    let Some(session) = Session::from_parts(parts) else {
        return None;
    };
    let _parts = session.parts();
    Some(session)
}

/// Returns the record of a session that keeps `kept` bytes.
pub(crate) fn record_of(session: &Session<'_>, kept: u64) -> DfuSession
    ensures says { (payload : Bor (List ℕ)) → CarriesPayload payload session.now.goal → IsRecord result payload session.now }
    ensures written { HasWrittenNumbers result session.now }
    ensures kept { result.kept ≡ kept }
{
    let parts = session.parts();
    let numbers = numbers_of(parts.phase);
    DfuSession {
        version: VERSION,
        goal: goal_number(parts.goal),
        number: numbers.number,
        kept,
        phase: numbers.which,
        more: numbers.more,
        actions: parts.actions,
        restarts: parts.restarts,
        transfer: parts.transfer,
        detach_ms: parts.detach_ms,
        tolerant: u8::from(parts.tolerant),
        will_detach: u8::from(parts.will_detach),
    }
}
