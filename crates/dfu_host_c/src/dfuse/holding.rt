//! Conversion between a DfuSe session and its record for C.

ghost use Rattle.std.specs.Prelude.{◌≡◌, IfSome, None, Some};
ghost use Rattle.dfu_formats.specs.memory.Grammar.{IsMap};
ghost use Rattle.dfu_formats.specs.memory.Reading.{MapContent};
ghost use Rattle.dfu_host_c.specs.dfuse.Sessions.{numbers_of, phase_in, dfuse_record_of, session_in};

use crate::dfuse::phases::{EncodedDfusePhase, numbers_of, phase_at};
use crate::dfuse::plan::DfusePlan;
use crate::dfuse::session::DfuseSession;
use crate::version::VERSION;
use dfu_formats::memory::Map;
use dfuse_host::{Element, Phase, Session};

/// Returns the numbers of the phase in a record.
fn numbers_in(given: &DfuseSession) -> EncodedDfusePhase
    ensures { result ≡ numbers_of given.now }
{
    EncodedDfusePhase {
        work: given.work,
        at: given.at,
        end: given.end,
        place: given.place,
        pointer: given.pointer,
        step: given.step,
        more: given.more,
        report: given.report,
    }
}

/// Returns the phase of a record; None if the record has another version, or if no phase has its numbers.
fn phase_in(given: &DfuseSession) -> Option<Phase>
    ensures { result ≡ phase_in given.now }
{
    if given.version != VERSION {
        return None;
    }
    phase_at(numbers_in(given))
}

/// Returns the map in a string; None if the string is not a map.
pub(crate) fn map_of(text: &[u8]) -> Option<Map<'_>>
    ensures some { IfSome result (λ m. IsMap m text.now) }
    ensures none { result ≡ None → (m : MapContent) → IsMap m text.now → ⊥ }
{
    match Map::read(text) {
        Ok(map) => Some(map),
        Err(_) => None,
    }
}

/// Returns the session of a record with a map and an image; None if the record has another version or no phase.
pub(crate) fn session_of<'f>(
    given: &DfuseSession,
    map: &'f Map<'f>,
    image: &'f [Element<'f>],
) -> Option<Session<'f>>
    ensures value { result ≡ session_in given.now map.entry image.entry }
    ensures none { result ≡ None → phase_in given.now ≡ None }
{
    let Some(phase) = phase_in(given) else {
        return None;
    };
    Some(Session {
        plan: given.plan.over(map, image),
        phase,
        actions: given.plan.actions,
        restarts: given.plan.restarts,
    })
}

/// Returns the record of a session.
pub(crate) fn record_of(session: &Session<'_>) -> DfuseSession
    ensures value { result ≡ dfuse_record_of session.now }
    ensures says { session_in result session.now.plan.map session.now.plan.image ≡ Some session.now }
{
    let numbers = numbers_of(session.phase);
    DfuseSession {
        version: VERSION,
        work: numbers.work,
        at: numbers.at,
        end: numbers.end,
        pointer: numbers.pointer,
        place: numbers.place,
        step: numbers.step,
        more: numbers.more,
        report: numbers.report,
        plan: DfusePlan {
            start: session.plan.start,
            actions: session.actions,
            restarts: session.restarts,
            transfer: session.plan.transfer,
            front: session.plan.front,
            leaves: u16::from(session.plan.leaves),
        },
    }
}
