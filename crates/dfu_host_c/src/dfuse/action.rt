//! The next action of a DfuSe session, as a record for C.

ghost use Rattle.std.specs.Prelude.{◌≡◌, ◌⊎◌, ℕ, List, pos};
ghost use Rattle.dfuse_host.specs.Deeds.{DfuseDeed, Send};
ghost use Rattle.dfuse_host.specs.Wire.{IsDfuseSetupOf, DfuseSpells};
ghost use Rattle.dfu_wire.specs.declared.requests.Request.{Request};
ghost use Rattle.dfu_host_c.specs.dfuse.Actions.{BodyHasNoRoom, DfuseNoRequestRecord, DfuseActionRecord};
ghost use Rattle.dfu_host_c.specs.dfuse.Calls.{IsNextDfuseAction, BodyFindsNoRoom, HoldsNoDfuseSession};
ghost use Rattle.dfu_host_c.specs.Refusals.{no_room};
ghost use Rattle.dfu_host_core.specs.Numbers.{no_session};

use crate::dfuse::holding::{map_of, session_of};
use crate::dfuse::reports::report_numbers;
use crate::dfuse::session::DfuseSession;
use crate::refusals::{NO_ROOM, NO_SESSION};
use dfuse_host::{Action, Element};

/// `struct dfuse_action`: the next action. The header explains each number.
#[repr(C)]
#[derive(Drop)]
pub struct DfuseAction {
    /// Length in bytes of the body, which is at the front of the buffer.
    pub length: u64,
    /// 0 to send, 1 to wait, 3 if the session is over.
    pub what: u32,
    /// The milliseconds of a wait, or the number of a report.
    pub value: u32,
    /// Detail of the report: the number of its `Leaving`, or a status code.
    pub more: u32,
    /// Setup packet of the request to send.
    pub setup: [u8; 8],
}

/// Writes a request with its body. Returns 0, or `DFUSE_NO_ROOM` if the body is longer than the buffer.
fn send(setup: [u8; 8], sent: &[u8], body: &mut [u8], action: &mut DfuseAction) -> i32
    ensures outcome { (request : Request) → IsDfuseSetupOf request setup
        → ((result ≡ pos 0) × DfuseActionRecord (Send request sent.now) action.new body.old body.new)
        ⊎ ((result ≡ no_room) × BodyHasNoRoom (Send request sent.now) body.old × (action.new ≡ action.old) × (body.new ≡ body.old)) }
{
    if sent.len() > body.len() {
        return NO_ROOM;
    }
    body[..sent.len()].copy_from_slice(sent);
    *action = DfuseAction {
        length: sent.len() as u64,
        what: 0,
        value: 0,
        more: 0,
        setup,
    };
    0
}

/// Returns the record of an action without a request: the setup packet and the length of the body are 0.
fn other(what: u32, value: u32, more: u32) -> DfuseAction
    ensures { (bytes : List ℕ) → DfuseNoRequestRecord what value more result bytes bytes }
{
    DfuseAction {
        length: 0,
        what,
        value,
        more,
        setup: [0; 8],
    }
}

/// Writes an action to its record, and the body of a request to the buffer. Returns 0, or `DFUSE_NO_ROOM` if the body is too long.
fn tell(given: Action<'_>, body: &mut [u8], action: &mut DfuseAction) -> i32
    ensures outcome { (deed : DfuseDeed) → DfuseSpells deed given.entry
        → ((result ≡ pos 0) × DfuseActionRecord deed action.new body.old body.new)
        ⊎ ((result ≡ no_room) × BodyHasNoRoom deed body.old × (action.new ≡ action.old) × (body.new ≡ body.old)) }
{
    match given {
        Action::Send { setup, body: sent } => send(setup, sent, body, action),
        Action::Command { setup, body: sent } => send(setup, &sent, body, action),
        Action::Wait(ms) => {
            *action = other(1, ms, 0);
            0
        }
        Action::Done(report) => {
            let (value, more) = report_numbers(report);
            *action = other(3, value, more);
            0
        }
    }
}

/// Writes the next action of a session. Returns 0, `DFU_NO_SESSION` or `DFUSE_NO_ROOM`.
#[unsafe(no_mangle)]
pub extern "C" fn dfuse_next(
    session: &DfuseSession,
    map: &[u8],
    image: &[Element<'_>],
    body: &mut [u8],
    action: &mut DfuseAction,
) -> i32
    ensures outcome { ((result ≡ pos 0) × IsNextDfuseAction session.now map.now image.entry action.new body.old body.new)
        ⊎ ((result ≡ no_room) × BodyFindsNoRoom session.now map.now image.entry body.old × (action.new ≡ action.old) × (body.new ≡ body.old))
        ⊎ ((result ≡ no_session) × HoldsNoDfuseSession session.now map.now × (action.new ≡ action.old) × (body.new ≡ body.old)) }
{
    let Some(map) = map_of(map) else {
        return NO_SESSION;
    };
    let Some(host) = session_of(session, &map, image) else {
        return NO_SESSION;
    };
    tell(host.next(), body, action)
}
