//! The calls that pass a result to a session, and abort a session.

ghost use Rattle.std.specs.Prelude.{◌≤◌, List, ℕ, length};
ghost use Rattle.std.specs.Borrow.{Bor};
ghost use Rattle.dfu_host.specs.Goals.{CarriesPayload};
ghost use Rattle.dfu_host.specs.Host.{HostRow};
ghost use Rattle.dfu_host.specs.Rooms.{FetchResultIn};
ghost use Rattle.dfu_host.specs.Storing.{RoomAfterSeen};
ghost use Rattle.dfu_host_core.specs.Calls.{HostAbortResult, HostTakeResult};
ghost use Rattle.dfu_host_core.specs.Sessions.{IsRecordAndBuffer, HasWrittenNumbers, host_in};

use crate::holding::{record_of, session_of};
use crate::refusals::{NO_SEEN, NO_SESSION};
use crate::seen::seen_at;
use dfu_host::{Seen, Session};
use dfu_host_core::DfuSession;

/// Passes the result `seen` to `host`, the session of the record `given`, and returns the next record.
fn step(given: &DfuSession, host: &mut Session<'_>, kept: &mut [u8], seen: Seen<'_>) -> DfuSession
    requires { given.now.kept ≤ length kept.old }
    ensures row { HostRow (host_in given.now kept.old host.old) seen.entry (host_in result kept.new host.new) }
    ensures room { FetchResultIn (length kept.old) (host_in given.now kept.old host.old)
        (host_in given.now kept.old host.old).phase seen.entry
        (host_in result kept.new host.new) }
    ensures stores { RoomAfterSeen host.old.transfer host.old.phase seen.entry given.now.kept kept.old result.kept kept.new }
    ensures written { HasWrittenNumbers result host.new }
    ensures held { (payload : Bor (List ℕ)) → CarriesPayload payload host.old.goal → IsRecordAndBuffer result payload kept.new host.new }
{
    let count = host.take(kept, given.kept as usize, seen);
    record_of(host, count as u64)
}

/// Passes the result of a session's action to the session. Returns 0, `DFU_NO_SESSION` or `DFU_NO_SEEN`.
#[unsafe(no_mangle)]
pub extern "C" fn dfu_host_take(
    session: &mut DfuSession,
    payload: &[u8],
    kept: &mut [u8],
    seen: u32,
    bytes: &[u8],
) -> i32
    ensures outcome { HostTakeResult session.old payload.entry kept.old seen bytes.entry result session.new kept.new }
{
    let Some(mut host) = session_of(session, payload) else {
        return NO_SESSION;
    };
    if session.kept > kept.len() as u64 {
        return NO_SESSION;
    }
    let Some(seen) = seen_at(seen, bytes) else {
        return NO_SEEN;
    };
    *session = step(session, &mut host, kept, seen);
    0
}

/// Aborts a session. Returns 0 or `DFU_NO_SESSION`.
#[unsafe(no_mangle)]
pub extern "C" fn dfu_host_abort(session: &mut DfuSession, payload: &[u8]) -> i32
    ensures outcome { HostAbortResult session.old payload.entry result session.new }
{
    let Some(mut host) = session_of(session, payload) else {
        return NO_SESSION;
    };
    host.abort();
    *session = record_of(&host, session.kept);
    0
}
