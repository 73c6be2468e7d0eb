//! The calls that begin a session, and pass a result to it.

ghost use Rattle.std.specs.Prelude.{◌≡◌, ◌⊎◌, None, pos};
ghost use Rattle.dfu_host_core.specs.Numbers.{no_seen, no_session};
ghost use Rattle.dfu_host_c.specs.dfuse.Calls.{DfuseBeginResult, HostRefusesDfusePlan, DfuseTakeResult, HoldsNoDfuseSession};
ghost use Rattle.dfu_host_c.specs.dfuse.Maps.{IsNoMap};
ghost use Rattle.dfu_host_c.specs.dfuse.SeenNumbers.{dfuse_seen_at};

use crate::dfuse::holding::{map_of, record_of, session_of};
use crate::dfuse::plan::DfusePlan;
use crate::dfuse::session::DfuseSession;
use crate::refusals::{HostRefusal, NO_SEEN, NO_SESSION};
use crate::seen::dfuse_seen_at;
use dfu_formats::memory::Map;
use dfuse_host::{Element, Limits, Session};

/// Begins a session that writes an image and reads it back. Returns 0; the number of the string's first fault; or, if the string has no
/// fault, the number of the plan's first fault.
#[unsafe(no_mangle)]
pub extern "C" fn dfuse_begin(
    session: &mut DfuseSession,
    map: &[u8],
    image: &[Element<'_>],
    plan: &DfusePlan,
) -> i32
    ensures outcome { ((result ≡ pos 0) × DfuseBeginResult map.now image.entry plan.now session.new)
        ⊎ (IsNoMap map.now result × (session.new ≡ session.old))
        ⊎ (HostRefusesDfusePlan map.now image.entry plan.now result × (session.new ≡ session.old)) }
{
    let map = match Map::read(map) {
        Ok(map) => map,
        Err(fault) => return HostRefusal::Map(fault).number(),
    };
    let limits = Limits {
        actions: plan.actions,
        restarts: plan.restarts,
    };
    match Session::begin(plan.over(&map, image), limits) {
        Ok(host) => {
            *session = record_of(&host);
            0
        }
        Err(fault) => HostRefusal::Plan(fault).number(),
    }
}

/// Passes the result of a session's action to the session. Returns 0, `DFU_NO_SESSION` or `DFU_NO_SEEN`.
#[unsafe(no_mangle)]
pub extern "C" fn dfuse_take(
    session: &mut DfuseSession,
    map: &[u8],
    image: &[Element<'_>],
    seen: u32,
    bytes: &[u8],
) -> i32
    ensures outcome { ((result ≡ pos 0) × DfuseTakeResult session.old session.new map.now image.entry seen bytes.entry)
        ⊎ ((result ≡ no_session) × HoldsNoDfuseSession session.old map.now × (session.new ≡ session.old))
        ⊎ ((result ≡ no_seen) × (dfuse_seen_at seen bytes.entry ≡ None) × (session.new ≡ session.old)) }
{
    let Some(map) = map_of(map) else {
        return NO_SESSION;
    };
    let Some(mut host) = session_of(session, &map, image) else {
        return NO_SESSION;
    };
    let Some(seen) = dfuse_seen_at(seen, bytes) else {
        return NO_SEEN;
    };
    host.take(seen);
    *session = record_of(&host);
    0
}
