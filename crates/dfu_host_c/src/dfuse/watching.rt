//! Calls of the watch over a DfuSe session, which decide when a program gives up on a device and how long it waits.

ghost use Rattle.std.specs.Prelude.{◌≡◌};
ghost use Rattle.dfu_host_c.specs.Watch.{c_number_of_bool};
ghost use Rattle.dfu_host_c.specs.dfuse.Watch.{
  may_change_memory,
  dfuse_course,
  dfuse_silent_after,
  dfuse_wait_length,
  dfuse_waits_after_wait,
  dfuse_watch_after_action,
  is_closing,
  is_gone_while_closing,
  is_dfuse_request_out,
  is_status,
};

use crate::dfuse::action::DfuseAction;
use crate::dfuse::session::DfuseSession;
use crate::dfuse::watch::DfuseWatch;
use crate::watch::DfuFacts;
use crate::watching::{
    ENDS_GONE, ENDS_MANY, ENDS_OTHER, ENDS_SILENT, GOES_ON, MOST_SILENT, count_and_one,
};

/// Course 8: pass a restart to the session instead of the action's result, because a device that must leave counts as gone.
const GOES_RESTARTED: u32 = 8;
/// Course 9: pass no result to the session, because the device is gone and the user has stopped the session.
const GOES_TO_STOP: u32 = 9;
/// Number of requests in a row without an answer after which a device that must leave counts as gone.
const MOST_SILENT_AT_CLOSE: u32 = 3;
/// Number of waits of 0 ms in a row that take no time.
const SHORT_WAITS: u32 = 3;
/// Milliseconds that each wait of 0 ms takes after the first three in a row.
const SHORT_WAIT_MS: u32 = 5;

/// Returns true if the session sends, or has sent, the DNLOAD of 0 bytes that makes the device leave.
fn is_closing(session: &DfuseSession) -> bool
    ensures { result ≡ is_closing session.now }
{
    session.work == 6 && session.step >= 12
}

/// Returns true if the action is a request that reached the device.
fn is_out(action: &DfuseAction, facts: &DfuFacts) -> bool
    ensures { result ≡ is_dfuse_request_out action.now facts.now }
{
    action.what == 0 && facts.reached != 0
}

/// Returns true if an action is GETSTATUS (USB DFU 1.1, section 6.1.2).
fn is_status(action: &DfuseAction) -> bool
    ensures { result ≡ is_status action.now }
{
    action.setup[0] == 0xa1 && action.setup[1] == 3
}

/// Returns true if an action may change the memory: it sends a block of data, whose number isn't 0, or command 41h, which erases.
fn alters_memory(action: &DfuseAction, command: u32) -> bool
    ensures { result ≡ may_change_memory action.now command }
{
    action.what == 0
        && action.setup[0] == 0x21
        && action.setup[1] == 1
        && action.length > 0
        && (action.setup[2] != 0 || action.setup[3] != 0 || command == 0x41)
}

/// Returns the number of requests in a row that reached the device and had no answer, after an action.
fn silent_after(watch: &DfuseWatch, action: &DfuseAction, seen: u32, facts: &DfuFacts) -> u32
    ensures { result ≡ dfuse_silent_after watch.now action.now seen facts.now }
{
    if !is_out(action, facts) {
        watch.silent
    } else if seen == 3 {
        count_and_one(watch.silent, MOST_SILENT)
    } else {
        0
    }
}

/// Returns the record of the watch after an action. `command` is the first byte of the action's body, or 0.
fn watch_after(
    watch: &DfuseWatch,
    action: &DfuseAction,
    command: u32,
    seen: u32,
    facts: &DfuFacts,
) -> DfuseWatch
    ensures { result ≡ dfuse_watch_after_action watch.now action.now command seen facts.now }
{
    DfuseWatch {
        silent: silent_after(watch, action, seen, facts),
        waits: if is_out(action, facts) && !is_status(action) {
            0
        } else {
            watch.waits
        },
        sent: u8::from(watch.sent != 0 || alters_memory(action, command)),
    }
}

/// Returns true if a device that must leave counts as gone after a request: another device is open, it is gone, it left by itself, or at
/// least three requests in a row had no answer.
fn is_gone_while_closing(
    watch: &DfuseWatch,
    action: &DfuseAction,
    seen: u32,
    facts: &DfuFacts,
) -> bool
    ensures { result ≡ is_gone_while_closing watch.now action.now seen facts.now }
{
    let is_other = facts.open != 0 && facts.again == 0;
    action.what == 0
        && (is_other || facts.gone != 0 || seen == 7 || watch.silent >= MOST_SILENT_AT_CLOSE)
}

/// Returns the course of the program, from the record of the watch and the facts of the device.
fn course(
    watch: &DfuseWatch,
    session: &DfuseSession,
    action: &DfuseAction,
    seen: u32,
    facts: &DfuFacts,
) -> u32
    ensures { result ≡ dfuse_course watch.now session.now action.now seen facts.now }
{
    let closes = is_closing(session);
    if closes && is_gone_while_closing(watch, action, seen, facts) {
        GOES_RESTARTED
    } else if facts.gone != 0 {
        if facts.stopped != 0 {
            GOES_TO_STOP
        } else if facts.many != 0 {
            ENDS_MANY
        } else {
            ENDS_GONE
        }
    } else if !closes && watch.silent >= MOST_SILENT {
        ENDS_SILENT
    } else if !closes && facts.open != 0 && facts.again == 0 {
        ENDS_OTHER
    } else {
        GOES_ON
    }
}

/// Returns 1 if the session sends, or has sent, the DNLOAD that makes the device leave, so that the device may be gone at any request; else
/// 0.
#[unsafe(no_mangle)]
pub extern "C" fn dfuse_watch_closes(session: &DfuseSession) -> u32
    ensures { result ≡ c_number_of_bool (is_closing session.now) }
{
    u32::from(is_closing(session))
}

/// Records an action in `watch`, and returns the course after it, from the action's result and the facts of the device. `command` is the
/// first byte of the action's body, or 0.
#[unsafe(no_mangle)]
pub extern "C" fn dfuse_watch_after(
    watch: &mut DfuseWatch,
    session: &DfuseSession,
    action: &DfuseAction,
    command: u32,
    seen: u32,
    facts: &DfuFacts,
) -> u32
    ensures kept { watch.new ≡ dfuse_watch_after_action watch.old action.now command seen facts.now }
    ensures course { result ≡ dfuse_course watch.new session.now action.now seen facts.now }
{
    *watch = watch_after(watch, action, command, seen, facts);
    course(watch, session, action, seen, facts)
}

/// Records a wait in `watch`, and returns the milliseconds to wait if the host requests `ms`: 5 from the fourth wait of 0 ms in a row on,
/// else `ms`.
#[unsafe(no_mangle)]
pub extern "C" fn dfuse_watch_wait(watch: &mut DfuseWatch, ms: u32) -> u32
    ensures waits { watch.new.waits ≡ dfuse_waits_after_wait watch.old ms }
    ensures others { (watch.new.silent ≡ watch.old.silent) × (watch.new.sent ≡ watch.old.sent) }
    ensures ms { result ≡ dfuse_wait_length watch.new ms }
{
    watch.waits = if ms == 0 {
        count_and_one(watch.waits, SHORT_WAITS + 1)
    } else {
        0
    };
    if watch.waits > SHORT_WAITS {
        SHORT_WAIT_MS
    } else {
        ms
    }
}
