//! Calls of the watch over a session, which decide when a program gives up on a device and when it begins another session.

ghost use Rattle.std.specs.Prelude.{◌≡◌, ◌<◌, ◌≢◌, if◌then◌else◌};
ghost use Rattle.dfu_host_c.specs.Watch.{
  c_number_of_bool,
  watch_after_course,
  capped_count,
  course_after,
  course_before,
  detach_number,
  is_download,
  is_image_transfer,
  is_other_device,
  is_request_out,
  resets_after,
  silent_after,
  stalled_after,
  watch_after_action,
};

use crate::watch::{DfuFacts, DfuWatch};
use dfu_host_core::DfuAction;

/// Courses that `dfu_watch_before` and `dfu_watch_after` return. A course is the decision to continue, to begin another session, or to end
/// the session for one of six reasons.
pub(crate) const GOES_ON: u32 = 0;

const BEGINS_ANEW: u32 = 1;

pub(crate) const ENDS_GONE: u32 = 2;

pub(crate) const ENDS_MANY: u32 = 3;

pub(crate) const ENDS_SILENT: u32 = 4;

pub(crate) const ENDS_OTHER: u32 = 5;

const ENDS_STALLED: u32 = 6;

const ENDS_REFUSED: u32 = 7;

/// Number of unfinished requests and resets in a row that end a session. With a transfer timeout of 5 seconds, they take two minutes.
pub(crate) const MOST_SILENT: u32 = 24;
/// Number of resets in a row that may follow only stalls, because each reset restarts a running application.
const MOST_RESETS: u32 = 3;

/// Returns true if an action sends a block or the close of a download (USB DFU 1.1, section 6.1.1).
fn is_download(action: &DfuAction) -> bool
    ensures { result ≡ is_download action.now }
{
    action.what == 0 && action.setup[0] == 0x21 && action.setup[1] == 1
}

/// Returns true if an action is a DNLOAD or an UPLOAD (USB DFU 1.1, sections 6.1.1 and 6.2).
fn is_image_transfer(action: &DfuAction) -> bool
    ensures { result ≡ is_image_transfer action.now }
{
    is_download(action) || (action.what == 0 && action.setup[0] == 0xa1 && action.setup[1] == 2)
}

/// Returns true if the action is a request that reached the device.
fn is_reached(action: &DfuAction, facts: &DfuFacts) -> bool
    ensures { result ≡ is_request_out action.now facts.now }
{
    action.what == 0 && facts.reached != 0
}

/// Returns the count plus one if it is below `most`, else the count.
pub(crate) fn count_and_one(number: u32, most: u32) -> u32
    ensures { result ≡ capped_count number most }
{
    if number < most { number + 1 } else { number }
}

/// Returns 0 if the program may do the session's next action, else the course that ends the session. `by_another` is not 0 if the session
/// uses a functional descriptor other than the device's own.
#[unsafe(no_mangle)]
pub extern "C" fn dfu_watch_before(watch: &DfuWatch, action: &DfuAction, by_another: u32) -> u32
    ensures { result ≡ course_before watch.now action.now by_another }
{
    if by_another != 0 && is_image_transfer(action) {
        ENDS_REFUSED
    } else if action.what == 2 && watch.stalled != 0 && watch.resets >= MOST_RESETS {
        ENDS_STALLED
    } else {
        GOES_ON
    }
}

/// Returns 1 if the program must send a DETACH before the reset that the session requests, because the device stalled the last request in
/// run-time mode and no reset followed a stall yet; else 0.
#[unsafe(no_mangle)]
pub extern "C" fn dfu_watch_detaches(watch: &DfuWatch) -> u32
    ensures { result ≡ detach_number watch.now }
{
    u32::from(watch.stalled != 0 && watch.resets == 0)
}

/// Returns the number of requests and resets in a row that were not finished, after an action.
fn silent_after(watch: &DfuWatch, action: &DfuAction, seen: u32) -> u32
    ensures { result ≡ silent_after watch.now action.now seen }
{
    if action.what != 0 && action.what != 2 {
        watch.silent
    } else if seen == 3 {
        count_and_one(watch.silent, MOST_SILENT)
    } else {
        0
    }
}

/// Returns the number of resets in a row that follow only stalls, after an action. A request that reached the device sets the number to 0
/// if the device is in DFU mode, or acknowledged the request, or answered it with bytes.
fn resets_after(watch: &DfuWatch, action: &DfuAction, seen: u32, facts: &DfuFacts) -> u32
    ensures { result ≡ resets_after watch.now action.now seen facts.now }
{
    if is_reached(action, facts) && (facts.upgrade != 0 || seen == 0 || seen == 1) {
        0
    } else if action.what == 2 && watch.stalled != 0 && seen == 5 {
        count_and_one(watch.resets, MOST_RESETS)
    } else {
        watch.resets
    }
}

/// Returns true if the device stalled, in run-time mode, the last request that reached it.
fn stalled_after(watch: &DfuWatch, action: &DfuAction, seen: u32, facts: &DfuFacts) -> bool
    ensures { result ≡ stalled_after watch.now action.now seen facts.now }
{
    if is_reached(action, facts) {
        seen == 2 && facts.upgrade == 0
    } else {
        watch.stalled != 0
    }
}

/// Returns the record of the watch after an action.
fn watch_after(watch: &DfuWatch, action: &DfuAction, seen: u32, facts: &DfuFacts) -> DfuWatch
    ensures { result ≡ watch_after_action watch.now action.now seen facts.now }
{
    DfuWatch {
        silent: silent_after(watch, action, seen),
        resets: resets_after(watch, action, seen, facts),
        stalled: u8::from(stalled_after(watch, action, seen, facts)),
        sent: u8::from(watch.sent != 0 || (is_reached(action, facts) && is_download(action))),
        anew: watch.anew,
    }
}

/// Returns true if the open device is not the session's. Once a DNLOAD was sent, a device in run-time mode may run another image, so its
/// identity is not compared.
fn is_other(watch: &DfuWatch, facts: &DfuFacts) -> bool
    ensures { result ≡ is_other_device watch.now facts.now }
{
    facts.open != 0 && facts.again == 0 && (facts.upgrade != 0 || watch.sent == 0)
}

/// Returns 1 if the open device is not the session's, so that the program must not send it a request; else 0.
#[unsafe(no_mangle)]
pub extern "C" fn dfu_watch_is_other(watch: &DfuWatch, facts: &DfuFacts) -> u32
    ensures { result ≡ c_number_of_bool (is_other_device watch.now facts.now) }
{
    u32::from(is_other(watch, facts))
}

/// Returns the course of the program, from the record of the watch and the facts of the device.
fn course(watch: &DfuWatch, facts: &DfuFacts) -> u32
    ensures { result ≡ course_after watch.now facts.now }
{
    if facts.gone != 0 && facts.stopped == 0 {
        if facts.many != 0 {
            ENDS_MANY
        } else {
            ENDS_GONE
        }
    } else if watch.silent >= MOST_SILENT {
        ENDS_SILENT
    } else if is_other(watch, facts) {
        ENDS_OTHER
    } else if facts.open != 0 && facts.upgrade != 0 && facts.same == 0 {
        if watch.sent != 0 || watch.anew != 0 {
            ENDS_OTHER
        } else {
            BEGINS_ANEW
        }
    } else {
        GOES_ON
    }
}

/// Records an action in `watch`, and returns the course after it, from the action's result and the facts of the device: 0 to continue, 1 to
/// begin another session in place of this one, 2 to 5 to end the session. Course 1 is recorded in `watch` too.
#[unsafe(no_mangle)]
pub extern "C" fn dfu_watch_after(
    watch: &mut DfuWatch,
    action: &DfuAction,
    seen: u32,
    facts: &DfuFacts,
) -> u32
    ensures course { result ≡ course_after (watch_after_action watch.old action.now seen facts.now) facts.now }
    ensures kept { watch.new ≡ watch_after_course result (watch_after_action watch.old action.now seen facts.now) }
    // Unless the session ends, fewer than 24 requests and resets in a row were not finished.
    ensures silence { result < 2 → watch.new.silent < 24 }
    // The program begins another session at most once, and only before any part of an image was sent.
    ensures once { result ≡ 1 → (watch.old.anew ≡ 0) × (watch.new.anew ≡ 1) × (watch.new.sent ≡ 0) }
{
    *watch = watch_after(watch, action, seen, facts);
    let result = course(watch, facts);
    if result == BEGINS_ANEW {
        watch.anew = 1;
    }
    result
}
