//! Effects of each event on a device and a host.

ghost use Rattle.std.specs.Prelude.{◌≡◌};
ghost use Rattle.dfu_sim.specs.Delivery.{delivery_of};
ghost use Rattle.dfu_sim.specs.Play.{uploaded_after, notify_restart, session_aborted};
ghost use Rattle.dfu_sim.specs.LinkInvariant.{session_of, given_by, bench_of, link_state, SessionIsNotDone, SendsBytes, SessionIsCounted, IsSteadyLink};
ghost use Rattle.dfu_sim.specs.Happening.{Offers, Goes, fate_of, harm_of_fate, fate_with_refusal, happening};
ghost use Rattle.dfu_sim.specs.EventResults.{WorldEventResult, WorldEventAlone};
ghost use Rattle.dfu_sim.specs.inside.Acting.{report_of_phase, session_outcome, abort_answer};

use crate::acting::{carry_out, power_cycle};
use crate::delivery::Answered;
use crate::event::Event;
use crate::fate::Fate;
use crate::fault::LinkFault;
use crate::offering::{Purpose, begin, upload};
use dfu_device::{Device, Objection};
use dfu_host::{Action, Host, Limits, Report, Seen};
use dfu_slots::{Faulty, Medium};
use std::alloc::Global;

/// Returns the report of a host that is done, or None for any other host.
fn report(host: &Host<'_>) -> Option<Report>
    ensures { result ≡ report_of_phase host.now.phase }
{
    match host.next() {
        Action::Done(report) => Some(report),
        _ => None,
    }
}

/// Ends the session of a host that is done, and returns its report, or None if no host is done. A host that reports Uploaded is kept in
/// `gave`, because it holds the uploaded bytes.
fn end<'f>(host: &mut Option<Host<'f>>, gave: &mut Option<Host<'f>>) -> Option<Report>
    requires { SessionIsCounted (session_of host.old) }
    ensures session { session_of host.new ≡ (session_outcome (session_of host.old)).session }
    ensures given { given_by gave.new ≡ uploaded_after (session_outcome (session_of host.old)).answer.gave (given_by gave.old) }
    ensures report { result ≡ (session_outcome (session_of host.old)).answer.report }
{
    let report = match host {
        None => None,
        Some(live) => report(live),
    };
    match report {
        None => {}
        Some(Report::Uploaded) => *gave = host.take(),
        Some(_) => *host = None,
    }
    report
}

/// Notifies the live host, if there is one, of a restart of the device. If the restart ends its session, returns the session's report.
fn restart<'f>(host: &mut Option<Host<'f>>, gave: &mut Option<Host<'f>>) -> Option<Report>
    requires sized { SendsBytes (session_of host.old) }
    requires counted { SessionIsCounted (session_of host.old) }
    ensures session { session_of host.new ≡ (notify_restart (session_of host.old)).session }
    ensures given { given_by gave.new ≡ uploaded_after (notify_restart (session_of host.old)).answer.gave (given_by gave.old) }
    ensures report { result ≡ (notify_restart (session_of host.old)).answer.report }
{
    if let Some(live) = host {
        live.take(Seen::Restarted);
    }
    end(host, gave)
}

/// Begins a session for the offer of `file`, or returns the fault if the offer is refused.
fn offer<'f, M: Medium>(
    device: &Device<M>,
    host: &mut Option<Host<'f>>,
    purpose: Purpose,
    file: &'f [u8],
    limits: Limits,
) -> Result<Option<Report>, LinkFault>
    requires { IsSteadyLink (bench_of device.now host.old) }
    ensures { WorldEventAlone (bench_of device.now host.old) (Offers purpose file.now limits) (bench_of device.now host.new) result }
{
    if host.is_some() {
        return Err(LinkFault::HostBusy);
    }
    match begin(&device.functional(), device.ids(), purpose, file, limits) {
        Ok(begun) => {
            *host = Some(begun);
            Ok(None)
        }
        Err(fault) => Err(LinkFault::BadOffer(fault)),
    }
}

/// Aborts the live session, or returns `NoHost` if none is live.
fn abort(host: &mut Option<Host<'_>>) -> Result<Option<Report>, LinkFault>
    requires { SessionIsNotDone (session_of host.old) }
    ensures session { session_of host.new ≡ session_aborted (session_of host.old) }
    ensures told { result ≡ abort_answer (session_of host.old) }
{
    match host {
        None => Err(LinkFault::NoHost),
        Some(live) => {
            live.abort();
            Ok(None)
        }
    }
}

/// Performs the next action of the host with `fate`. If the action closes a download and `refusing` holds an objection, the device's
/// program refuses the image. `out` receives the device's response.
fn take_action<'f, M: Faulty>(
    device: &mut Device<M>,
    host: &mut Option<Host<'f>>,
    gave: &mut Option<Host<'f>>,
    fate: Fate<'_>,
    refusing: Option<Objection>,
    out: &mut Answered,
) -> Result<Option<Report>, LinkFault>
    requires { IsSteadyLink (bench_of device.old host.old) }
    ensures { WorldEventResult (link_state device.old host.old gave.old) (Goes (fate_with_refusal refusing (fate_of fate.entry)) (harm_of_fate fate.entry))
        (link_state device.new host.new gave.new) result }
{
    match host {
        None => return Err(LinkFault::NoHost),
        Some(live) => carry_out(device, live, fate, refusing, out),
    }
    Ok(end(host, gave))
}

/// Applies `event`. A refused event changes nothing. `out` receives the device's response to an action.
pub(crate) fn apply_event<'f, M: Faulty>(
    alloc: Global,
    device: &mut Device<M>,
    host: &mut Option<Host<'f>>,
    gave: &mut Option<Host<'f>>,
    event: Event<'f, '_>,
    out: &mut Answered,
) -> Result<Option<Report>, LinkFault>
    requires { IsSteadyLink (bench_of device.old host.old) }
    ensures { WorldEventResult (link_state device.old host.old gave.old) (happening event.entry) (link_state device.new host.new gave.new) result }
{
    match event {
        Event::Offer { file, limits } => offer(device, host, Purpose::Install, file, limits),
        Event::OfferVerified { file, limits } => offer(device, host, Purpose::Verify, file, limits),
        Event::Upload { limits } => upload(alloc, device, host, limits),
        Event::Abort => abort(host),
        Event::Go(fate) => take_action(device, host, gave, fate, None, out),
        Event::GoRefused { fate, objection } => {
            take_action(device, host, gave, fate, Some(objection), out)
        }
        Event::Time(ms) => {
            device.elapse(ms);
            Ok(None)
        }
        Event::Reset => {
            device.usb_reset();
            Ok(restart(host, gave))
        }
        Event::Cut => {
            power_cycle(device);
            Ok(restart(host, gave))
        }
        Event::Refuse(objection) => {
            device.refuse(objection);
            Ok(None)
        }
    }
}
