//! Performs an action of a host, with the effects of its fate on the medium and on the power.

ghost use Rattle.std.specs.Prelude.{◌≡◌};
ghost use Rattle.dfu_slots.specs.Medium.Fuse.{Whole};
ghost use Rattle.dfu_device.specs.Rows.{Elapses};
ghost use Rattle.dfu_host.specs.Host.{IsLivePhase};
ghost use Rattle.dfu_host.specs.Wire.{SeenMeaning};
ghost use Rattle.dfu_host.specs.Phases.{Deed, Heard};
ghost use Rattle.dfu_sim.specs.Play.{wait_by_handling};
ghost use Rattle.dfu_sim.specs.Happening.{fate_of, harm_of_fate, fate_with_refusal};
ghost use Rattle.dfu_sim.specs.Delivery.{delivery_of};
ghost use Rattle.dfu_sim.specs.Bytes.{SetupResult, ReachesDevice, SlipsTime, device_after_bus_reset, response_if_delivered, response_if_powered, WaitDelivered, BusResetDelivered, HostActs, HostActsArmed, fuse_of, armed_device, device_after_power_cycle, device_after_action};
ghost use Rattle.dfu_sim.specs.inside.Acting.{delivery_of_given, harm_at, seen_after_action, HostTakesResponse};

use crate::delivery::{Answered, Delivery, Handled, MediumFault, Response, delivery_by};
use crate::fate::Fate;
use arrayvec::ArrayVec;
use dfu_device::{Answer, Device, Objection};
use dfu_host::{Action, Host, Seen};
use dfu_slots::{Faulty, Medium};

/// Delivers a request with `setup` and `body` to `device`, and puts the bytes of the answer into `out`. If the request closes a download
/// and `refusing` holds an objection, the device's program refuses the image with that objection.
fn take_in<M: Medium>(
    device: &mut Device<M>,
    setup: &[u8; 8],
    body: &[u8],
    refusing: Option<Objection>,
    out: &mut ArrayVec<u8, 4096>,
) -> Answer
    ensures { SetupResult refusing setup.now body.now device.old result out.new.items device.new }
{
    match refusing {
        None => device.handle(setup, body, out),
        Some(objection) => {
            if device.refuse_close(setup, objection) {
                out.clear();
                return Answer::Stall;
            }
            device.handle(setup, body, out)
        }
    }
}

/// Delivers a request with `setup` and `body` to `device` according to `handling`, and puts the bytes of the last answer into `out`. If the
/// request is handled twice, `refusing` applies only the first time, because no request closes a download twice.
fn reach<M: Medium>(
    device: &mut Device<M>,
    setup: &[u8; 8],
    body: &[u8],
    handling: Handled,
    refusing: Option<Objection>,
    out: &mut ArrayVec<u8, 4096>,
) -> Response
    ensures { ReachesDevice refusing setup.now body.now handling device.old result out.new.items device.new }
{
    match handling {
        Handled::Unseen => Response::Lost,
        Handled::Once => Response::Answered(take_in(device, setup, body, refusing, out)),
        Handled::Again => {
            let _ = take_in(device, setup, body, refusing, out);
            Response::Answered(device.handle(setup, body, out))
        }
        Handled::Late(ms) => {
            let answer = take_in(device, setup, body, refusing, out);
            device.elapse(ms);
            Response::Answered(answer)
        }
    }
}

/// Returns the response that the host gets to a request: `Restarted` if the power is cut, `Lost` if the answer is lost, and otherwise
/// `back`.
fn come_back(delivery: Delivery<'_>, back: Response) -> Response
    ensures { result ≡ response_if_powered delivery.entry.harming (response_if_delivered delivery.entry.back back) }
{
    match (delivery.harming, delivery.back) {
        (MediumFault::CutsPower, _) => Response::Restarted,
        (MediumFault::NoWrite | MediumFault::FailsWrite | MediumFault::LiesInWrite, true) => back,
        (MediumFault::NoWrite | MediumFault::FailsWrite | MediumFault::LiesInWrite, false) =>
            Response::Lost,
    }
}

/// Returns the number of milliseconds that pass in a wait of `ms`. A slip replaces the time of the wait.
fn time_of(handling: Handled, ms: u32) -> u32
    ensures { result ≡ wait_by_handling handling ms }
{
    match handling {
        Handled::Unseen | Handled::Once | Handled::Again => ms,
        Handled::Late(other) => other,
    }
}

/// Returns the result of a wait or a reset that the host receives: `Restarted` if the power is cut, else `seen`.
fn seen_after(harming: MediumFault, seen: Seen<'static>) -> Seen<'static>
    ensures { result ≡ seen_after_action harming seen.entry }
{
    match harming {
        MediumFault::CutsPower => Seen::Restarted,
        MediumFault::NoWrite | MediumFault::FailsWrite | MediumFault::LiesInWrite => seen,
    }
}

/// Lets `ms` milliseconds pass, or instead the time of a slip, and returns the result that the host receives.
fn wait<M: Medium>(device: &mut Device<M>, ms: u32, delivery: Delivery<'_>) -> Seen<'static>
    ensures hears { (d : Deed) (heard : Heard) → SeenMeaning d result heard
        → WaitDelivered ms (delivery_of_given delivery.entry) device.old device.new heard }
    ensures row { Elapses (wait_by_handling delivery.entry.handling ms) device.old device.new }
{
    device.elapse(time_of(delivery.handling, ms));
    seen_after(delivery.harming, Seen::Waited)
}

/// Lets the time of a slip pass after a reset of the bus.
fn slip<M: Medium>(device: &mut Device<M>, handling: Handled)
    ensures { SlipsTime handling device.old device.new }
{
    match handling {
        Handled::Unseen | Handled::Once | Handled::Again => {}
        Handled::Late(ms) => device.elapse(ms),
    }
}

/// Resets the bus, lets the time of a slip pass, and returns the result that the host receives.
fn reset_bus<M: Medium>(device: &mut Device<M>, delivery: Delivery<'_>) -> Seen<'static>
    ensures hears { (d : Deed) (heard : Heard) → SeenMeaning d result heard
        → BusResetDelivered (delivery_of_given delivery.entry) device.old device.new heard }
    ensures row { SlipsTime delivery.entry.handling (device_after_bus_reset device.old) device.new }
{
    device.usb_reset();
    slip(device, delivery.handling);
    seen_after(delivery.harming, Seen::WasReset)
}

/// Passes the response to a request on to the host.
fn tell(host: &mut Host<'_>, back: Response, out: &[u8])
    ensures { HostTakesResponse host.old back out.now host.new }
{
    match back {
        Response::Answered(Answer::Ack) => host.take(Seen::Ack),
        Response::Answered(Answer::Bytes) => host.take(Seen::Bytes(out)),
        Response::Answered(Answer::Stall) => host.take(Seen::Stall),
        Response::Lost => host.take(Seen::Nothing),
        Response::Restarted => host.take(Seen::Restarted),
    }
}

/// Performs the next action of `host` according to `delivery`. The host must not be done, and the caller must have armed the medium if a
/// write is to be harmed. The bytes that `out` holds before the call are not read. Returns the device's response to a request, even if the
/// host never gets it; for a wait and a reset it returns `Lost`.
fn act<M: Medium>(
    device: &mut Device<M>,
    host: &mut Host<'_>,
    delivery: Delivery<'_>,
    out: &mut ArrayVec<u8, 4096>,
) -> Response
    requires { IsLivePhase host.old.phase }
    ensures { HostActs host.old (delivery_of_given delivery.entry) device.old device.new host.new }
{
    match host.next() {
        Action::Send { setup, body } => {
            let came = reach(
                device,
                &setup,
                body,
                delivery.handling,
                delivery.refusing,
                out,
            );
            let back = come_back(delivery, came);
            tell(host, back, out.as_slice());
            came
        }
        Action::Wait(ms) => {
            let seen = wait(device, ms, delivery);
            host.take(seen);
            Response::Lost
        }
        Action::Reset => {
            let seen = reset_bus(device, delivery);
            host.take(seen);
            Response::Lost
        }
        Action::Done(_) => unreachable!(),
    }
}

/// Arms the medium for an action. In a cut the harmed write and all later ones fail; a failure or a lie harms one write only.
fn arm<M: Faulty>(device: &mut Device<M>, delivery: Delivery<'_>)
    requires { device.old.slots.medium.fuse ≡ Whole }
    ensures { device.new ≡ armed_device device.old (fuse_of delivery.entry.harming (harm_at delivery.entry)) }
{
    match delivery.harming {
        MediumFault::NoWrite => {}
        MediumFault::CutsPower => device.arm(delivery.writes, delivery.tear, true),
        MediumFault::FailsWrite => device.arm(delivery.writes, delivery.tear, false),
        MediumFault::LiesInWrite => device.arm_lie(delivery.writes, delivery.tear),
    }
}

/// Cuts a device's power and restores it. The device restarts from the bytes of its medium, which is disarmed. The restart always succeeds,
/// because the medium keeps an active image through cuts and failed writes.
pub(crate) fn power_cycle<M: Faulty>(device: &mut Device<M>)
    ensures { device.new ≡ device_after_power_cycle device.old }
{
    device.disarm();
    device.restart();
}

/// Ends an action: disarms the medium, and restarts the device if the power was cut.
fn settle<M: Faulty>(device: &mut Device<M>, harming: MediumFault)
    ensures { device.new ≡ device_after_action harming device.old }
{
    match harming {
        MediumFault::CutsPower => power_cycle(device),
        MediumFault::NoWrite | MediumFault::FailsWrite | MediumFault::LiesInWrite =>
            device.disarm(),
    }
}

/// Performs the next action of `host` with `fate`, and stores the device's response in `out`. The host must not be done. If the action
/// closes a download and `refusing` holds an objection, the device's program refuses the image.
pub(crate) fn carry_out<M: Faulty>(
    device: &mut Device<M>,
    host: &mut Host<'_>,
    fate: Fate<'_>,
    refusing: Option<Objection>,
    out: &mut Answered,
)
    requires on { IsLivePhase host.old.phase }
    requires unarmed { device.old.slots.medium.fuse ≡ Whole }
    ensures { HostActsArmed host.old (delivery_of (fate_with_refusal refusing (fate_of fate.entry))) (harm_of_fate fate.entry) device.old device.new
        host.new }
{
    let delivery = delivery_by(fate, refusing);
    arm(device, delivery);
    out.came = act(device, host, delivery, &mut out.bytes);
    settle(device, delivery.harming);
}
