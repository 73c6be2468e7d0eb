//! A device and a host on a link.

ghost use Rattle.std.specs.Prelude.{◌≡◌, [], true, false, IfOk, IfErr, IfNone};
ghost use Rattle.dfu_slots.specs.Medium.Fuse.{Whole};
ghost use Rattle.dfu_sim.specs.LinkView.{NoLiveSession, IsLive, BenchMatchesFlash};
ghost use Rattle.dfu_sim.specs.Bytes.{armed_device};
ghost use Rattle.dfu_sim.specs.Happening.{happening};
ghost use Rattle.dfu_sim.specs.EventResults.{WorldEventResult};
ghost use Rattle.dfu_sim.specs.Following.{AllMachinesFollow};
ghost use Rattle.dfu_sim.specs.Headline.{StepPreservesHeadline};
ghost use Rattle.dfu_sim.specs.Sure.{EventFollowsTableIfPlayed};
ghost use Rattle.dfu_sim.specs.UploadResults.{UploadOrUnchanged};

use crate::delivery::{Answered, Response};
use crate::event::Event;
use crate::fault::LinkFault;
use crate::play::apply_event;
use arrayvec::ArrayVec;
use dfu_device::{Answer, Device};
use dfu_host::{Action, Host, Phase, Report};
use dfu_slots::Faulty;
use std::alloc::Global;
use std::marker::Model;

/// A device, the host of the live session, if there is one, and the bytes of the last upload.
///
/// Contracts describe it as a `WorldView`. Only `step` allocates memory, and only in an upload.
#[derive(Drop)]
pub struct World<'f, M: Faulty> {
    alloc: Global,
    device: Device<M>,
    host: Option<Host<'f>>,
    // The host of the last session that reported Uploaded, if there was one.
    gave: Option<Host<'f>>,
    out: Answered,
}

impl<'f, M: Faulty> Model for World<'f, M> {
    ghost use Rattle.dfu_sim.specs.LinkView.{WorldView};
    ghost use Rattle.dfu_sim.specs.LinkInvariant.{bench_of, link_state, LinkInvariant};

    ghost Value = { WorldView };

    ghost view = { λ w. link_state w.device w.host w.gave };

    ghost invariant = { λ w. LinkInvariant (bench_of w.device w.host) };
}

impl<'f, M: Faulty> World<'f, M> {
    /// Makes a link to a device, with no session and nothing uploaded. The device's medium is disarmed, and the allocator is kept for
    /// uploads.
    pub fn new(alloc: Global, device: Device<M>) -> World<'f, M>
        ensures link { result ≡ record { bench = record { device = armed_device device Whole; session = NoLiveSession }; up = [] } }
        ensures active { BenchMatchesFlash result.bench }
    {
        let mut device = device;
        device.disarm();
        // The proof of `active` needs the clause `image` of this call; its result is not used.
        let _ = device.slots().capacity();
        World {
            alloc,
            device,
            host: None,
            gave: None,
            out: Answered {
                came: Response::Lost,
                bytes: ArrayVec::new(),
            },
        }
    }

    /// Applies an event. If the event ends a session, returns the report of that session. Only the parts of an upload take memory; if none
    /// is left, the session ends with the report NoMemory.
    ///
    /// By `headline`, if the headline holds before the event, it holds after it with the returned report: the active image is the factory
    /// image or the payload of a file offered so far. If the report is Installed or Verified, the device is in appIDLE, and the payload of
    /// the session that reports is the active image.
    ///
    /// # Errors
    ///
    /// A refused event changes nothing. The faults, in the order in which they are checked:
    ///
    /// 1. `HostBusy`: an offer or an upload while a session is live.
    /// 2. `NoHost`: an abort or an action of any fate (`Go`, `GoRefused`) while no session is live.
    /// 3. `BadOffer`: for an offer, the fault of `dfu_suffix::read`, else that of `Host::download` or
    ///    `Host::download_verified`; for an upload, that of `Host::upload`.
    pub fn step(&mut self, event: Event<'f, '_>) -> Result<Option<Report>, LinkFault>
        ensures play { WorldEventResult self.old (happening event.entry) self.new result }
        ensures legal { AllMachinesFollow self.old (happening event.entry) self.new result }
        ensures headline { StepPreservesHeadline self.old event.entry self.new result }
        ensures sure { EventFollowsTableIfPlayed self.old.bench (happening event.entry) self.new.bench result }
        ensures gives { UploadOrUnchanged self.old self.new result }
        ensures active { BenchMatchesFlash self.new.bench }
    {
        let told = apply_event(
            self.alloc,
            &mut self.device,
            &mut self.host,
            &mut self.gave,
            event,
            &mut self.out,
        );
        // The proof of `active` needs the clause `image` of this call; its result is not used.
        let _ = self.device.slots().capacity();
        told
    }

    /// Returns the phase of the live host and its next action, or None if no session is live.
    pub fn asks(&self) -> Option<(Phase, Action<'f>)>
        ensures { IfNone result (self.now.bench.session ≡ NoLiveSession) }
    {
        match &self.host {
            None => None,
            Some(host) => Some((host.phase(), host.next())),
        }
    }

    /// Returns the answer of the device to the host's last action, with its bytes, even if the answer was lost on its way to the host.
    /// Returns None if that action was no request, if the request did not reach the device, or if there was no action yet. No contract
    /// covers the result, because only traces use it.
    pub fn answered(&self) -> Option<(Answer, &[u8])> {
        match self.out.came {
            Response::Answered(answer) => Some((answer, self.out.bytes.as_slice())),
            Response::Lost | Response::Restarted => None,
        }
    }

    /// Returns the bytes of the last session that reported Uploaded; by `gives` of `step` they were the device's active image at that time.
    /// Before the first such session the slice is empty.
    pub fn uploaded(&self) -> &[u8]
        ensures { result.now ≡ self.now.up }
    {
        match &self.gave {
            None => &[],
            Some(host) => host.uploaded(),
        }
    }

    /// Returns the device in its state after all events so far.
    pub fn device(&self) -> &Device<M>
        ensures device { result.now ≡ self.now.bench.device }
        ensures active { BenchMatchesFlash self.now.bench }
    {
        &self.device
    }

    /// Returns the device, and drops the uploaded bytes. While a session is live, returns the unchanged link as the error.
    pub fn into_device(self) -> Result<Device<M>, World<'f, M>>
        ensures ok { IfOk result (λ device. (self.entry.bench.session ≡ NoLiveSession) × (device ≡ self.entry.bench.device)) }
        ensures err { IfErr result (λ world. IsLive self.entry.bench.session × (world ≡ self.entry)) }
        // The medium of the device isn't armed.
        ensures unarmed { IfOk result (λ device. device.slots.medium.fuse ≡ Whole) }
    {
        match &self.host {
            None => Ok(self.release()),
            Some(_) => Err(self),
        }
    }

    /// Returns true if a session is live.
    pub fn is_live(&self) -> bool
        ensures live { result ≡ true → IsLive self.now.bench.session }
        ensures none { result ≡ false → self.now.bench.session ≡ NoLiveSession }
    {
        match &self.host {
            None => false,
            Some(_) => true,
        }
    }

    /// Returns the device, even while a session is live. That session ends without a report, and the bytes of an upload are dropped. This
    /// is a separate function, because inside `into_device` the compiler would move the device field by field, in half a megabyte of code.
    #[inline(never)]
    pub fn release(self) -> Device<M>
        ensures device { result ≡ self.entry.bench.device }
        ensures unarmed { result.slots.medium.fuse ≡ Whole }
    {
        let World {
            alloc: _,
            device,
            host: _,
            gave: _,
            out: _,
        } = self;
        device
    }
}
