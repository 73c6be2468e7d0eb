//! Begins sessions, by the offer of a file or by an upload.

ghost use Rattle.std.specs.Prelude.{◌≡◌, ◌↔◌, Some, Err, IfOk, IfErr};
ghost use Rattle.dfu_device.specs.Setting.{Setting};
ghost use Rattle.dfu_host.specs.Host.{host_for_goal};
ghost use Rattle.dfu_sim.specs.Opening.{goal_of_purpose};
ghost use Rattle.dfu_sim.specs.inside.Acting.{SessionOpened};
ghost use Rattle.dfu_sim.specs.Refusing.{first_offer_fault, IsBadOffer};
ghost use Rattle.dfu_sim.specs.LinkInvariant.{bench_of, IsSteadyLink};
ghost use Rattle.dfu_sim.specs.Happening.{Uploads};
ghost use Rattle.dfu_sim.specs.EventResults.{WorldEventAlone};

use crate::fault::{LinkFault, OfferFault};
use dfu_device::Device;
use dfu_host::{Host, HostFault, Limits, Report};
use dfu_slots::Medium;
use dfu_suffix::{File, read};
use dfu_wire::{Functional, Ids};
use std::alloc::Global;

/// Purpose of the offer of a file, for `begin`. The clause `clean` of `run` uses it too.
#[derive(Clone, Copy)]
pub enum Purpose {
    /// The file is installed.
    Install,
    /// The file is installed, and then compared with the device's active image.
    Verify,
}

/// Makes a host for a parsed file and the purpose of its offer, from the device's descriptor and identifiers.
fn open<'f>(
    file: &File<'f>,
    functional: &Functional,
    device_ids: Ids,
    purpose: Purpose,
    limits: Limits,
) -> Result<Host<'f>, HostFault>
    ensures refused { (fault : HostFault) → (result ≡ Err fault) ↔
        (first_offer_fault purpose file.now functional.now device_ids ≡ Some fault) }
    ensures started { IfOk result (λ host. host ≡ host_for_goal functional.now (goal_of_purpose purpose file.now.payload) limits) }
{
    match purpose {
        Purpose::Install => Host::download(file, functional, device_ids, limits),
        Purpose::Verify => Host::download_verified(file, functional, device_ids, limits),
    }
}

/// Makes a host for a file that is offered to a device with the given functional descriptor and identifiers.
///
/// # Errors
///
/// The fault of `dfu_suffix::read`, else that of `Host::download` or `Host::download_verified`.
pub fn begin<'f>(
    functional: &Functional,
    ids: Ids,
    purpose: Purpose,
    file: &'f [u8],
    limits: Limits,
) -> Result<Host<'f>, OfferFault>
    ensures ok { (s : Setting) → functional.now ≡ s.functional → ids ≡ s.ids
        → IfOk result (λ host. SessionOpened s purpose file.now limits host) }
    ensures err { (s : Setting) → functional.now ≡ s.functional → ids ≡ s.ids
        → IfErr result (λ fault. IsBadOffer s purpose file.now fault) }
{
    let file = match read(file) {
        Ok(file) => file,
        Err(fault) => return Err(OfferFault::Suffix(fault)),
    };
    match open(&file, functional, ids, purpose, limits) {
        Ok(host) => Ok(host),
        Err(fault) => Err(OfferFault::Host(fault)),
    }
}

/// Begins an upload, or returns the fault if the upload is refused. The host allocates no memory yet, but keeps the allocator.
pub(crate) fn upload<M: Medium>(
    alloc: Global,
    device: &Device<M>,
    host: &mut Option<Host<'_>>,
    limits: Limits,
) -> Result<Option<Report>, LinkFault>
    requires { IsSteadyLink (bench_of device.now host.old) }
    ensures { WorldEventAlone (bench_of device.now host.old) (Uploads limits) (bench_of device.now host.new) result }
{
    if host.is_some() {
        return Err(LinkFault::HostBusy);
    }
    match Host::upload(alloc, &device.functional(), limits) {
        Ok(begun) => {
            *host = Some(begun);
            Ok(None)
        }
        Err(fault) => Err(LinkFault::BadOffer(OfferFault::Host(fault))),
    }
}
