//! Performs a list of events on a link in memory.

ghost use Rattle.std.specs.Prelude.{◌≡◌, ℕ, List, IsTrue};
ghost use Rattle.dfu_host.specs.declared.limits.Limits.{Limits};
ghost use Rattle.dfu_sim.specs.declared.offering.Purpose.{Purpose};
ghost use Rattle.dfu_link.specs.Bytes.{link_of_bench};
ghost use Rattle.dfu_link.specs.CleanRun.{resting_link};
ghost use Rattle.dfu_link.specs.Running.{happenings};
ghost use Rattle.dfu_link.specs.CleanInstall.{CanInstall, clean_passes, offer_and_passes};

use dfu_sim::{Event, World, run};
use dfu_slots::Faulty;
use std::alloc::Global;

/// Performs a list of events, and returns true if all of them were performed. If the events offer a file that the device can install, and
/// are then exactly the passes of a session without failures (`clean_passes`), true means success: the file's payload is the active image
/// of the device, the device is in appIDLE, and the host's session is over.
pub fn installs<'f, M: Faulty>(
    world: &mut World<'f, M>,
    alloc: Global,
    events: &[Event<'f, '_>],
) -> bool
    ensures { (purpose : Purpose) (file payload : List ℕ) (limits : Limits) → CanInstall world.old.bench purpose file limits payload
        → happenings events.now ≡ offer_and_passes purpose file limits (clean_passes purpose world.old.bench.device.config payload)
        → IsTrue result → link_of_bench world.new.bench ≡ resting_link payload }
{
    match run(world, alloc, events) {
        Ok(_) => true,
        Err(_) => false,
    }
}
