//! Refusals of calls, for C, as negative numbers in the order of the faults.

ghost use Rattle.std.specs.Prelude.{◌≡◌};
ghost use Rattle.dfu_host_c.specs.Refusals.{refused_number};

use dfu_formats::dfuse::{FileFault, ImageFault};
use dfu_formats::memory::MapFault;
use dfu_host::HostFault;
use dfu_suffix::SuffixFault;
use dfu_wire::WireFault;
use dfuse_host::PlanFault;

/// The record holds no session with this payload and buffer, or with this map and image.
pub(crate) const NO_SESSION: i32 = -41;

/// No result of an action has the number `seen`.
pub(crate) const NO_SEEN: i32 = -42;

/// The buffer is too short for the body.
pub(crate) const NO_ROOM: i32 = -43;

/// The map has no range with this number.
pub(crate) const NO_RANGE: i32 = -44;

/// Reasons to refuse a call.
#[derive(Clone, Copy)]
pub(crate) enum HostRefusal {
    /// The bytes are not a DFU file.
    File(SuffixFault),
    /// The host refuses the session.
    Host(HostFault),
    /// The bytes are not a descriptor.
    Wire(WireFault),
    /// The string is not a memory map.
    Map(MapFault),
    /// The host of DfuSe refuses the plan.
    Plan(PlanFault),
    /// The bytes are not a DfuSe file.
    DfuseFile(FileFault),
    /// A DfuSe file has no image for an alternate setting, or too many elements.
    Image(ImageFault),
}

impl HostRefusal {
    /// Returns the number of the refusal, -1 to -88.
    pub(crate) fn number(self) -> i32
        ensures { result ≡ refused_number self }
    {
        match self {
            HostRefusal::File(fault) => -1 - fault as i32,
            HostRefusal::Host(fault) => -21 - fault as i32,
            HostRefusal::Wire(fault) => -31 - fault as i32,
            HostRefusal::Map(fault) => -51 - fault as i32,
            HostRefusal::Plan(fault) => -61 - fault as i32,
            HostRefusal::DfuseFile(fault) => -71 - fault as i32,
            HostRefusal::Image(fault) => -87 - fault as i32,
        }
    }
}
