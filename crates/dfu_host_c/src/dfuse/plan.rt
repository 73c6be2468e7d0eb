//! Plan of a session, for C.

ghost use Rattle.std.specs.Prelude.{◌≡◌};
ghost use Rattle.dfu_host_c.specs.dfuse.Sessions.{dfuse_plan_of};

use dfu_formats::memory::Map;
use dfuse_host::{Element, Plan};

/// `struct dfuse_plan`: the plan of a session, except its map and its image. The header explains each number.
#[repr(C)]
#[derive(Drop)]
pub struct DfusePlan {
    /// Address at which the application must start.
    pub start: u32,
    /// Number of calls of `dfuse_take` after which the session is over; 0 counts as 1.
    pub actions: u32,
    /// Number of restarts of the device that the session tolerates.
    pub restarts: u16,
    /// Largest number of bytes of a block.
    pub transfer: u16,
    /// Number of bytes of the image that are written last.
    pub front: u16,
    /// 0 if the device stays in DFU mode, any other number if it must leave.
    pub leaves: u16,
}

impl DfusePlan {
    /// Returns the plan with a map and an image.
    pub(crate) fn over<'f>(&self, map: &'f Map<'f>, image: &'f [Element<'f>]) -> Plan<'f>
        ensures { result ≡ dfuse_plan_of self.now map.entry image.entry }
    {
        Plan {
            map,
            image,
            transfer: self.transfer,
            front: self.front,
            leaves: self.leaves != 0,
            start: self.start,
        }
    }
}
