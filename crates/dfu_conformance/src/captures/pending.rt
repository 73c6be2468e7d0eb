//! Pending transfers, found by their ids. They have been submitted, but not completed.

ghost use Rattle.std.specs.Prelude.{◌≡◌, ◌↔◌, ◌++◌, [], ◌∷◌, IsTrue, IfNone, IfOk, IfSome};
ghost use Rattle.dfu_conformance.specs.captures.Joining.{IsSameTransfer, HasSameId};
ghost use Rattle.dfu_conformance.specs.captures.Pending.{LacksId, LacksSameTransfer, PendingWithout};

use crate::captures::event::UsbEvent;
use crate::captures::exchange::Body;
use crate::captures::fault::CaptureFault;
use std::alloc::Global;

/// A transfer that has been submitted, but not completed.
#[derive(Clone, Copy)]
pub(crate) struct Pending<'c> {
    /// The packet that submitted the transfer.
    pub submission: UsbEvent<'c>,
    /// Setup packet of the request.
    pub setup: [u8; 8],
    /// The bytes that the host sends with the request, or their number.
    pub body: Body<'c>,
    /// True if some bytes that the host sends were not captured.
    pub is_cut: bool,
}

/// Returns true if `one` and `other` have the same id and the same bus.
fn has_same_id(one: &UsbEvent<'_>, other: &UsbEvent<'_>) -> bool
    ensures { IsTrue result ↔ HasSameId one.now other.now }
{
    one.id == other.id && one.address.bus == other.address.bus
}

/// Returns true if `one` and `other` may belong to one transfer: they have the same id, bus, device and direction. Their endpoint is always
/// 0.
fn is_same_transfer(one: &UsbEvent<'_>, other: &UsbEvent<'_>) -> bool
    ensures { IsTrue result ↔ IsSameTransfer one.now other.now }
{
    one.id == other.id && one.address == other.address && one.is_in == other.is_in
}

/// The transfers that have been submitted, but not completed. Two transfers on the same bus have different ids.
#[derive(Drop)]
pub(crate) struct PendingTransfers<'c> {
    // The transfers, in arbitrary order.
    all: Vec<Pending<'c>>,
}

impl<'c> PendingTransfers<'c> {
    /// Returns an empty list.
    pub(crate) fn new(alloc: Global) -> PendingTransfers<'c>
        ensures { result.all.items ≡ [] }
    {
        PendingTransfers {
            all: Vec::new(alloc),
        }
    }

    /// Returns the number of pending transfers.
    pub(crate) fn count(&self) -> usize {
        self.all.len()
    }

    /// Removes the first transfer of the list, if there is one. The last one moves to its index.
    pub(crate) fn forget_first(&mut self) {
        if !self.all.is_empty() {
            let _first = self.all.swap_remove(0);
        }
    }

    /// Adds the transfer `new`. The caller must have removed any transfer with the same id.
    pub(crate) fn put(&mut self, new: Pending<'c>) -> Result<(), CaptureFault>
        ensures { IfOk result (λ done. self.new.all.items ≡ self.old.all.items ++ (new.entry ∷ [])) }
    {
        match self.all.push(new) {
            Ok(()) => Ok(()),
            Err(_) => Err(CaptureFault::NoMemory),
        }
    }

    /// Removes and returns the transfer with the id and bus of `event`, or returns None. The transfer may be with another device. Only one
    /// transfer at a time uses an id, so an event of a new transfer shows that the older one has ended.
    pub(crate) fn take(&mut self, event: &UsbEvent<'c>) -> Option<Pending<'c>>
        ensures some { IfSome result (λ p. HasSameId p.submission event.now × PendingWithout p self.old.all.items self.new.all.items) }
        ensures none { IfNone result (LacksId event.now self.old.all.items × (self.new.all.items ≡ self.old.all.items)) }
    {
        for place in 0..self.all.len() {
            let old = self.all[place];
            if has_same_id(&old.submission, event) {
                let _old = self.all.swap_remove(place);
                return Some(old);
            }
        }
        None
    }

    /// Removes the transfer with the id and bus of `event`. Returns it if its device and direction are those of `event` too. Otherwise,
    /// returns None, because the submission for `event` is not in the capture.
    pub(crate) fn take_same_transfer(&mut self, event: &UsbEvent<'c>) -> Option<Pending<'c>>
        ensures some { IfSome result (λ p. IsSameTransfer p.submission event.now × PendingWithout p self.old.all.items self.new.all.items) }
        ensures none { IfNone result (LacksSameTransfer event.now self.old.all.items self.new.all.items) }
    {
        let old = self.take(event)?;
        if is_same_transfer(&old.submission, event) {
            Some(old)
        } else {
            None
        }
    }
}
