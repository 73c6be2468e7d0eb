//! Joins submissions with their completions. Only the number of the host's bytes is kept in between.

use crate::captures::event::{PacketKind, UsbEvent};
use crate::captures::exchange::{Body, Exchange};
use crate::captures::fault::CaptureFault;
use crate::captures::joining::{exchange_of, new_pending};
use crate::captures::pending::{Pending, PendingTransfers};
use std::alloc::Global;

/// Largest number of transfers that are pending at once. Endpoint 0 of a device has one at a time, so there are more only if completions
/// are missing. In that case the first transfer in the list is dropped.
const MAX_PENDING: usize = 1024;

/// The pending transfers of a capture. Each contains only the number of bytes that the host sends.
#[derive(Drop)]
pub(crate) struct Transfers {
    // The transfers, with the number of bytes that the host sends.
    pending: PendingTransfers<'static>,
}

impl Transfers {
    /// Returns an empty list of pending transfers.
    pub(crate) fn new(alloc: Global) -> Transfers {
        Transfers {
            pending: PendingTransfers::new(alloc),
        }
    }

    /// Adds the transfer `new`, and drops the first one if there are already `MAX_PENDING`.
    fn put(&mut self, new: Pending<'static>) -> Result<(), CaptureFault> {
        if self.pending.count() >= MAX_PENDING {
            self.pending.forget_first();
        }
        self.pending.put(new)
    }

    /// Adds the transfer that `head` submits with `setup` and `count` bytes. A pending transfer with the same id is removed, because it has
    /// ended, even if its completion is missing.
    fn submit(
        &mut self,
        head: &UsbEvent<'static>,
        setup: [u8; 8],
        count: usize,
    ) -> Result<(), CaptureFault> {
        let _over = self.pending.take(head);
        self.put(new_pending(head, setup, Body::Count(count)))
    }

    /// Adds `count`, the number of the host's bytes, to a transfer that was submitted without them. A transfer that reads from the device
    /// can't have any, so it is dropped.
    fn carry(&mut self, head: &UsbEvent<'static>, count: usize) -> Result<(), CaptureFault> {
        let Some(mut began) = self.pending.take_same_transfer(head) else {
            return Ok(());
        };
        let [kind, ..] = began.setup;
        if kind >= 0x80 {
            return Ok(());
        }
        began.body = Body::Count(count);
        began.is_cut = head.is_cut;
        self.put(began)
    }

    /// Processes `event`, in packet number `packet` of link type `link`. Returns the exchange if the event completes one, or None.
    pub(crate) fn come<'e>(
        &mut self,
        packet: usize,
        event: &UsbEvent<'e>,
        link: u16,
    ) -> Result<Option<Exchange<'e>>, CaptureFault> {
        let head = event.head();
        match (event.kind, event.setup) {
            (PacketKind::Submits, Some(setup)) => {
                self.submit(&head, setup, event.data.len())?;
                Ok(None)
            }
            (PacketKind::Carries, _) => {
                self.carry(&head, event.data.len())?;
                Ok(None)
            }
            (PacketKind::Completes | PacketKind::Ends, _) => {
                let Some(began) = self.pending.take_same_transfer(&head) else {
                    return Ok(None);
                };
                Ok(exchange_of(packet, &began, event, link))
            }
            _ => Ok(None),
        }
    }
}
