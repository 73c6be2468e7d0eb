//! Content of a packet of a control transfer.

use crate::captures::address::Address;

/// Role of a packet in a control transfer.
#[derive(Clone, Copy)]
pub enum PacketKind {
    /// The packet submits the transfer.
    Submits,
    /// The packet contains the host's bytes, for a transfer that was submitted without them.
    Carries,
    /// The packet completes the transfer. It contains the bytes of the device, if there are any.
    Completes,
    /// The packet contains no bytes. It completes the transfer, unless a packet with bytes of the device already did.
    Ends,
    /// The packet has no role in a transfer.
    Other,
}

/// Result of a transfer.
#[derive(Clone, Copy)]
pub enum Ending {
    /// The transfer succeeded.
    Done,
    /// The device stalled the transfer.
    Stalled,
    /// The transfer failed in another way, or is still pending.
    Failed,
}

/// A packet of a control transfer to endpoint 0.
#[derive(Clone, Copy)]
pub struct UsbEvent<'c> {
    /// Role of the packet in its transfer.
    pub kind: PacketKind,
    /// Id of the transfer. Pending transfers on a bus have different ids, but a later transfer of any device may reuse an id.
    pub id: [u8; 8],
    /// Address of the device.
    pub address: Address,
    /// True if the data of the transfer goes to the host. None if the packets don't show the direction.
    pub is_in: Option<bool>,
    /// Setup packet of the request, if this packet contains it.
    pub setup: Option<[u8; 8]>,
    /// Result of the transfer. It is valid only if this packet completes the transfer.
    pub ending: Ending,
    /// Number of bytes that the transfer moved, if the packet contains it.
    pub moved: Option<u32>,
    /// The captured bytes of the transfer.
    pub data: &'c [u8],
    /// True if some bytes of the transfer were not captured.
    pub is_cut: bool,
}

impl UsbEvent<'_> {
    /// Returns a copy of the event without its `data`.
    pub(crate) fn head(&self) -> UsbEvent<'static> {
        UsbEvent {
            kind: self.kind,
            id: self.id,
            address: self.address,
            is_in: self.is_in,
            setup: self.setup,
            ending: self.ending,
            moved: self.moved,
            data: &[],
            is_cut: self.is_cut,
        }
    }
}
