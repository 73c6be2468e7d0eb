//! A request and its answer.

use crate::captures::address::Address;

/// The answer of a device, as far as the capture contains it.
#[derive(Clone, Copy)]
pub(crate) enum Seen<'c> {
    /// The device stalled the request.
    Stall,
    /// The capture contains no answer.
    Nothing,
    /// Bytes of the answer. An acknowledgement has none.
    Bytes(&'c [u8]),
}

/// The bytes that the host sends with a request, or only their number.
#[derive(Clone, Copy)]
pub(crate) enum Body<'c> {
    /// The bytes themselves.
    Bytes(&'c [u8]),
    /// Number of the bytes. The bytes themselves aren't kept, because a judge needs only their number.
    Count(usize),
}

/// A request and its answer.
#[derive(Clone, Copy)]
pub(crate) struct Exchange<'c> {
    /// Number of the packet that completed the request, from 1.
    pub packet: usize,
    /// Address of the device.
    pub address: Address,
    /// Setup packet of the request.
    pub setup: [u8; 8],
    /// The bytes that the host sent, or their number.
    pub body: Body<'c>,
    /// The answer, as far as the capture contains it.
    pub seen: Seen<'c>,
    /// Address of the device after a bus reset, if the request shows it; None for any other request.
    pub given: Option<Address>,
    /// True if some bytes of the request or its answer were not captured.
    pub is_cut: bool,
}

impl Exchange<'_> {
    /// Returns true if the request is a class request to an interface.
    pub(crate) fn is_class(&self) -> bool {
        let [kind, ..] = self.setup;
        kind == 0x21 || kind == 0xa1
    }

    /// Returns true if the request shows that its device has DFU at `interface`: DETACH, GETSTATUS of 6 bytes, or GETSTATE of 1 byte.
    pub(crate) fn shows_dfu(&self, interface: u8) -> bool {
        let [kind, request, _, _, low, high, length, length_high] = self.setup;
        low == interface
            && high == 0
            && length_high == 0
            && matches!(
                (kind, request, length),
                (0x21, 0, 0) | (0xa1, 3, 6) | (0xa1, 5, 1)
            )
    }
}
