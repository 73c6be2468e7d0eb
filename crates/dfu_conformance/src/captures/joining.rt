//! Joins submissions with their completions.

ghost use Rattle.std.specs.Prelude.{◌≡◌, ◌≤◌, length, false, true, Err, OnOk};
ghost use Rattle.dfu_conformance.specs.captures.Packets.{is_capture_front};
ghost use Rattle.dfu_conformance.specs.declared.captures.fault.CaptureFault.TheVariants as CaptureFault;

use crate::captures::address::Address;
use crate::captures::event::{Ending, PacketKind, UsbEvent};
use crate::captures::exchange::{Body, Exchange, Seen};
use crate::captures::fault::CaptureFault;
use crate::captures::numbers::from;
use crate::captures::pending::{Pending, PendingTransfers};
use crate::captures::records::{Packet, form_of, head_of};
use crate::captures::usbmon::{self, packet_event};
use crate::captures::usbpcap::recorded_event;
use std::alloc::Global;

/// Link type of USBPcap.
const USBPCAP: u16 = 249;

/// Returns the event of a control transfer in `packet`, or None if the packet contains no such event.
///
/// # Errors
///
/// NotUsbmon if the link type is neither usbmon's nor USBPcap's.
pub(crate) fn event_of<'c>(packet: &Packet<'c>) -> Result<Option<UsbEvent<'c>>, CaptureFault> {
    if packet.link == USBPCAP {
        return Ok(recorded_event(packet.bytes));
    }
    match usbmon::head_of(packet.link) {
        Some(head) => Ok(packet_event(packet.bytes, head, packet.is_big)),
        None => Err(CaptureFault::NotUsbmon),
    }
}

/// Returns the address that the device has after a reset, or None if the request with `setup` doesn't show it. SET_ADDRESS contains the
/// address. USBPcap (`link`) doesn't capture SET_ADDRESS, so SET_CONFIGURATION is used instead, because Windows sends one after each reset.
fn given_by(setup: &[u8; 8], address: Address, link: u16) -> Option<Address> {
    match *setup {
        [0, 5, device, ..] => Some(Address {
            bus: address.bus,
            device,
        }),
        [0, 9, ..] if link == USBPCAP => Some(address),
        _ => None,
    }
}

/// Returns the answer in `event`, which completes a request with `setup`.
fn seen_of<'c>(setup: &[u8; 8], event: &UsbEvent<'c>) -> Seen<'c> {
    let [kind, _, _, _, _, _, low, high] = *setup;
    let wanted = u16::from_le_bytes([low, high]) as u32;
    match event.ending {
        Ending::Done if kind >= 0x80 => Seen::Bytes(event.data),
        Ending::Done if event.moved.is_none() || event.moved == Some(wanted) => Seen::Bytes(&[]),
        Ending::Stalled => Seen::Stall,
        _ => Seen::Nothing,
    }
}

/// The DFU request that reads the image (DFU 1.1, 6.2). Its answer may be empty.
const UPLOAD: u8 = 2;

/// Returns true if `event` may complete the request with `setup`, by its number of bytes. A completion with more bytes than requested
/// belongs to another request, whose submission is missing. If a successful read other than UPLOAD ends with only a status packet, the
/// packet with its bytes is missing.
fn fits(setup: &[u8; 8], event: &UsbEvent<'_>) -> bool {
    let [kind, request, _, _, _, _, low, high] = *setup;
    let wanted = u16::from_le_bytes([low, high]);
    if event.kind == PacketKind::Ends && event.ending == Ending::Done {
        return kind < 0x80 || request == UPLOAD || wanted == 0;
    }
    match event.moved {
        Some(moved) => moved <= wanted as u32,
        None => event.data.len() <= wanted as usize,
    }
}

/// Returns the exchange of the transfer `began`, which `event` completes in packet number `packet`. Returns None if the event completes
/// another transfer, or if the log has no line for such a request.
pub(crate) fn exchange_of<'c>(
    packet: usize,
    began: &Pending<'c>,
    event: &UsbEvent<'c>,
    link: u16,
) -> Option<Exchange<'c>> {
    let [kind, ..] = began.setup;
    let address = began.submission.address;
    let exchange = Exchange {
        packet,
        address,
        setup: began.setup,
        body: began.body,
        seen: seen_of(&began.setup, event),
        given: given_by(&began.setup, address, link),
        is_cut: began.is_cut || kind >= 0x80 && event.ending == Ending::Done && event.is_cut,
    };
    if !fits(&began.setup, event) || !exchange.is_class() && exchange.given.is_none() {
        return None;
    }
    Some(exchange)
}

/// Returns the transfer that `event` submits with `setup`. It contains `body` if the host sends data, and no bytes otherwise.
pub(crate) fn new_pending<'c>(event: &UsbEvent<'c>, setup: [u8; 8], body: Body<'c>) -> Pending<'c> {
    let [kind, ..] = setup;
    Pending {
        submission: *event,
        setup,
        body: if kind < 0x80 { body } else { Body::Count(0) },
        is_cut: kind < 0x80 && event.is_cut,
    }
}

/// The pending transfers of a capture, and the exchanges completed so far.
#[derive(Drop)]
struct Joining<'c> {
    // Number of packets so far.
    count: usize,
    // The pending transfers.
    pending: PendingTransfers<'c>,
    // The exchanges completed so far.
    exchanges: Vec<Exchange<'c>>,
}

impl<'c> Joining<'c> {
    /// Adds the transfer that `event` submits with `setup`. A pending transfer with the same id is removed, because it has ended, even if
    /// its completion is missing.
    fn submit(&mut self, event: &UsbEvent<'c>, setup: [u8; 8]) -> Result<(), CaptureFault> {
        let _over = self.pending.take(event);
        self.pending
            .put(new_pending(event, setup, Body::Bytes(event.data)))
    }

    /// Adds the host's bytes to a transfer that was submitted without them. A transfer that reads from the device can't have any, so it is
    /// dropped.
    fn carry(&mut self, event: &UsbEvent<'c>) -> Result<(), CaptureFault> {
        let Some(mut began) = self.pending.take_same_transfer(event) else {
            return Ok(());
        };
        let [kind, ..] = began.setup;
        if kind >= 0x80 {
            return Ok(());
        }
        began.body = Body::Bytes(event.data);
        began.is_cut = event.is_cut;
        self.pending.put(began)
    }

    /// Completes the transfer of `event`, from a packet of link type `link`.
    fn complete(&mut self, event: &UsbEvent<'c>, link: u16) -> Result<(), CaptureFault> {
        let Some(began) = self.pending.take_same_transfer(event) else {
            return Ok(());
        };
        let Some(exchange) = exchange_of(self.count, &began, event, link) else {
            return Ok(());
        };
        match self.exchanges.push(exchange) {
            Ok(()) => Ok(()),
            Err(_) => Err(CaptureFault::NoMemory),
        }
    }

    /// Processes `event`, from a packet of link type `link`.
    fn come(&mut self, event: &UsbEvent<'c>, link: u16) -> Result<(), CaptureFault> {
        match (event.kind, event.setup) {
            (PacketKind::Submits, Some(setup)) => self.submit(event, setup),
            (PacketKind::Carries, _) => self.carry(event),
            (PacketKind::Completes | PacketKind::Ends, _) => self.complete(event, link),
            _ => Ok(()),
        }
    }
}

/// Returns the class requests to interfaces, and the requests that show the address of a device after a reset, each with its answer, in the
/// order of their completions. A completion without a submission is skipped, for example at the start of a capture or after missing
/// packets. A submission without a completion is skipped too.
///
/// # Errors
///
/// NotUsbmon if the bytes are not a capture, or a packet has another link type; NoMemory if an allocation failed.
pub(crate) fn exchanges_of(alloc: Global, capture: &[u8]) -> Result<Vec<Exchange<'_>>, CaptureFault>
    ensures none { is_capture_front capture.now ≡ false → result ≡ Err CaptureFault.NotUsbmon }
    ensures capture_front { OnOk result (is_capture_front capture.now ≡ true) }
{
    let Some(mut form) = form_of(capture) else {
        return Err(CaptureFault::NotUsbmon);
    };
    let mut joining = Joining {
        count: 0,
        pending: PendingTransfers::new(alloc),
        exchanges: Vec::new(alloc),
    };
    let mut rest = from(capture, head_of(&form));
    while !rest.is_empty() {
        let Some(record) = form.record(rest) else {
            break;
        };
        if record.is_counted {
            joining.count = joining.count.saturating_add(1);
        }
        if let Some(packet) = record.packet {
            if let Some(event) = event_of(&packet)? {
                joining.come(&event, packet.link)?;
            }
        }
        let (_, behind) = rest.split_at(record.size.min(rest.len()));
        rest = behind;
    }
    let Joining { exchanges, .. } = joining;
    Ok(exchanges)
}
