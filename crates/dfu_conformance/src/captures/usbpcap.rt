//! Packets of USBPcap, the capture driver for Windows (link type 249). Its numbers have the low byte first.

ghost use Rattle.std.specs.Prelude.{◌≡◌, drop, take, length, nat_lt, not, is_none, Some, None, IfSome};
ghost use Rattle.dfu_conformance.specs.captures.Packets.{byte_or_zero, two_byte_number, four_byte_number, first_eight_bytes};
ghost use Rattle.dfu_conformance.specs.captures.Usbpcap.{is_recorded_control, recorded_packet_kind, recorded_setup, recorded_ending, recorded_data_length, recorded_data_index};
ghost use Rattle.std.specs.Prelude.{false};

use crate::captures::address::Address;
use crate::captures::event::{Ending, PacketKind, UsbEvent};
use crate::captures::numbers::{byte_at, eight, four, from, front, two};

/// Smallest number of bytes in the header of a control transfer.
const HEAD: usize = 28;

/// Returns the kind of a packet, from its stage (byte 27) and its direction (bit 0 of byte 16).
fn kind_of(bytes: &[u8]) -> PacketKind
    ensures { result ≡ recorded_packet_kind bytes.now }
{
    let answers = byte_at(bytes, 16) % 2 == 1;
    match byte_at(bytes, 27) {
        0 => PacketKind::Submits,
        1 if answers => PacketKind::Completes,
        1 => PacketKind::Carries,
        2 if answers => PacketKind::Ends,
        3 => PacketKind::Completes,
        _ => PacketKind::Other,
    }
}

/// Returns the result of the packet's transfer, from the status in bytes 10 to 13: 0 for success, C0000004h for a stall.
fn ending_of(bytes: &[u8]) -> Ending
    ensures { result ≡ recorded_ending bytes.now }
{
    match four(from(bytes, 10), false) {
        0 => Ending::Done,
        0xc000_0004 => Ending::Stalled,
        _ => Ending::Failed,
    }
}

/// Returns the setup of a submission, which is the first eight bytes after the header of `head` bytes. Returns None for any other packet.
fn setup_of(bytes: &[u8], head: usize) -> Option<[u8; 8]>
    ensures { result ≡ recorded_setup head bytes.now }
{
    if byte_at(bytes, 27) == 0 {
        Some(eight(bytes, head))
    } else {
        None
    }
}

/// Returns the event of a packet. Returns None if it isn't a control transfer to endpoint 0, if its header is incomplete or has fewer than
/// 28 bytes, or if the number of its device is above 255.
///
/// Bytes 0 and 1 are the length of the header, at least 28; 2 to 9 are the id, 10 to 13 the status, 16 the direction, 17 and 18 the bus, 19
/// and 20 the device, 21 the endpoint, 22 the kind of transfer, 23 to 26 the number of bytes after the header, and 27 the stage. In a
/// submission, the first eight bytes after the header are the setup.
pub fn recorded_event(bytes: &[u8]) -> Option<UsbEvent<'_>>
    ensures none { is_none result ≡ not (is_recorded_control bytes.now) }
    ensures kind { IfSome result (λ e. e.kind ≡ recorded_packet_kind bytes.now) }
    ensures id { IfSome result (λ e. e.id ≡ first_eight_bytes (drop 2 bytes.now)) }
    ensures address { IfSome result (λ e. (e.address.bus ≡ two_byte_number false (drop 17 bytes.now))
        × (e.address.device ≡ byte_or_zero bytes.now 19)) }
    ensures direction { IfSome result (λ e. e.is_in ≡ None) }
    ensures setup { IfSome result (λ e. e.setup ≡ recorded_setup (two_byte_number false bytes.now) bytes.now) }
    ensures ending { IfSome result (λ e. e.ending ≡ recorded_ending bytes.now) }
    ensures moved { IfSome result (λ e. e.moved ≡ None) }
    ensures data { IfSome result (λ e. e.data.now ≡ take (recorded_data_length bytes.now) (drop (recorded_data_index bytes.now) bytes.now)) }
    ensures cut { IfSome result (λ e. e.is_cut ≡ nat_lt (length e.data.now) (recorded_data_length bytes.now)) }
{
    let head = two(bytes, false) as usize;
    if head < HEAD || bytes.len() < head || byte_at(bytes, 22) != 2 {
        return None;
    }
    if byte_at(bytes, 21) % 128 != 0 || byte_at(bytes, 20) != 0 {
        return None;
    }
    let setup = setup_of(bytes, head);
    let before = if setup.is_some() { 8 } else { 0 };
    let length = (four(from(bytes, 23), false) as usize).saturating_sub(before);
    let data = front(from(bytes, head + before), length);
    Some(UsbEvent {
        kind: kind_of(bytes),
        id: eight(bytes, 2),
        address: Address {
            bus: two(from(bytes, 17), false),
            device: byte_at(bytes, 19),
        },
        is_in: None,
        setup,
        ending: ending_of(bytes),
        moved: None,
        data,
        is_cut: data.len() < length,
    })
}
