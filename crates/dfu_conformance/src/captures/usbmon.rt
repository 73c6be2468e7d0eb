//! Packets of Linux's usbmon (link types 189 and 220).

ghost use Rattle.std.specs.Prelude.{◌≡◌, drop, take, length, nat_le, nat_lt, not, is_none, Some, IfSome};
ghost use Rattle.dfu_conformance.specs.captures.Packets.{byte_or_zero, two_byte_number, four_byte_number, first_eight_bytes, header_length_of, is_control, packet_kind_of, setup_in_packet, transfer_ending_of};

use crate::captures::address::Address;
use crate::captures::event::{Ending, PacketKind, UsbEvent};
use crate::captures::numbers::{byte_at, eight, four, from, front, two};

/// Returns the result of the packet's transfer, from the status in bytes 28 to 31: 0 for success, -32 for a stall.
fn ending_of(bytes: &[u8], is_big: bool) -> Ending
    ensures { result ≡ transfer_ending_of is_big bytes.now }
{
    match four(from(bytes, 28), is_big) {
        0 => Ending::Done,
        0xffff_ffe0 => Ending::Stalled,
        _ => Ending::Failed,
    }
}

/// Returns the number of bytes before the data, or None if `link` is not a link type of usbmon.
pub(crate) fn head_of(link: u16) -> Option<usize>
    ensures { result ≡ header_length_of link }
{
    match link {
        189 => Some(48),
        220 => Some(64),
        _ => None,
    }
}

/// Returns the kind of a packet, from byte 8: 'S' for a submission and 'C' for a completion.
fn kind_of(bytes: &[u8]) -> PacketKind
    ensures { result ≡ packet_kind_of bytes.now }
{
    match byte_at(bytes, 8) {
        b'S' => PacketKind::Submits,
        b'C' => PacketKind::Completes,
        _ => PacketKind::Other,
    }
}

/// Returns the setup of a packet, or None if byte 14 shows that it has none.
fn setup_of(bytes: &[u8]) -> Option<[u8; 8]>
    ensures { result ≡ setup_in_packet bytes.now }
{
    if byte_at(bytes, 14) == 0 {
        Some(eight(bytes, 40))
    } else {
        None
    }
}

/// Returns the event of a packet whose data begins after `head` bytes, or None if it isn't a control transfer to endpoint 0, or its header
/// is incomplete. Numbers have the high byte first if `is_big`. Bytes 0 to 7 are the id, bit 7 of byte 10 the direction, byte 11 the
/// device, 12 and 13 the bus, 28 to 31 the status, 32 to 35 the length, and 36 to 39 the number of data bytes after the header.
pub fn packet_event(bytes: &[u8], head: usize, is_big: bool) -> Option<UsbEvent<'_>>
    ensures none { is_none result ≡ not (is_control head bytes.now) }
    ensures kind { IfSome result (λ e. e.kind ≡ packet_kind_of bytes.now) }
    ensures id { IfSome result (λ e. e.id ≡ first_eight_bytes (drop 0 bytes.now)) }
    ensures address { IfSome result (λ e. (e.address.bus ≡ two_byte_number is_big (drop 12 bytes.now))
        × (e.address.device ≡ byte_or_zero bytes.now 11)) }
    ensures direction { IfSome result (λ e. e.is_in ≡ Some (nat_le 128 (byte_or_zero bytes.now 10))) }
    ensures setup { IfSome result (λ e. e.setup ≡ setup_in_packet bytes.now) }
    ensures ending { IfSome result (λ e. e.ending ≡ transfer_ending_of is_big bytes.now) }
    ensures moved { IfSome result (λ e. e.moved ≡ Some (four_byte_number is_big (drop 32 bytes.now))) }
    ensures data { IfSome result (λ e. e.data.now ≡ take (four_byte_number is_big (drop 36 bytes.now)) (drop head bytes.now)) }
    ensures cut { IfSome result (λ e. e.is_cut ≡ nat_lt (length e.data.now) (four_byte_number is_big (drop 32 bytes.now))) }
{
    if bytes.len() < head || byte_at(bytes, 9) != 2 || byte_at(bytes, 10) % 128 != 0 {
        return None;
    }
    let length = four(from(bytes, 32), is_big);
    let data = front(from(bytes, head), four(from(bytes, 36), is_big) as usize);
    Some(UsbEvent {
        kind: kind_of(bytes),
        id: eight(bytes, 0),
        address: Address {
            bus: two(from(bytes, 12), is_big),
            device: byte_at(bytes, 11),
        },
        is_in: Some(byte_at(bytes, 10) >= 128),
        setup: setup_of(bytes),
        ending: ending_of(bytes, is_big),
        moved: Some(length),
        data,
        is_cut: data.len() < length as usize,
    })
}
