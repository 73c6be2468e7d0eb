//! The records of a capture: pcap, or pcapng as Wireshark writes it.

ghost use Rattle.std.specs.Prelude.{◌≡◌, ◌<◌, ◌≤◌, ◌+◌, drop, take, is_some, true, IfSome, IsNone, length};
ghost use Rattle.dfu_conformance.specs.captures.Packets.{is_capture_front, captured_byte_count};

use crate::captures::numbers::{byte_at, four, from, two};

/// Number of interfaces of a pcapng section whose link types are kept.
const LINKS: usize = 16;

/// Form of a capture: pcap or pcapng, its byte order, and the link types of its interfaces, at most 16.
#[derive(Clone, Copy)]
pub(crate) struct Form {
    // True for pcapng.
    is_ng: bool,
    // True if numbers have the high byte first.
    is_big: bool,
    // Link types of the interfaces, by interface number.
    links: [u16; LINKS],
    // Number of interfaces of the current section so far.
    count: usize,
}

/// A packet: its link type, the byte order of its numbers, and its bytes.
#[derive(Clone, Copy)]
pub(crate) struct Packet<'c> {
    /// Link type of the packet.
    pub link: u16,
    /// True if numbers in the packet have the high byte first.
    pub is_big: bool,
    /// The bytes of the packet.
    pub bytes: &'c [u8],
}

/// A record of a capture, and the packet that it contains, if any.
#[derive(Clone, Copy)]
pub(crate) struct Record<'c> {
    /// True if other programs count the record as a packet.
    pub is_counted: bool,
    /// The packet, if the record contains a complete one.
    pub packet: Option<Packet<'c>>,
    /// Number of bytes in the record.
    pub size: usize,
}

/// Returns the form of a capture that begins with `bytes`, or None if they don't begin like a capture.
pub(crate) fn form_of(bytes: &[u8]) -> Option<Form>
    ensures { is_some result ≡ is_capture_front bytes.now }
{
    let (is_ng, is_big) = match four(bytes, true) {
        0xd4c3_b2a1 | 0x4d3c_b2a1 => (false, false),
        0xa1b2_c3d4 | 0xa1b2_3c4d => (false, true),
        0x0a0d_0d0a => (true, byte_at(bytes, 8) == 0x1a),
        _ => return None,
    };
    let mut form = Form {
        is_ng,
        is_big,
        links: [0; LINKS],
        count: 0,
    };
    if !is_ng {
        form.links[0] = (four(from(bytes, 20), is_big) % 65_536) as u16;
        form.count = 1;
    }
    Some(form)
}

/// Returns the number of bytes before the first record of a capture of `form`.
pub(crate) fn head_of(form: &Form) -> usize {
    if form.is_ng { 0 } else { 24 }
}

/// Returns the `count` bytes from index `at` on, or None if there are fewer.
fn part(bytes: &[u8], at: usize, count: usize) -> Option<&[u8]>
    ensures some { IfSome result (λ p. (p.now ≡ take count (drop at bytes.now)) × (at + count ≤ length bytes.now)) }
    ensures none { IsNone result → length bytes.now < at + count }
{
    let end = at.checked_add(count)?;
    bytes.get(at..end)
}

impl Form {
    /// Returns the link type that is kept for interface number `interface`, or 0 if none is kept.
    fn link(&self, interface: u32) -> u16 {
        match self.links.get(interface as usize) {
            Some(link) => *link,
            None => 0,
        }
    }

    /// Returns the pcap record at the front of `bytes`, or None if the record is incomplete.
    fn plain_record<'c>(&self, bytes: &'c [u8]) -> Option<Record<'c>>
        ensures size { IfSome result (λ r. (r.size ≡ 16 + captured_byte_count self.now.is_big bytes.now) × (r.size ≤ length bytes.now)) }
        ensures packet { IfSome result (λ r. IfSome r.packet (λ p. (p.is_big ≡ self.now.is_big)
            × (p.bytes.now ≡ take (captured_byte_count self.now.is_big bytes.now) (drop 16 bytes.now)))) }
        ensures counted { IfSome result (λ r. (r.is_counted ≡ true) × (is_some r.packet ≡ true)) }
        ensures none { IsNone result → length bytes.now < 16 + captured_byte_count self.now.is_big bytes.now }
    {
        let count = four(from(bytes, 8), self.is_big) as usize;
        let packet = Packet {
            link: self.link(0),
            is_big: self.is_big,
            bytes: part(bytes, 16, count)?,
        };
        Some(Record {
            is_counted: true,
            packet: Some(packet),
            size: count.checked_add(16)?,
        })
    }

    /// Returns the packet in the enhanced packet block `block`, or None if the block is too short for it.
    fn block_packet<'c>(&self, block: &'c [u8]) -> Option<Packet<'c>> {
        let count = four(from(block, 20), self.is_big) as usize;
        Some(Packet {
            link: self.link(four(from(block, 8), self.is_big)),
            is_big: self.is_big,
            bytes: part(block, 28, count)?,
        })
    }

    /// Adds `link`, the link type of the next interface, unless there are already 16.
    fn add_link(&mut self, link: u16) {
        if let Some(slot) = self.links.get_mut(self.count) {
            *slot = link;
            self.count = self.count.saturating_add(1);
        }
    }

    /// Reads the pcapng block at the front of `bytes`. Returns None if it is incomplete, or if its size is less than 12. A section header
    /// sets the byte order, and the interfaces after it are numbered from 0 again.
    fn block<'c>(&mut self, bytes: &'c [u8]) -> Option<Record<'c>>
        ensures { IfSome result (λ r. 0 < r.size) }
    {
        let is_section = four(bytes, false) == 0x0a0d_0d0a;
        if is_section {
            self.is_big = byte_at(bytes, 8) == 0x1a;
            self.count = 0;
        }
        let size = four(from(bytes, 4), self.is_big) as usize;
        if size < 12 {
            return None;
        }
        let block = part(bytes, 0, size)?;
        let kind = four(block, self.is_big);
        let packet = match kind {
            1 => {
                self.add_link(two(from(block, 8), self.is_big));
                None
            }
            6 => self.block_packet(block),
            _ => None,
        };
        Some(Record {
            is_counted: matches!(kind, 2 | 3 | 6),
            packet,
            size,
        })
    }

    /// Reads the record at the front of `bytes`. Returns None if it is incomplete, or if it is a block with a size of less than 12.
    pub(crate) fn record<'c>(&mut self, bytes: &'c [u8]) -> Option<Record<'c>>
        ensures { IfSome result (λ r. 0 < r.size) }
    {
        if self.is_ng {
            self.block(bytes)
        } else {
            self.plain_record(bytes)
        }
    }
}
