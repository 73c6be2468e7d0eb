//! Captures for `dfu judge`, and its options `--interface` and `--device`.

use crate::numbering::number_of;
use dfu_conformance::captures::{Address, CaptureFault};
use std::io::{self, Read};

/// Largest size of a capture in bytes.
pub(crate) const MAX_CAPTURE: usize = 16_777_216;

/// Returns the interface number in `word`, 0 to 255, or None for any other text.
pub(crate) fn interface_in(word: &str) -> Option<u8> {
    u8::try_from(number_of(word)?).ok()
}

/// Parses `word`, the value of `--device`. Returns `Some(Some(address))` for BUS.DEVICE, where BUS is at most 65,535 and DEVICE at most
/// 255, `Some(None)` for `only`, and `None` for any other text.
pub(crate) fn device_in(word: &str) -> Option<Option<Address>> {
    if word == "only" {
        return Some(None);
    }
    let (bus, device) = word.split_once('.')?;
    let bus = u16::try_from(number_of(bus)?).ok()?;
    let device = u8::try_from(number_of(device)?).ok()?;
    Some(Some(Address { bus, device }))
}

/// Reader that has already read its first four bytes, or all of them if there are fewer.
#[derive(Drop)]
pub(crate) struct PeekedReader<R> {
    head: [u8; 4],
    from: usize,
    to: usize,
    rest: R,
}

impl<R: Read + Drop> PeekedReader<R> {
    /// Reads the first four bytes of `rest`, or all of them if there are fewer. Returns a reader of these bytes and the later ones.
    pub(crate) fn new(mut rest: R) -> io::Result<PeekedReader<R>> {
        let mut head = [0u8; 4];
        let mut to = 0usize;
        for _turn in 0..4 {
            let mut byte = [0u8; 1];
            if rest.read(&mut byte)? == 0 {
                break;
            }
            if let Some(slot) = head.get_mut(to) {
                *slot = byte[0];
                to = to.saturating_add(1);
            }
        }
        Ok(PeekedReader {
            head,
            from: 0,
            to,
            rest,
        })
    }

    /// Returns the first four bytes, or all of them if there are fewer.
    pub(crate) fn head(&self) -> &[u8] {
        self.head.get(..self.to).unwrap_or(&[])
    }
}

impl<R: Read> Read for PeekedReader<R> {
    fn read(&mut self, buf: &mut [u8]) -> io::Result<usize> {
        let ready = self.head.get(self.from..self.to).unwrap_or(&[]);
        if ready.is_empty() {
            return self.rest.read(buf);
        }
        let count = ready.len().min(buf.len());
        buf[..count].copy_from_slice(&ready[..count]);
        self.from = self.from.saturating_add(count);
        Ok(count)
    }
}

/// Returns the line for a capture that is refused because of `fault`.
pub(crate) fn capture_line(fault: CaptureFault) -> &'static str {
    match fault {
        CaptureFault::NotUsbmon => "refused NotUsbmon\n",
        CaptureFault::CutPacket => "refused CutPacket\n",
        CaptureFault::NoDevice => "refused NoDevice\n",
        CaptureFault::ManyDevices => "refused ManyDevices\n",
        CaptureFault::NoMemory => "refused NoMemory\n",
    }
}

/// Returns the reason for refusing a capture because of `fault`, or None for NoMemory.
pub(crate) fn capture_why(fault: CaptureFault) -> Option<&'static str> {
    match fault {
        CaptureFault::NotUsbmon => Some(
            "its packets aren't those of usbmon (link type 189 or 220) or USBPcap (249)",
        ),
        CaptureFault::CutPacket => Some(
            "a transfer of the device was captured in part; capture with a longer snapshot length",
        ),
        CaptureFault::NoDevice => Some("no device gets a request of DFU at this interface"),
        CaptureFault::ManyDevices => Some(
            "more than one device gets requests of DFU; name one with --device BUS.DEVICE",
        ),
        CaptureFault::NoMemory => None,
    }
}
