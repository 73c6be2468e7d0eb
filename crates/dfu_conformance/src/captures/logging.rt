//! The log of a device, from a whole capture.

ghost use Rattle.std.specs.Prelude.{◌≡◌, false, true, Err, OnOk};
ghost use Rattle.dfu_conformance.specs.captures.Packets.{is_capture_front};
ghost use Rattle.dfu_conformance.specs.declared.captures.fault.CaptureFault.TheVariants as CaptureFault;

use crate::captures::address::Address;
use crate::captures::exchange::Exchange;
use crate::captures::fault::CaptureFault;
use crate::captures::following::Followed;
use crate::captures::joining::exchanges_of;
use crate::captures::records::form_of;
use crate::captures::text::Log;
use std::alloc::Global;

/// Returns true if `bytes` begin like a capture: pcap in either byte order, or pcapng. Only the first four bytes are tested.
pub fn is_capture(bytes: &[u8]) -> bool
    ensures { result ≡ is_capture_front bytes.now }
{
    form_of(bytes).is_some()
}

/// Returns true if one of `exchanges` is a DFU request to `interface` of the device at `address`.
fn is_dfu(exchanges: &[Exchange<'_>], interface: u8, address: Address) -> bool {
    for exchange in exchanges {
        if exchange.address == address && exchange.shows_dfu(interface) {
            return true;
        }
    }
    false
}

/// Adds the line of `exchange` to `log`, if the exchange is with the followed device.
fn log_exchange(
    log: &mut Log,
    exchange: &Exchange<'_>,
    followed: &mut Followed,
) -> Result<(), CaptureFault> {
    if followed.shows(exchange)? {
        log.push(exchange);
    }
    log.is_whole()
}

/// Adds the lines of the followed device to `log`. Exchanges with a device that receives no DFU request at `interface` are skipped.
fn log_exchanges(
    log: &mut Log,
    exchanges: &[Exchange<'_>],
    interface: u8,
    followed: &mut Followed,
) -> Result<(), CaptureFault> {
    for exchange in exchanges {
        let address = exchange.given.unwrap_or(exchange.address);
        if is_dfu(exchanges, interface, address) {
            log_exchange(log, exchange, followed)?;
        }
    }
    Ok(())
}

/// Returns the log of `exchanges`, for the device at `only`, or for the only device with DFU at `interface` if `only` is None.
///
/// # Errors
///
/// Those of `log_of`, except NotUsbmon.
fn text_of(
    alloc: Global,
    exchanges: &[Exchange<'_>],
    interface: u8,
    only: Option<Address>,
) -> Result<Vec<u8>, CaptureFault> {
    let mut log = Log::new(alloc);
    let mut followed = Followed::new(only);
    match log_exchanges(&mut log, exchanges, interface, &mut followed) {
        Ok(()) => log.whole(),
        Err(fault) => Err(fault),
    }
}

/// Returns the log of `capture`. Line N is for packet N, counted from 1 as in other programs. It contains a class request and its answer if
/// the packet completes one to the device, `reset` if the packet shows that the bus was reset, and nothing otherwise. The device is the one
/// at `only`, or the only one that receives DFU requests at `interface` if `only` is None.
///
/// # Errors
///
/// NotUsbmon if the bytes are not a capture of usbmon or USBPcap; ManyDevices at the first request to a second device, and CutPacket at the
/// first request with bytes that were not captured; NoDevice if no device is found; NoMemory if an allocation failed.
pub fn log_of(
    alloc: Global,
    capture: &[u8],
    interface: u8,
    only: Option<Address>,
) -> Result<Vec<u8>, CaptureFault>
    ensures none { is_capture_front capture.now ≡ false → result ≡ Err CaptureFault.NotUsbmon }
    ensures capture_front { OnOk result (is_capture_front capture.now ≡ true) }
{
    match exchanges_of(alloc, capture) {
        Ok(exchanges) => text_of(alloc, &exchanges, interface, only),
        Err(fault) => Err(fault),
    }
}
