//! Results from a capture that is read in pieces: the devices that receive DFU requests, or the log of one device.

use crate::captures::address::Address;
use crate::captures::devices::Devices;
use crate::captures::exchange::Exchange;
use crate::captures::fault::CaptureFault;
use crate::captures::following::Followed;
use crate::captures::text::Log;
use std::alloc::Global;

/// The devices, or the log of one device, from the exchanges so far.
#[derive(Drop)]
pub(crate) struct CaptureResults {
    // Interface for which DFU devices are searched, or None if a log is made.
    interface: Option<u8>,
    // Devices found so far. For a log, the devices whose exchanges the log may contain.
    devices: Devices,
    // The device whose requests the log contains.
    followed: Followed,
    // Lines since the last call of `forget_text`.
    log: Log,
    // True if the log has a line of the device.
    has_line: bool,
}

impl CaptureResults {
    /// Returns an empty result, for a search for the devices that receive DFU requests at `interface`.
    pub(crate) fn of_devices(alloc: Global, interface: u8) -> CaptureResults {
        CaptureResults {
            interface: Some(interface),
            devices: Devices::new(alloc),
            followed: Followed::new(None),
            log: Log::new(alloc),
            has_line: false,
        }
    }

    /// Returns an empty result, for the log of one of `devices`, the one at `only` if `only` is given.
    pub(crate) fn of_log(alloc: Global, devices: Devices, only: Option<Address>) -> CaptureResults {
        CaptureResults {
            interface: None,
            devices,
            followed: Followed::new(only),
            log: Log::new(alloc),
            has_line: false,
        }
    }

    /// Returns the devices found so far.
    pub(crate) fn devices(self) -> Devices {
        let CaptureResults { devices, .. } = self;
        devices
    }

    /// Returns true if `exchange` has a line in the log. In a search for devices, adds the device of a DFU request to the set, and returns
    /// false.
    fn shows(&mut self, exchange: &Exchange<'_>) -> Result<bool, CaptureFault> {
        if let Some(interface) = self.interface {
            if exchange.shows_dfu(interface) {
                self.devices.add(exchange.address)?;
            }
            return Ok(false);
        }
        if !self.devices.has(exchange.given.unwrap_or(exchange.address)) {
            return Ok(false);
        }
        self.followed.shows(exchange)
    }

    /// Adds the line of the next packet, which may complete an exchange.
    pub(crate) fn come(&mut self, exchange: &Option<Exchange<'_>>) -> Result<(), CaptureFault> {
        match exchange {
            Some(exchange) if self.shows(exchange)? => {
                self.has_line = true;
                self.log.push_line(exchange);
            }
            _ => self.log.push_empty(),
        }
        self.log.is_whole()
    }

    /// Returns the text since the last call of `forget_text`.
    pub(crate) fn text(&self) -> &[u8] {
        self.log.bytes()
    }

    /// Removes the text that `text` returns.
    pub(crate) fn forget_text(&mut self) {
        self.log.clear();
    }

    /// Checks the result at the end of the capture. The fault is NoDevice if a log has no line of a device.
    pub(crate) fn end(&self) -> Result<(), CaptureFault> {
        if self.interface.is_none() && !self.has_line {
            Err(CaptureFault::NoDevice)
        } else {
            Ok(())
        }
    }
}
