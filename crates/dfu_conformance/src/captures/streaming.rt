//! A capture that is read in pieces. The caller reads it three times: to find its devices, to find a fault, and to make the log. Memory
//! contains only a window of the capture, one line of the log, the pending transfers and the addresses of the devices.

use crate::captures::address::Address;
use crate::captures::devices::Devices;
use crate::captures::fault::CaptureFault;
use crate::captures::joining::event_of;
use crate::captures::numbers::from;
use crate::captures::records::{Form, form_of, head_of};
use crate::captures::telling::CaptureResults;
use crate::captures::transfers::Transfers;
use crate::captures::window::Window;
use std::alloc::Global;
use std::io::{self, ErrorKind, Read};

/// Number of bytes that are read to determine the form of a capture.
const HEAD: usize = 24;

/// Number of bytes after which a record that is still incomplete is refused.
const MAX_RECORD: usize = 1_048_576;

/// Largest number of records that one call processes.
const MAX_RECORDS: u64 = 1_099_511_627_776;

/// A capture that is read in pieces. Reading from the stream returns the log of a device.
#[derive(Drop)]
pub struct CaptureStream<R> {
    // The reader, and a buffer of its bytes that were not processed yet.
    window: Window<R>,
    // Form of the capture, or None until its header has been read.
    form: Option<Form>,
    // Number of packets so far.
    packets: usize,
    // The pending transfers.
    transfers: Transfers,
    // Results from the exchanges so far.
    telling: CaptureResults,
    // Number of bytes of the current text that `read` has already returned.
    given: usize,
}

impl<R> CaptureStream<R> {
    /// Returns the stream of a capture. It has not read from `reader` yet.
    fn new(alloc: Global, reader: R, telling: CaptureResults) -> CaptureStream<R> {
        CaptureStream {
            window: Window::new(alloc, reader),
            form: None,
            packets: 0,
            transfers: Transfers::new(alloc),
            telling,
            given: 0,
        }
    }

    /// Processes the record at the front of the window, if it is complete.
    fn come(&mut self) -> Result<(), CaptureFault> {
        let Some(form) = &mut self.form else {
            return Err(CaptureFault::NotUsbmon);
        };
        let Some(record) = form.record(self.window.rest()) else {
            return Ok(());
        };
        if record.is_counted {
            self.packets = self.packets.saturating_add(1);
        }
        let mut exchange = None;
        if let Some(packet) = record.packet {
            if let Some(event) = event_of(&packet)? {
                exchange = self.transfers.come(self.packets, &event, packet.link)?;
            }
        }
        if record.is_counted {
            self.telling.come(&exchange)?;
        }
        Ok(())
    }
}

impl<R: Read> CaptureStream<R> {
    /// Reads the header. Returns true if the capture is pcap or pcapng.
    fn begin(&mut self) -> io::Result<bool> {
        if self.form.is_some() {
            return Ok(true);
        }
        for _piece in 0..HEAD {
            if self.window.rest().len() >= HEAD || !self.window.read_on()? {
                break;
            }
        }
        self.form = form_of(self.window.rest());
        match &self.form {
            Some(form) => {
                self.window.take(head_of(form));
                Ok(true)
            }
            None => Ok(false),
        }
    }

    /// Reads until the window begins with a complete record, and returns its size. Returns 0 if the capture ends first. The fault is
    /// NoMemory if the record is too long.
    fn size(&mut self) -> io::Result<Result<usize, CaptureFault>> {
        for _piece in 0..MAX_RECORD {
            let Some(mut form) = self.form else {
                return Ok(Ok(0));
            };
            if let Some(record) = form.record(self.window.rest()) {
                return Ok(Ok(record.size));
            }
            if self.window.rest().len() >= MAX_RECORD {
                return Ok(Err(CaptureFault::NoMemory));
            }
            if !self.window.read_on()? {
                return Ok(Ok(0));
            }
        }
        Ok(Ok(0))
    }

    /// Clears the text, and processes the next record of the capture. Returns false if there was none left.
    ///
    /// # Errors
    ///
    /// The error of the reader. A fault of the capture is returned inside Ok.
    fn go_on(&mut self) -> io::Result<Result<bool, CaptureFault>> {
        self.telling.forget_text();
        self.given = 0;
        if !self.begin()? {
            return Ok(Err(CaptureFault::NotUsbmon));
        }
        let size = match self.size()? {
            Ok(size) => size,
            Err(fault) => return Ok(Err(fault)),
        };
        if size == 0 {
            return Ok(match self.telling.end() {
                Ok(()) => Ok(false),
                Err(fault) => Err(fault),
            });
        }
        if let Err(fault) = self.come() {
            return Ok(Err(fault));
        }
        self.window.take(size);
        Ok(Ok(true))
    }

    /// Processes records until there is text to return. Returns false if the capture ends first.
    ///
    /// # Errors
    ///
    /// The error of the reader, or InvalidData for a fault of the capture.
    fn reach_text(&mut self) -> io::Result<bool> {
        for _record in 0..MAX_RECORDS {
            if !from(self.telling.text(), self.given).is_empty() {
                return Ok(true);
            }
            match self.go_on()? {
                Ok(true) => {}
                Ok(false) => return Ok(false),
                Err(_) => return Err(io::Error::from(ErrorKind::InvalidData)),
            }
        }
        Ok(false)
    }

    /// Processes all records of the capture.
    ///
    /// # Errors
    ///
    /// The error of the reader. A fault of the capture is returned inside Ok.
    fn finish(&mut self) -> io::Result<Result<(), CaptureFault>> {
        for _record in 0..MAX_RECORDS {
            match self.go_on()? {
                Ok(true) => {}
                Ok(false) => break,
                Err(fault) => return Ok(Err(fault)),
            }
        }
        Ok(Ok(()))
    }
}

impl<R: Read + Drop> CaptureStream<R> {
    /// Returns a stream of the log of one of `devices`, the one at `only` if `only` is given. It has not read from `reader` yet.
    pub fn of_log(
        alloc: Global,
        reader: R,
        devices: Devices,
        only: Option<Address>,
    ) -> CaptureStream<R> {
        CaptureStream::new(alloc, reader, CaptureResults::of_log(alloc, devices, only))
    }
}

impl<R: Read> Read for CaptureStream<R> {
    /// Reads the log into `buf`. Fails at a fault of the capture, which `checked` would have found in the same bytes.
    fn read(&mut self, buf: &mut [u8]) -> io::Result<usize> {
        if !self.reach_text()? {
            return Ok(0);
        }
        let rest = from(self.telling.text(), self.given);
        let count = rest.len().min(buf.len());
        buf[..count].copy_from_slice(&rest[..count]);
        self.given = self.given.saturating_add(count);
        Ok(count)
    }
}

/// Reads `stream` to its end. Returns the devices that were found, or the fault of the capture.
fn devices_of<R: Read + Drop>(
    mut stream: CaptureStream<R>,
) -> io::Result<Result<Devices, CaptureFault>> {
    match stream.finish()? {
        Ok(()) => {
            let CaptureStream { telling, .. } = stream;
            Ok(Ok(telling.devices()))
        }
        Err(fault) => Ok(Err(fault)),
    }
}

/// Returns the devices that receive DFU requests at `interface` in the capture read from `reader`, or the fault of the capture.
pub fn devices_in<R: Read + Drop>(
    alloc: Global,
    reader: R,
    interface: u8,
) -> io::Result<Result<Devices, CaptureFault>> {
    let telling = CaptureResults::of_devices(alloc, interface);
    devices_of(CaptureStream::new(alloc, reader, telling))
}

/// Checks that the capture read from `reader` has a log for one of `devices`, the one at `only` if `only` is given. Returns `devices`, or
/// the fault of the capture.
pub fn checked<R: Read + Drop>(
    alloc: Global,
    reader: R,
    devices: Devices,
    only: Option<Address>,
) -> io::Result<Result<Devices, CaptureFault>> {
    let telling = CaptureResults::of_log(alloc, devices, only);
    devices_of(CaptureStream::new(alloc, reader, telling))
}
