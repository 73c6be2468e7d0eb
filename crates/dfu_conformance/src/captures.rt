//! Readers of USB captures: pcap and pcapng files with packets of Linux's usbmon, or of USBPcap on Windows.
//!
//! `log_of` makes the log of a device from a whole capture, and `CaptureStream` from a capture that is read in pieces. For any bytes, the
//! result is a log or a fault.

mod address;
mod devices;
mod event;
mod exchange;
mod fault;
mod following;
mod joining;
mod logging;
mod numbers;
mod pending;
mod records;
mod streaming;
mod telling;
mod text;
mod transfers;
mod usbmon;
mod usbpcap;
mod window;

pub use address::Address;
pub use devices::Devices;
pub use event::{Ending, PacketKind, UsbEvent};
pub use fault::CaptureFault;
pub use logging::{is_capture, log_of};
pub use streaming::{CaptureStream, checked, devices_in};
pub use usbmon::packet_event;
pub use usbpcap::recorded_event;
