//! Reasons why a capture has no log.

/// Reason why a capture has no log.
#[derive(Clone, Copy)]
pub enum CaptureFault {
    /// The bytes are not a capture, or a packet is neither from usbmon (link type 189 or 220) nor from USBPcap (249).
    NotUsbmon,
    /// Some bytes of the device's transfers were not captured.
    CutPacket,
    /// No device received a DFU request, or the chosen device received none.
    NoDevice,
    /// Several devices received DFU requests, and none was chosen. In a capture that is read in pieces, also more than 4,096 such devices.
    ManyDevices,
    /// An allocation failed. In a capture that is read in pieces, also a record that is incomplete after 1,048,576 bytes.
    NoMemory,
}
