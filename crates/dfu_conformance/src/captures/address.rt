//! The address of a device.

/// Address of a device: the number of its bus, and its number on this bus. A bus reset changes the second number.
#[derive(Clone, Copy, PartialEq, Eq)]
pub struct Address {
    /// Number of the bus.
    pub bus: u16,
    /// Number of the device on its bus, 0 to 127.
    pub device: u8,
}
