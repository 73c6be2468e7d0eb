//! Record of a device or of a format, which a program in C keeps between two calls.
ghost use Rattle.std.specs.Prelude.{◌≡◌};
ghost use Rattle.dfu_core.specs.Mode.{blank_record};

use crate::config::VERSION;

/// Record of a device that lets its program write the flash: `struct dfu_record`, as the last call left it.
///
/// | `mode` | State | `first` | `second` | `number` |
/// |---|---|---|---|---|
/// | 0 | appIDLE | | | |
/// | 1 | appDETACH | its timer | milliseconds in the state | |
/// | 2 | dfuIDLE | | | |
/// | 3 | dfuDNLOAD-SYNC, block not written | bytes written | | next block number |
/// | 4 | dfuDNLOAD-SYNC, block written | bytes written | | next block number |
/// | 5 | dfuDNBUSY | bytes written | milliseconds in the state | next block number |
/// | 6 | dfuDNLOAD-IDLE | bytes written | | next block number |
/// | 7 | dfuMANIFEST-SYNC, not complete | bytes written | | |
/// | 8 | dfuMANIFEST-SYNC, complete | | | |
/// | 9 | dfuMANIFEST | bytes written | milliseconds in the state | |
/// | 10 | dfuMANIFEST-WAIT-RESET | | | |
/// | 11 | dfuUPLOAD-IDLE | bytes sent | | next block number |
/// | 12 | dfuERROR | | | status code |
#[repr(C)]
#[derive(Drop)]
pub struct DfuRecord {
    /// Version of the library that wrote the record.
    pub version: u32,
    /// Number of the mode: it determines the state, and the meaning of the next fields.
    pub mode: u32,
    /// Number of bytes written or sent, or the timer of appDETACH in milliseconds.
    pub first: u32,
    /// Milliseconds that passed in the state.
    pub second: u32,
    /// Number of bytes put into the spare slot.
    pub put_end: u32,
    /// Slot that was found to be active: 0 is the first, 1 the second.
    pub slot: u32,
    /// Number of the next block, or the status code.
    pub number: u16,
    /// Length of the block, 0 to 4,096 bytes. In modes 3 and 5 the block is at the front of the block's memory and not written yet.
    pub length: u16,
    /// The 16 bytes of the active slot's header, as they were in the flash.
    pub header: [u8; 16],
    /// Work that is pending: 0 for none, 1 for the writes of a block, 2 for those that make an image active, 3 for those of a format.
    pub work: u32,
    /// Offset of the spare slot in the flash; while a format writes the image, the offset of the current piece in the image.
    pub spare: u32,
    /// CRC register of the image.
    pub sum: u32,
    /// Number of bytes of the pending writes that are already written; for a format, only those of its current step.
    pub done: u32,
    /// 0, or wLength of the pending GETSTATUS plus 1.
    pub asked: u32,
    /// Generation of the image that becomes active; for a format the number of its step.
    pub generation: u8,
    /// 1 if the writes first close the gate of the spare slot, otherwise 0.
    pub close: u8,
    /// Number of bytes that are held back until a unit is full, fewer than a unit has. They are in the block's memory after the transfer
    /// size.
    pub held_length: u16,
}

/// Returns a record of the library's version in which every other field is 0.
pub fn blank() -> DfuRecord
    ensures { result ≡ blank_record }
{
    DfuRecord {
        version: VERSION,
        mode: 0,
        first: 0,
        second: 0,
        put_end: 0,
        slot: 0,
        number: 0,
        length: 0,
        header: [0; 16],
        work: 0,
        spare: 0,
        sum: 0,
        done: 0,
        asked: 0,
        generation: 0,
        close: 0,
        held_length: 0,
    }
}
