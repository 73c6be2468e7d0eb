//! Records that several libraries share with a program in C, and their numbers.

use dfu_asks::MAX_PROGRAM;

/// Operation of the flash that a program must perform next: `struct dfu_ask`.
#[repr(C)]
#[derive(Drop)]
pub struct DfuAsk {
    /// 1: erase the sector of `length` bytes at `at`; 2: write the first `length` bytes of `bytes` there.
    pub kind: u32,
    /// Offset of the first byte in the flash.
    pub at: u32,
    /// Number of bytes to write, 1 to 256, or to erase.
    pub length: u32,
    /// Bytes to write; only the first `length` are used.
    pub bytes: [u8; MAX_PROGRAM],
}

/// DFU_ERASE: value of `kind` for an erase.
pub const ERASE: u32 = 1;

/// DFU_PROGRAM: value of `kind` for a write.
pub const PROGRAM: u32 = 2;

/// DFU_WRITE_PENDING: a call returns this number if a flash operation is pending.
pub const ASKS: i32 = -11;

/// Location of an image in its flash: `struct dfu_place`.
#[repr(C)]
#[derive(Clone, Copy, Drop)]
pub struct DfuPlace {
    /// Offset of the image's first byte.
    pub at: u32,
    /// Length of the image in bytes.
    pub length: u32,
}
