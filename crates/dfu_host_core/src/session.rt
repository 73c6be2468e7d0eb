//! The record of a session, which the caller keeps.

/// `struct dfu_session`: the state of a session between two calls. The header explains each number.
#[repr(C)]
#[derive(Drop)]
pub struct DfuSession {
    /// Version of the library that wrote the record.
    pub version: u32,
    /// Goal of the session, 1 to 4.
    pub goal: u32,
    /// Number of the phase's block, part or report.
    pub number: u64,
    /// Number of bytes that an upload keeps.
    pub kept: u64,
    /// Phase of the session, 0 to 24.
    pub phase: u32,
    /// A poll time in milliseconds, or the status code of a report.
    pub more: u32,
    /// Number of actions that are left.
    pub actions: u32,
    /// Number of further restarts of the device that the session tolerates.
    pub restarts: u16,
    /// wTransferSize, 1 to 65,535.
    pub transfer: u16,
    /// wDetachTimeOut, in milliseconds.
    pub detach_ms: u16,
    /// bitManifestationTolerant: 0 if the bit is 0, any other number if it is 1.
    pub tolerant: u8,
    /// bitWillDetach: 0 if the bit is 0, any other number if it is 1.
    pub will_detach: u8,
}
