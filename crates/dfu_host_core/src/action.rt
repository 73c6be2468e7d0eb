//! The next action, as a record for C.

/// `struct dfu_action`: the next action. The header explains each number.
#[repr(C)]
#[derive(Drop)]
pub struct DfuAction {
    /// 0 to send, 1 to wait, 2 to reset the bus, 3 if the session is over.
    pub what: u32,
    /// The milliseconds of a wait, or the number of a report.
    pub value: u32,
    /// Offset of the body in the payload.
    pub from: u64,
    /// Length in bytes of the body.
    pub length: u64,
    /// The status code of the report Refused.
    pub code: u32,
    /// Setup packet of the request to send.
    pub setup: [u8; 8],
}
