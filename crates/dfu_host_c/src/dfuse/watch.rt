//! Record of the watch over a DfuSe session, for C.

/// `struct dfuse_watch`: counts of a session's requests and waits so far. All numbers are 0 before the session.
#[repr(C)]
#[derive(Drop)]
pub struct DfuseWatch {
    /// Number of requests in a row that reached the device and had no answer. 24 end the session; after the request to leave, 3 mean that
    /// the device is gone.
    pub silent: u32,
    /// Number of waits of 0 ms since the last longer wait or request other than GETSTATUS.
    pub waits: u32,
    /// 1 if a request of the session may have changed the memory.
    pub sent: u8,
}
