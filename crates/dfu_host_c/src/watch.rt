//! Records for C of the watch over a session, and of the facts of its device.

/// `struct dfu_watch`: counts of a session's requests and resets so far. All numbers are 0 before the first session.
#[repr(C)]
#[derive(Drop)]
pub struct DfuWatch {
    /// Number of requests and resets in a row that were not finished; 24 end the session.
    pub silent: u32,
    /// Number of resets in a row that followed requests stalled in run-time mode.
    pub resets: u32,
    /// 1 if the device stalled, in run-time mode, the last request that reached it.
    pub stalled: u8,
    /// 1 if the session sent a block or the close of a download.
    pub sent: u8,
    /// 1 if another session was begun in place of the first.
    pub anew: u8,
}

/// `struct dfu_facts`: the facts of a device after an action. 0 means no, any other number yes.
#[repr(C)]
#[derive(Drop)]
pub struct DfuFacts {
    /// The request reached the device.
    pub reached: u8,
    /// The device left and did not return in time.
    pub gone: u8,
    /// The device returned with several settings, and the program can't tell which one to use.
    pub many: u8,
    /// The user has stopped the session.
    pub stopped: u8,
    /// A device is open.
    pub open: u8,
    /// The device is in DFU mode.
    pub upgrade: u8,
    /// The device is the one that the program first found in this mode.
    pub again: u8,
    /// The device has the functional descriptor with which the session began.
    pub same: u8,
}
