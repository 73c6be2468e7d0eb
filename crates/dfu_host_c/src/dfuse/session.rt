//! The record of a DfuSe session, which the caller keeps.

use crate::dfuse::plan::DfusePlan;

/// `struct dfuse_session`: the state of a session between two calls. The header explains each number.
#[repr(C)]
#[derive(Drop)]
pub struct DfuseSession {
    /// Version of the library that wrote the record.
    pub version: u32,
    /// Work of the session, 0 to 6; 7 once it is over.
    pub work: u32,
    /// Current address of the work.
    pub at: u64,
    /// End address of the work, if it has one.
    pub end: u64,
    /// Address to which the device's address pointer was set; 0 if the pointer is unknown.
    pub pointer: u64,
    /// 0 if the pointer is unknown, 1 if it was set, 2 if the device is also ready for UPLOAD.
    pub place: u32,
    /// Step of the work, 0 to 14.
    pub step: u32,
    /// Milliseconds of a step; for a report, its status code or the number of its `Leaving`.
    pub more: u32,
    /// The report, 1 to 7, of a session that is over.
    pub report: u32,
    /// The plan, with the actions and the restarts that are left.
    pub plan: DfusePlan,
}
