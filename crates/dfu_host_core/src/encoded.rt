//! A phase as numbers, for the record of a session.

/// Numbers that encode a phase in the record of a session.
#[derive(Clone, Copy)]
pub struct EncodedPhase {
    /// Number of the phase.
    pub which: u32,
    /// Number of the phase's block, part or report.
    pub number: u64,
    /// The poll time in milliseconds, or the status code of a report.
    pub more: u32,
}
