//! The phases of a session.

use crate::place::Place;
use crate::report::Report;
use crate::step::Step;
use crate::work::Work;

/// Standing of a session: its work, its knowledge of the address pointer, and its next step.
#[derive(Clone, Copy)]
pub struct Standing {
    /// Work that the session is doing.
    pub work: Work,
    /// Knowledge of the device's address pointer.
    pub place: Place,
    /// Next step of the work.
    pub step: Step,
}

/// Phase of a session: it goes on, or it is over.
#[derive(Clone, Copy)]
pub enum Phase {
    /// The session goes on from this standing.
    On(Standing),
    /// The session is over with this report.
    Over(Report),
}
