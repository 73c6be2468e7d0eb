//! Base of the C library of the host: its records, the sessions in them, the effects of its calls, and laws of any list of calls.
#![tactic(auto)]

mod action;
mod encoded;
pub mod laws;
mod session;

pub use action::DfuAction;
pub use encoded::EncodedPhase;
pub use session::DfuSession;
