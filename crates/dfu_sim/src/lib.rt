//! The link between a host and a device of USB device firmware upgrade (USB DFU 1.1): the effect of each event on both, and the laws that
//! hold for all events.
//!
//! `World::step` applies one event, `run` a list of them. `step` allocates memory for the parts of an upload, and `run` for its reports
//! too.
#![tactic(auto)]

mod acting;
mod delivery;
mod event;
mod fate;
mod fault;
pub mod laws;
mod offering;
mod play;
mod running;
mod world;

pub use delivery::Handled;
pub use event::Event;
pub use fate::Fate;
pub use fault::{LinkFault, OfferFault};
pub use offering::{Purpose, begin};
pub use running::{Stop, run};
pub use world::World;
