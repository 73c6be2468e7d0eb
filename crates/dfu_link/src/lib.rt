//! Scripts for USB device firmware upgrade (USB DFU 1.1): lines that configure a device, apply events to the link between that device and a
//! host, and print the results. A trace records each action of the host.
//!
//! A call runs the lines of a text one by one, and allocates memory. The crate re-exports the link of `dfu_sim`.
#![tactic(auto)]

mod scripting;
mod trace;

pub use dfu_sim::{Event, Fate, LinkFault, OfferFault, Purpose, Stop, World, laws, run};
pub use scripting::{
    Field, LineFault, Reason, ScriptFault, SetupFault, Stopped, script, script_traced,
    script_traced_with, script_with,
};
