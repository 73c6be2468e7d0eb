//! Scripts: texts of lines that configure a device, apply events to the link of that device and a host, and print the results.

mod event_parts;
pub(crate) mod expectation;
pub(crate) mod fault;
mod fields;
mod line;
mod line_forms;
mod output;
mod playing;
mod reader;
mod reading;
mod run_events;
mod run_script;
pub(crate) mod saying;
mod script_config;
pub(crate) mod setup_fault;
pub(crate) mod showing;
mod source;
mod starting;
mod words;

pub use fault::{Field, LineFault, Reason, ScriptFault, Stopped};
pub use run_script::{script, script_traced, script_traced_with, script_with};
pub use setup_fault::SetupFault;
