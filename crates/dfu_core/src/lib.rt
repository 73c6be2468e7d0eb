//! Base of the library of the device for C: the configuration, the record, and the device or format that they represent. It also contains
//! the records and numbers that the other libraries for C share.
#![tactic(auto)]

mod config;
mod format;
mod keeping;
mod mode;
mod numbers;
mod record;
mod records;

pub use config::{DfuConfig, Settings, VERSION, functional_of, settings_of};
pub use format::{formatting_of, keep_format};
pub use keeping::{found, keep, slot_of};
pub use mode::{has_mode, idle_mode, mode_in, set_mode};
pub use numbers::CoreRefusal;
pub use record::{DfuRecord, blank};
pub use records::{ASKS, DfuAsk, DfuPlace, ERASE, PROGRAM};
