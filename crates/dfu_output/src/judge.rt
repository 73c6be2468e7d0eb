//! Lines that `dfu judge` prints about a log.

mod dfuse;
mod fault;
mod judging;
mod lines;
mod names;
mod reading;
mod texts;

pub use dfuse::dfuse_departure_text;
pub use fault::{LogFault, stop_text};
pub use lines::LogLines;
pub use reading::{judge_text, judge_with_fault};
pub use texts::{is_single, verdict_text};
