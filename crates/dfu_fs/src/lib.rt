//! The files that the commands of `dfu` read and write, and printed lines as JSON objects.
//!
//! The commands use the library's traits for files, input and printing, so that tests can run them on a simulated machine in memory.
#![tactic(auto)]

mod adding;
mod changing;
mod checking;
mod destination;
mod gathering;
mod given;
mod json;
mod reasons;
mod replacing;
mod setting;
mod temp_file;

pub use adding::{AddOptions, add_file};
pub use changing::{Change, with_ids};
pub use checking::check_files;
pub use gathering::gather_fault;
pub use given::{Given, open};
pub use json::{JsonLines, object};
pub use reasons::{error_reason, file_reason};
pub use setting::{extract_file, set_file};
pub use temp_file::{Owned, rights_after};
