//! The DFU file: a payload and its suffix (USB DFU 1.1, appendix B).
//!
//! `read` and `read_small` parse a whole file, and `check` checks the bytes of a reader. `add` writes a file with a payload and its suffix.
//! `Crc` is the register whose value becomes dwCRC. `gather` and `write_whole` are loops over streams, which other crates use too. The
//! crate opens no file and prints nothing.
#![tactic(auto)]

mod adding;
mod checking;
mod crc;
mod fault;
mod file;
mod findings;
mod folding;
mod gathering;
pub mod laws;
mod making;
mod parse;
mod small;
mod summary;
mod table;
mod writing;

pub use adding::add;
pub use checking::{check, check_with};
pub use crc::Crc;
pub use fault::SuffixFault;
pub use file::{File, READ_BYTES};
pub use findings::Findings;
pub use gathering::{GatherFault, gather};
pub use parse::{read, read_small};
pub use summary::Summary;
pub use writing::{OutputError, write_whole};
