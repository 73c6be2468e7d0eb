//! Formats of firmware files, and memory maps of DfuSe devices.
//!
//! `images` reads the files that builds produce, and recognises the format of a file without a suffix. `dfuse` reads DfuSe files. `memory`
//! reads the memory maps of devices. The crate opens no file.
#![tactic(auto)]

pub mod dfuse;
pub mod images;
pub mod memory;
