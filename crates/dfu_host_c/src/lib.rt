//! The host of USB device firmware upgrade (USB DFU 1.1) for programs in C: a static library without memory of its own.
//! `include/dfu_host.h` describes its calls, and `include/dfuse_host.h` those of the host of DfuSe.
//!
//! The caller keeps the state of a session in a record. Each call reads the session from the record, takes one step, and writes the record
//! again.
#![tactic(auto)]

mod action;
mod beginning;
mod dfuse;
mod file;
mod goals;
mod holding;
mod ids;
mod looks;
mod names;
mod phases;
mod refusals;
mod reports;
mod seen;
mod steps;
mod tables;
mod version;
mod watch;
mod watching;
