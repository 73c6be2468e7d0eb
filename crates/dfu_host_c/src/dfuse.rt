//! The host of DfuSe and memory maps for C, described in `include/dfuse_host.h`, and DfuSe files, described in `include/dfuse_file.h`.

mod action;
mod file;
mod file_image;
mod holding;
mod map;
mod phases;
mod plan;
mod reports;
mod session;
mod steps;
mod watch;
mod watching;
