//! Calls for a trial, for programs in C, in a static library. `include/dfu_trial_core.h` describes them.

mod again;
mod calls;
pub(crate) mod flash;
mod told;
