//! Calls for a run area, for programs in C, in a static library. `include/dfu_install_core.h` describes them.

pub(crate) mod area;
mod calls;
mod numbers;
