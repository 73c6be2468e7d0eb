//! Calls for the copy between two areas, for programs in C, in a static library. `include/dfu_home_core.h` describes them.

mod calls;
mod flash;
mod numbers;
