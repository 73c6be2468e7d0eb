//! A static library for C programs that reads the image from a firmware file. `include/dfu_image_take.h` describes its call.
#![tactic(auto)]

mod refusals;
mod taking;
mod version;
