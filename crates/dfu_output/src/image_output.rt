//! Lines that `dfu add` prints for image files, and the names of their formats.

mod asked;
mod faults;
mod lines;
mod reasons;

pub use asked::{FormatChoice, fill_in, format_choice_in};
pub use faults::{not_image_line, refused_line};
pub use lines::{format_name, image_line};
pub use reasons::{looks_like_hint, not_image_hint, why, why_not};
