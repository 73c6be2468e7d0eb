//! The lines that `dfu check`, `dfu show` and `dfu judge` print, as JSON objects (RFC 8259). Each line becomes one object.

mod arrays;
mod filling;
mod forms;
mod lines;
mod name;
mod objects;
mod part;
mod quoting;
mod taking;
mod words;

pub use lines::JsonLines;
pub use objects::object;
