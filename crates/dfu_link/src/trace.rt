//! The trace of a script: a line for each action of the host. No contract covers its text.

mod tracer;
mod words;

pub(crate) use tracer::{NoTrace, TraceWriter, Tracer};
