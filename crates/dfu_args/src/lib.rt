//! Parser of the command line of `dfu`, which returns a subcommand or a fault.
//!
//! `parse_subcommand` parses the command line. The crate opens no file and prints nothing.
#![tactic(auto)]

mod command_line;
mod commands;
mod help;
mod subcommand;
mod words;

pub use subcommand::{ArgsFault, ParsedArgs, Subcommand};
pub use words::{parse_args, parse_subcommand};
