//! The lines that the program `dfu` prints, and the exits of its commands.
//!
//! `check_text`, `add_text` and `judge_text` run commands on a reader and writers, and `show_text` runs one on a text and a writer. The
//! crate opens no file.
#![tactic(auto)]

/// Returns the text for a variant of an enum from a table of variants and texts.
macro_rules! named {
    ($value:expr, $kind:ident, $($variant:ident $text:literal),+) => {
        match $value {
            $($kind::$variant => $text,)+
        }
    };
}

/// Returns the line `refused NAME` for a variant of an enum, where NAME is the variant. Each `$other` has its own line instead.
macro_rules! refused {
    ($value:expr, $kind:ident, $($variant:ident)+ $(, $other:ident $line:literal)*) => {
        match $value {
            $($kind::$variant => concat!("refused ", stringify!($variant), "\n"),)+
            $($kind::$other => $line,)*
        }
    };
}

mod adding;
mod checking;
mod configuration;
mod exit;
mod fields;
mod image_output;
mod judge;
mod reasons;
mod show_lines;
mod showing;

pub use adding::{add_text, add_with_fault, wrote_line};
pub use checking::{check_text, check_with_fault};
pub use exit::{Exit, Outcome, bad_words, fault_text, write_out};
pub use fields::{field, made_field, push};
pub use image_output::{
    FormatChoice, fill_in, format_choice_in, format_name, image_line, looks_like_hint,
    not_image_hint, not_image_line, refused_line, why, why_not,
};
pub use judge::{
    LogFault, LogLines, dfuse_departure_text, is_single, judge_text, judge_with_fault, stop_text,
    verdict_text,
};
pub use reasons::{name_before, reason_line};
pub use showing::show_text;
