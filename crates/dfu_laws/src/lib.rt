//! Laws of whole runs. They cover a board with a device of dfu_asks, through every call and a loss of power at any time; the reports of a
//! host over a link that may lose any message; the same board with the calls in C; and the answers of a device, which are compared with a
//! separately written table of the standard. A program calls none of these laws.
#![tactic(auto)]

mod hosts;
mod laws;
pub mod steps;

pub use hosts::core_ends_install;
pub use laws::{
    answers_are_kept, boards_are_devices, boards_ask_few_times, boards_install,
    boards_keep_an_image, boards_take_what_is_accepted, copies_change_no_image,
    core_boards_are_devices, core_boards_ask_few_times, core_boards_install,
    core_boards_keep_an_image, core_closes_if_refused, core_formats_ask_few_times,
    core_formats_make_an_image, ends_of_trials_close_a_gate,
};
