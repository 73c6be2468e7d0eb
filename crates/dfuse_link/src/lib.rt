//! Laws about a DfuSe host and a device over a link. The link may lose any message, and the device may restart at any time. Only the law
//! `clean_runs_are_counted` assumes a link that loses nothing.
#![tactic(auto)]

pub mod laws;
