//! Calls that choose and start an image, for programs in C: trials, two areas and run areas, in static libraries.
#![tactic(auto)]

mod home;
mod install;
mod trial;
