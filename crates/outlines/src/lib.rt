//! Records as outlines that a person can read.
#![tactic(auto)]

pub mod escapes;
pub mod outline;
