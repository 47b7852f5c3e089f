//! The questions put to whatever holds a record, and what is done over them.
#![tactic(auto)]

pub mod copying;
pub mod elements;
pub mod holding;
pub mod kinds;
