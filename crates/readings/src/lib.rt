//! A run of readings, held as a record.
#![tactic(auto)]

pub mod record;
