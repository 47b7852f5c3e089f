//! An accepted text, held as a record.
#![tactic(auto)]

pub mod record;
