//! The fits of a rule and a record, found one after another in memory that the caller lends.
#![tactic(auto)]

mod comparing;
mod filling;
pub mod jobs;
mod keys;
pub mod marks;
mod pieces;
pub mod runs;
mod searching;
mod stacks;
mod trails;
