//! Nodes, and the records that they lay out.
#![tactic(auto)]

mod checking;
pub mod nodes;
mod places;
pub mod record;
