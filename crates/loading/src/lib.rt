//! Texts loaded into the unused nodes of a lent memory.
#![tactic(auto)]

pub mod loading;
pub mod marks;
