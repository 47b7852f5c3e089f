//! Canonical S-expressions: the refusals, the tokens and the reader.
#![tactic(auto)]

pub mod outcomes;
pub mod reader;
pub mod refusals;
pub mod tokens;
