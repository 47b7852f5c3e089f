//! Patterns, templates and what it is for one to fit a record: definitions, and the laws that follow from them.
#![tactic(auto)]

pub mod signs;
