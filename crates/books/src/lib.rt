//! Books of rules, taken rule by rule from a text.
#![tactic(auto)]

pub mod books;
mod checking;
pub mod drafts;
pub mod names;
pub mod places;
mod sides;
