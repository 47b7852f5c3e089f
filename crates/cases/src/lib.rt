//! Cases of books and records, each with its complete list of fits: statements alone, and their proof.
#![tactic(auto)]
