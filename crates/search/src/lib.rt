//! The search for the least fit behind a key, as states: definitions and laws.
#![tactic(auto)]
