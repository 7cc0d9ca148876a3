//! The notes on the crates that a policy holds.
#![tactic(auto)]

mod hold_notes;

pub use hold_notes::push_holds;
