//! A cache of the results of an index, each of which is ranked once.
#![tactic(auto)]

pub mod cache;
mod cached_result;
mod choices;
mod rank;
pub mod ranking;
mod registry_answers;

pub use cache::IndexCache;
pub use ranking::Ranked;
