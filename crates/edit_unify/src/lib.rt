//! One requirement for all entries that require one crate in one compatible range.
#![tactic(auto)]

mod apart;
mod groups;
mod leaders;
mod ranges;
mod rows;
mod stands;

pub use apart::apart_names;
pub use rows::unify_rows;
