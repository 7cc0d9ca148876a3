//! The steps that bring `Cargo.lock` up to a plan of an upgrade: which packages are set back, and which calls
//! of `cargo update` are made.
#![tactic(auto)]

mod bounds;
mod call_plan;
mod fitted_call;
mod locked_packages;
mod update_calls;
mod words;

pub use bounds::lock_bounds;
pub use fitted_call::next_call;
pub use update_calls::print_update_calls;
pub use words::shell_words;
