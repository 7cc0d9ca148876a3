//! Comparison of two documents: whether the second is the first after one given edit.
#![tactic(auto)]

mod changed;
mod compare;
mod equal_around;
mod equal_around_unordered;
mod grown;
mod new_content;
mod remaining_parts;
mod removed;
mod unordered;

pub use changed::has_replaced;
pub use grown::has_grown;
pub use removed::has_lost;
