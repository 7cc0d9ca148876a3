//! A choice among the rows of a plan that change.
#![tactic(auto)]

mod chosen;
mod item_lookup;
mod items;
mod parsing;

pub use chosen::{chosen_rows, missing_items};
pub use items::{RowChoice, RowItem};
