//! The tree of a document: what each statement defines, the table of nodes built from the tokens of the text,
//! and, as definitions, the text and the tree after each edit.
#![tactic(auto)]

mod assertions;
pub mod cut;
mod header_walk;
pub mod members;
pub mod nodes;
pub mod place;
pub mod token_content;
pub mod walk;

pub use place::{Place, Step};
