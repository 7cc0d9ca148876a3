//! The lossless manifest document: its tree, its items, and the replacement of values by string literals.
//! Other edits are in `edit_changes`.
#![tactic(auto)]

mod content;
pub mod document;
mod entry_part;
mod integer;
pub mod item;
mod literal;
pub mod new_item;
mod one_statement;
mod pieces;
pub mod place;
mod replace;

pub use document::Document;
pub use edit_base::{
    CargoResult, DeviceCall, Error, MergedCommand, MissingKind, MissingNames, errors, paths,
};
pub use edit_tree::{Place, Step};
pub use item::{Item, Keys};
pub use new_item::{NewItem, NewValue};
pub use place::{clone_place, member_place};
