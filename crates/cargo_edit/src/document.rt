//! A TOML document that preserves its bytes, and its edits.

pub use edit_changes::DocumentExt;
pub use edit_document::{
    Document, Item, Keys, NewItem, NewValue, Place, Step, clone_place, member_place,
};
