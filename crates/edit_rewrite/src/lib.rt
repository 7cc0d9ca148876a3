//! The text of a document after an edit: a member inserted, an entry replaced, or an item removed. Whether
//! that text parses to the intended tree is checked in `edit_changes`.
#![tactic(auto)]

mod inline;
mod inner;
mod insert;
mod inside;
mod locate;
mod members;
mod path_matching;
mod remove_text;
mod replace_entry;
mod splices;

pub use insert::with_member;
pub use remove_text::without_item;
pub use replace_entry::with_entry;
