//! Edits that change the tree of a document: a member inserted, an entry replaced, an item removed, a value
//! set. `edit_rewrite` gives the new text, and `edit_compare` checks that its tree is the intended one.
#![tactic(auto)]

mod accept_edit;
mod document_ext;
mod set_value;

pub use document_ext::DocumentExt;
