//! The list of the index entries that are available to an upgrade, and a store that shows the listed files as
//! an index.
#![tactic(auto)]

pub mod entry_list;
mod listed_files;
pub mod listed_store;

pub use entry_list::{ListedEntry, push_entry, read_list};
pub use listed_store::ListedStore;
