//! The index entries that an upgrade looks up: as lines of a file, their paths and their texts in the
//! cache, and their addresses in messages.
#![tactic(auto)]

pub mod cache_paths;
pub mod cached_texts;
pub mod control_escaping;
pub mod lookups;
pub mod userinfo;

pub use cache_paths::{cached_path, registry_folder};
pub use cached_texts::{cached_body, cached_etag, cached_text};
pub use control_escaping::push_escaped;
pub use lookups::{Lookup, read_lookups};
pub use userinfo::strip_userinfo;
