//! Index entries of crates: the indexes that they are read from, and a cache of them.

pub use edit_cache::{IndexCache, Ranked};
pub use edit_sources::index_dir::DirIndex;
pub use edit_sources::{FileIndex, Index, IndexKrate, LocalIndex, Withheld, is_crate_name};
