//! Registry indexes, in files and in general, and the registries of configuration files.
#![tactic(auto)]

pub mod config;
pub mod crate_name;
pub mod file_index;
pub mod index;
pub mod index_dir;
mod index_group;
pub mod index_lines;
mod index_path;
mod index_text;
mod line_reader;
mod line_scanner;
pub mod local_index;
pub mod published;
mod published_lines;
pub mod registry;
pub mod withheld;
mod withheld_crates;

pub use config::{Config, ConfigCache, ConfigSource};
pub use crate_name::is_crate_name;
pub use file_index::FileIndex;
pub use index::{Index, IndexKrate};
pub use local_index::LocalIndex;
pub use published::PublishedBefore;
pub use withheld::Withheld;
