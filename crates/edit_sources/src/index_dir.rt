//! An index in a folder with a subfolder for each registry.

pub mod dir_index;
mod entry_path;
pub mod folder;
pub mod layout;

pub use dir_index::DirIndex;
pub use folder::registry_folder;
pub use layout::layout_path;
