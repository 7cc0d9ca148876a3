//! A `Cargo.toml`, its dependency tables and their entries.

pub use edit_manifest::entries::{Entry, ReadEntry, entries, literal_place};
pub use edit_manifest::{
    DepKind, DepTable, LocalManifest, Manifest, dependency_tables, find, get_dep_version,
    set_dep_version,
};
pub use edit_update::ManifestExt;
