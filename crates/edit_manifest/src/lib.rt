//! Manifests: how they are found and read, their dependency tables, and their versions.
#![tactic(auto)]

pub mod dep_table;
pub mod entries;
pub mod key_places;
pub mod local_manifest;
pub mod locate;
pub mod manifest;
pub mod tables;
pub mod versions;

pub use dep_table::{DepKind, DepTable};
pub use edit_base::{
    CargoResult, DeviceCall, Error, MergedCommand, MissingKind, MissingNames, errors, paths,
};
pub use local_manifest::LocalManifest;
pub use locate::find;
pub use manifest::Manifest;
pub use tables::dependency_tables;
pub use versions::{get_dep_version, set_dep_version};
