//! `cargo-edit` as a library: each public name, from the crate that proves it. At the root are the names that
//! the library of cargo-edit 0.13.14 has there; the modules have all.
#![tactic(auto)]

pub mod dependency;
pub mod document;
pub mod index;
pub mod manifest;
pub mod registry;
pub mod report;
pub mod set_version;
pub mod store;
pub mod upgrade;
pub mod version;
pub mod workspace;

pub use edit_base::{
    CargoResult, CliError, CliResult, DeviceCall, Error, MergedCommand, MissingKind, MissingNames,
    errors, paths,
};
pub use edit_cache::IndexCache;
pub use edit_manifest::{LocalManifest, Manifest, find, get_dep_version, set_dep_version};
pub use edit_metadata::manifest_from_pkgid;
pub use edit_record::{
    CrateSpec, Dependency, GitSource, PathSource, RegistrySource, RustVersion, Source, VersionExt,
    WorkspaceSource, find_compatible_version, find_latest_version, upgrade_requirement,
};
pub use edit_report::{
    shell_note, shell_print, shell_status, shell_warn, shell_write_stderr, shell_write_stdout,
};
pub use edit_sources::IndexKrate;
pub use edit_sources::registry::registry_url;
