//! Versions, requirements, Rust versions, and the choice among the versions of a crate.

pub use edit_record::{find_compatible_version, find_latest_version};
pub use edit_version::{
    Bound, Candidate, CrateLevel, CrateSpec, IndexVersion, Level, Levels, Requirement, RustVersion,
    VersionExt, admits, allows_prerelease, cut, greatest_entry, is_for, is_selectable,
    read_candidate, read_requirement, read_rust_version, read_version, upgrade_requirement,
};
