//! The entries of dependency tables as records, and the choice of a version among the versions of an index.
#![tactic(auto)]

pub mod dependency;
pub mod find;

pub use dependency::{Dependency, GitSource, PathSource, RegistrySource, Source, WorkspaceSource};
pub use edit_version::{
    Candidate, CrateSpec, IndexVersion, Requirement, RustVersion, VersionExt, admits,
    allows_prerelease, cut, is_for, is_selectable, read_candidate, read_requirement,
    upgrade_requirement,
};
pub use find::{dependency_on, find_compatible_version, find_latest_version};
