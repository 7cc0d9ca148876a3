//! Versions, requirements, package specs, versions of Rust, and what an index says about a
//! version.
#![tactic(auto)]

pub mod candidates;
pub mod crate_spec;
pub mod fetch;
pub mod floors;
pub mod levels;
pub mod requirement;
mod requirement_text;
pub mod rust_version;
pub mod version;

pub use candidates::{Candidate, greatest_entry, is_for, is_selectable, read_candidate};
pub use crate_spec::CrateSpec;
pub use fetch::IndexVersion;
pub use levels::{Bound, CrateLevel, Level, Levels};
pub use requirement::{
    Requirement, admits, allows_prerelease, cut, read_requirement, upgrade_requirement,
};
pub use rust_version::{RustVersion, read_rust_version};
pub use version::{VersionExt, read_version};
