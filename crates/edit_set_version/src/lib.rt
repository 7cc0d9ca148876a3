//! Plans new versions for the members of a workspace (`cargo set-version`).
#![tactic(auto)]

mod bump;
mod bump_lines;
mod bumps;
mod choose;
mod crates;
mod dependents;
mod failure;
pub mod laws;
mod lines;
mod literals;
mod manifests;
mod names;
mod numbers;
mod outputs;
pub mod path_deps;
pub mod plan;
mod planned;
mod project;
mod reach;
mod rows;
pub mod set_version;
mod shared;
mod walk;
mod writes;

pub use failure::{VersionFailure, VersionOrigin};
pub use path_deps::{PathEntry, path_entries};
pub use plan::{ChangeKind, Selection, SetVersionPlan, VersionChange};
pub use planned::{plan_set_version, plan_versions};
pub use set_version::{BumpLevel, TargetVersion};
