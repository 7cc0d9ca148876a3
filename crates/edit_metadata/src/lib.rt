//! Workspaces: the output of `cargo metadata`, and the manifests to plan for.
#![tactic(auto)]

mod fields;
mod folders;
mod from_texts;
pub mod input;
pub mod inputs;
mod members;
mod package_texts;
mod packages;
mod root;
mod rust_inputs;
pub mod workspace;
mod workspace_texts;

pub use input::Input;
pub use inputs::workspace_inputs;
pub use root::root_input;
pub use rust_inputs::with_rust_version;
pub use workspace::{Package, Workspace, manifest_from_pkgid};
