//! The members of a workspace, from what `cargo metadata` prints.

pub use edit_metadata::{Input, Package, Workspace, manifest_from_pkgid, workspace_inputs};
