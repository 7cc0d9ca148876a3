//! The arguments of `set-version`.

use edit_set_version::{Selection, TargetVersion};
use edit_shown::Presentation;

/// The arguments of `set-version`.
#[derive(Debug, Drop)]
pub struct SetVersionArgs<'a> {
    /// The file with the metadata of the workspace.
    pub metadata_json: &'a str,
    pub target: TargetVersion,
    pub selection: Selection,
    /// Whether `--all` is given, the deprecated name of `--workspace`.
    pub all: bool,
    pub dry_run: bool,
    /// What is printed of the plan on standard output.
    pub presentation: Presentation,
}
