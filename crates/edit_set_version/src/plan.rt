//! The options and the result of a plan of new versions.

use edit_report::Output;

/// Which members are bumped, and with which build metadata.
#[derive(Debug, Drop)]
pub struct Selection {
    /// The names of the selected members; all members where it is empty.
    pub packages: Vec<String>,
    /// The names of members that are not bumped where all are selected.
    pub exclude: Vec<String>,
    /// Select all members, whatever `packages` names.
    pub workspace: bool,
    /// The build metadata of the new versions.
    pub metadata: Option<String>,
}

/// What a line of the report is about.
#[derive(Clone, Copy, Debug, PartialEq, Eq)]
pub enum ChangeKind {
    /// The version of the workspace.
    Workspace,
    /// The version of a member.
    Member,
    /// A requirement of a member, or of the workspace, on a member.
    Dependency,
}

/// What a line of the report says, in parts.
#[derive(Debug, Drop)]
pub struct VersionChange {
    pub kind: ChangeKind,
    /// The name of the member whose version or requirement changes: `workspace version` for the version of
    /// the workspace, `workspace` for a requirement of the root manifest.
    pub name: String,
    /// The old version or requirement.
    pub old: String,
    /// The new version or requirement.
    pub new: String,
    /// The path of the manifest that has the version or the requirement.
    pub path: String,
    /// Whether the version is inherited from the workspace.
    pub inherited: bool,
}

/// The new versions of members, and the raised requirements of their dependents.
#[derive(Debug, Drop)]
pub struct SetVersionPlan {
    /// The new bytes of the manifests that change, in the order of the inputs.
    pub outputs: Vec<Output>,
    /// The lines of the report: an action and a text.
    pub lines: Vec<(String, String)>,
    /// What each line says, in parts.
    pub changes: Vec<VersionChange>,
    /// Whether `lines` is not empty.
    pub changed: bool,
}
