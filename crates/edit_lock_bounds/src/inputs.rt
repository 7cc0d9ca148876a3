//! What bounds the versions of packages.

/// A requirement on a crate.
#[derive(Debug, Drop)]
pub struct Requirement {
    /// The crate's name.
    pub name: String,
    /// The source that the crate has to come from, as in a lock file; `None` for any.
    pub source: Option<String>,
    /// The requirement on versions, as `^1.0`. A text that is none admits no version.
    pub req: String,
    /// What has the requirement, for messages.
    pub required_by: String,
}

/// The versions of a crate that may be locked: published, not yanked, old enough and within the hold.
#[derive(Debug, Drop)]
pub struct EligibleVersions {
    pub name: String,
    /// The source of the crate, as in a lock file.
    pub source: String,
    /// The versions, in any order.
    pub versions: Vec<String>,
}

/// A version that was chosen for requirements on a crate.
#[derive(Debug, Drop)]
pub struct ChosenVersion {
    pub name: String,
    pub version: String,
}

/// What bounds the versions of packages.
#[derive(Clone, Copy, Debug)]
pub struct Bounds<'a> {
    /// Each requirement of the resolved workspace.
    pub requirements: &'a [Requirement],
    /// What an index says of crates. Of a crate that is not here nothing is known.
    pub crates: &'a [EligibleVersions],
    /// The versions that were chosen.
    pub chosen: &'a [ChosenVersion],
}
