//! The row of an entry in the report.

use edit_tree::Place;

/// What an entry's new requirement was made from: an argument, a version, or the requirement of another
/// entry.
#[derive(Debug, Clone, Copy, PartialEq, Eq)]
pub enum Change {
    Explicit,
    Latest,
    Compatible,
    Unified,
}

/// Why the requirement of an entry was not raised further; `Latest` where nothing newer exists.
#[derive(Debug, Clone, Copy, PartialEq, Eq)]
pub enum Reason {
    Latest,
    Compatible,
    Incompatible,
    Pinned,
    GitSource,
    PathSource,
    Excluded,
}

/// The row of an entry: its requirements, its versions, and what was changed or why not.
#[derive(Debug, Drop)]
pub struct Row {
    /// The index of the input, from 0.
    pub input: usize,
    pub name: String,
    pub place: Place,
    pub rename: Option<String>,
    pub old: Option<String>,
    pub compatible: Option<String>,
    pub latest: Option<String>,
    pub new: Option<String>,
    pub reason: Option<Reason>,
    pub change: Option<Change>,
}
