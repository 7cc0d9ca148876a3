//! The plan of an upgrade: rows, lookups, warnings and outputs.

pub use crate::decision::options::Options;
use edit_report::{Output, Row};
use edit_sources::index::IndexKrate;
use std::rc::Rc;
use url::Url;

/// A lookup: what an index answered for a crate's name at a registry's address.
#[derive(Debug, Drop)]
pub struct Look {
    pub registry: Url,
    pub name: String,
    /// The entries, shared with the cache of the index; `None` where the index has no crate of that name.
    pub answer: Option<Rc<IndexKrate>>,
}

/// A warning about an entry, beside its row.
#[derive(Debug, Drop)]
pub struct Warning {
    /// The index of the input, from 0.
    pub input: usize,
    /// Whether the warning is shown only with `--verbose`.
    pub verbose: bool,
    pub text: String,
}

/// The plan of an upgrade.
#[derive(Debug, Drop)]
pub struct UpgradePlan {
    /// The new bytes of the manifests that change, in order.
    pub outputs: Vec<Output>,
    pub rows: Vec<Row>,
    pub looks: Vec<Look>,
    pub warnings: Vec<Warning>,
    /// The selected names that no entry of an input has.
    pub missing: Vec<String>,
    /// The names of the rows that change.
    pub modified: Vec<String>,
    pub git_crates: Vec<String>,
    pub pinned_present: bool,
    pub incompatible_present: bool,
}
