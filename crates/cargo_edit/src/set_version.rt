//! The plan of new versions, and of the requirements of dependents.

pub use edit_set_version::{
    BumpLevel, PathEntry, Selection, SetVersionPlan, TargetVersion, path_entries, plan_set_version,
};
