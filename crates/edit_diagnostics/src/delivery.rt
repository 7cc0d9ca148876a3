//! Explains errors of a plan that is made but not carried out.
ghost use Rattle.std.specs.Prelude.{◌≡◌};

use crate::suggestions::suggestions;
use edit_base::{Error, MissingNames};
use edit_steps::RunError;
use edit_upgrade::UpgradePlan;
use std::alloc::{AllocError, Global};

/// Suggestions for missing names, from the names of a plan's entries.
fn names_near(
    alloc: Global,
    missing: &MissingNames,
    plan: &UpgradePlan,
) -> Result<Option<String>, AllocError> {
    let mut names = Vec::new(alloc);
    for row in &plan.rows {
        names.push(row.name.as_str())?;
    }
    suggestions(alloc, missing, &names)
}

/// Adds to `Error::Locked` the first manifest that would change.
fn explain_locked(alloc: Global, failure: RunError, plan: &UpgradePlan) -> RunError
    ensures { result.error ≡ failure.error }
{
    let place = match plan.outputs.first() {
        Some(output) => String::from_str(alloc, output.path.as_str()).ok(),
        None => None,
    };
    let count = plan.outputs.len();
    let cause = format!(in alloc; "manifests that would change: {count}").ok();
    let help = String::from_str(alloc, "leave out `--locked` to write them").ok();
    RunError {
        place,
        cause,
        help,
        ..failure
    }
}

/// Explains an error of a plan that is not carried out: adds the manifest that `--locked` forbids to
/// change, or the nearest name of an entry for a missing one.
pub fn explain_delivery(alloc: Global, failure: RunError, plan: &UpgradePlan) -> RunError
    ensures { result.error ≡ failure.error }
{
    let help = match &failure.error {
        Error::Locked => return explain_locked(alloc, failure, plan),
        Error::DependenciesMissing(missing) => names_near(alloc, missing, plan),
        _ => return failure,
    };
    RunError {
        help: help.unwrap_or(None),
        ..failure
    }
}
