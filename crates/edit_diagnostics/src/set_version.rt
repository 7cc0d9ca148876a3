//! Explains errors of a plan of new versions, from what caused them.
ghost use Rattle.std.specs.Prelude.{◌≡◌, IfSome, Some, string_bytes};
ghost use Rattle.edit_diagnostics.specs.FailurePlaces.{IsInManifest, IsVersionPlaceOf};
ghost use Rattle.edit_set_version.specs.Failures.{manifest_of};

use crate::explanation::{Explanation, with_explanation};
use crate::suggestions::suggestions;
use crate::versions::{
    explain_excluded, explain_member, explain_missing, explain_requirement, explain_root,
};
use edit_base::{Error, MissingNames};
use edit_metadata::Workspace;
use edit_set_version::{Selection, VersionFailure, VersionOrigin};
use edit_steps::{RunError, at_byte};
use std::alloc::{AllocError, Global};

/// Suggestions for missing names, from the names of the members.
fn names_near(
    alloc: Global,
    missing: &MissingNames,
    workspace: &Workspace,
) -> Result<Option<String>, AllocError> {
    let mut names = Vec::new(alloc);
    for package in &workspace.packages {
        if package.member {
            names.push(package.name.as_str())?;
        }
    }
    suggestions(alloc, missing, &names)
}

/// The help for an error of names that no member has.
fn help_for_names(alloc: Global, error: &Error, workspace: &Workspace) -> Option<String> {
    match error {
        Error::PackagesMissing(missing) => names_near(alloc, missing, workspace).ok()?,
        _ => None,
    }
}

/// Explains an error with this origin, from the manifest that the origin names.
fn explain_origin(
    alloc: Global,
    error: &Error,
    origin: &VersionOrigin<'_>,
    selection: &Selection,
    workspace: &Workspace,
) -> Option<Explanation>
    ensures place { IfSome result
        (λ x. IfSome x.place (λ s. IsInManifest (manifest_of origin.now) (string_bytes s))) }
{
    match origin {
        VersionOrigin::Input(input) => explain_missing(alloc, input, selection, workspace),
        VersionOrigin::Root(root) => match error {
            Error::CannotExclude { .. } => explain_excluded(alloc, root),
            _ => explain_root(alloc, root),
        },
        VersionOrigin::Member { package, input } => {
            explain_member(alloc, package, input, selection)
        }
        VersionOrigin::Entry { input, place } => {
            explain_requirement(alloc, input, place, workspace)
        }
    }
}

/// Explains a failure of a plan of new versions for a workspace, with place and help: the manifest that is
/// no TOML, the version that is missing or cannot be raised, the requirement that cannot be raised, or the
/// member with the name nearest to one that no member has.
pub fn explain_set_version(
    alloc: Global,
    failure: VersionFailure<'_>,
    selection: &Selection,
    workspace: &Workspace,
) -> RunError
    ensures same { result.error ≡ failure.entry.error }
    // without a place where memory ran out
    ensures place { IfSome result.place (λ s. IsVersionPlaceOf failure.entry (string_bytes s)) }
{
    let VersionFailure { error, origin } = failure;
    let Some(origin) = origin else {
        let help = help_for_names(alloc, &error, workspace);
        return RunError {
            error,
            place: None,
            cause: None,
            help,
        };
    };
    match (&error, &origin) {
        (Error::Memory, _) => with_explanation(error, None),
        (Error::NotToml { .. } | Error::NotUtf8, VersionOrigin::Input(input)) => {
            at_byte(alloc, error, input.path.as_str(), &input.bytes)
        }
        _ => {
            let explanation = explain_origin(alloc, &error, &origin, selection, workspace);
            with_explanation(error, explanation)
        }
    }
}
