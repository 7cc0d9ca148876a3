//! The version that members inherit from their workspace.
ghost use Rattle.std.specs.Prelude.{◌≡◌, Some, None, IfErr, IfOk, IfSome, OnOk, if◌then◌else◌, option_and_then, option_map};
ghost use Rattle.semver.specs.Identifiers.{parts_of};
ghost use Rattle.semver.specs.Parse.{Parts};
ghost use Rattle.edit_base.specs.Errors.{IsMemory};
ghost use Rattle.edit_manifest.specs.Versions.{workspace_version};
ghost use Rattle.edit_set_version.specs.BumpCauses.{IsBumpable, IsUnbumped};
ghost use Rattle.edit_set_version.specs.Bumps.{bump, next_of, target_of};
ghost use Rattle.edit_set_version.specs.Selections.{selection_view};
ghost use Rattle.edit_tree.specs.DocumentViews.{tree_of};

use crate::bumps::metadata_of;
use crate::plan::Selection;
use crate::set_version::TargetVersion;
use edit_base::CargoResult;
use edit_manifest::Manifest;
use semver::Version;
use std::alloc::Global;

/// The version of the workspace in its root manifest, where `bumps` is set and there is a valid one.
pub(crate) fn current_workspace_version(
    alloc: Global,
    bumps: bool,
    root: &Manifest,
) -> CargoResult<Option<Version>>
    ensures ok { IfOk result (λ o. option_map parts_of o
        ≡ (if bumps then workspace_version (tree_of root.now.document) else None)) }
    ensures error { IfErr result IsMemory }
{
    if !bumps {
        return Ok(None);
    }
    root.get_workspace_version(alloc)
}

/// The next version of the workspace, `None` where it does not change.
pub(crate) fn next_workspace_version(
    alloc: Global,
    target: &TargetVersion,
    selection: &Selection,
    current: Option<&Version>,
) -> CargoResult<Option<Version>>
    ensures ok { IfOk result (λ o. option_map parts_of o
        ≡ option_and_then (λ v. next_of (bump (target_of target.now)
        (selection_view selection.now).metadata v))
        (option_map (λ v. parts_of v.now) current.entry)) }
    ensures bumpable { OnOk result (IfSome current.entry (λ v. IsBumpable (bump (target_of target.now)
        (selection_view selection.now).metadata (parts_of v.now)))) }
    ensures error { IfErr result (λ e. (v : Parts)
        × (option_map (λ v. parts_of v.now) current.entry ≡ Some v)
        × IsUnbumped (bump (target_of target.now) (selection_view selection.now).metadata v) v e) }
{
    let Some(current) = current else {
        return Ok(None);
    };
    let metadata = metadata_of(selection);
    let next = target.bump(alloc, current, metadata)?;
    Ok(next)
}
