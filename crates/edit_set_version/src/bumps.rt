//! The next versions of the crates that are bumped.
ghost use Rattle.std.specs.Prelude.{◌≡◌, ◌⊎◌, ◌++◌, ◌<◌, ◌^◌, All, IfErr, IfOk, IfSome, OnOk, map, option_copied, option_map, option_to_list};
ghost use Rattle.std.specs.List.{filter_map};
ghost use Rattle.semver.specs.Identifiers.{parts_of};
ghost use Rattle.edit_base.specs.Errors.{IsMemory};
ghost use Rattle.edit_version.specs.Laws.{IsReadable, IsVersion};
ghost use Rattle.edit_set_version.specs.BumpCauses.{IsBumpable, IsUnbumped};
ghost use Rattle.edit_set_version.specs.Bumps.{IsReadableTarget, bump, target_of};
ghost use Rattle.edit_set_version.specs.Crates.{bump_view, bumps_view, member_of, members_of};
ghost use Rattle.edit_set_version.specs.Admitted.{AreVersions};
ghost use Rattle.edit_set_version.specs.PlanCauses.{AreUnbumped, member_current};
ghost use Rattle.edit_set_version.specs.Selections.{selection_view};
ghost use Rattle.edit_set_version.specs.SetVersioned.{bump_of};

use crate::crates::{Bump, Crate};
use crate::failure::{VersionFailure, at_member};
use crate::plan::Selection;
use crate::set_version::TargetVersion;
use edit_base::CargoResult;
use semver::Version;
use std::alloc::Global;

/// The `--metadata` of a selection.
pub(crate) fn metadata_of(selection: &Selection) -> Option<&str>
    ensures { option_copied result ≡ (selection_view selection.now).metadata }
{
    match &selection.metadata {
        Some(metadata) => Some(metadata.as_str()),
        None => None,
    }
}

/// For proofs: a `u64` is less than 2^64.
fn u64_bound(number: u64)
    ensures { number < 2 ^ 64 }
{}

/// For proofs: the numbers of a version that can be parsed are less than 2^64.
fn has_numbers(version: &Version)
    ensures { IsReadable (parts_of version.now) → IsVersion (parts_of version.now) }
{
    u64_bound(version.major);
    u64_bound(version.minor);
    u64_bound(version.patch);
}

/// The bump of a crate, `None` where its version does not change.
fn bump_of<'a, 'm>(
    alloc: Global,
    target: &TargetVersion,
    selection: &Selection,
    found: Crate<'a, 'm>,
) -> CargoResult<Option<Bump<'a, 'm>>>
    ensures ok { IfOk result (λ o. option_map bump_view o
        ≡ bump_of (target_of target.now) (selection_view selection.now) (member_of found.entry)) }
    ensures bumpable { OnOk result (IsBumpable (bump (target_of target.now)
        (selection_view selection.now).metadata (member_of found.entry).version)) }
    ensures versions { IsReadableTarget (target_of target.now) → IsReadable (member_of found.entry).version
        → IfOk result (λ o. IfSome o (λ b. IsVersion (bump_view b).next)) }
    ensures error { IfErr result (IsUnbumped (bump (target_of target.now)
        (selection_view selection.now).metadata (member_of found.entry).version)
        (member_of found.entry).version) }
{
    let metadata = metadata_of(selection);
    let next = target.bump(alloc, &found.package_info.version, metadata)?;
    match next {
        Some(next) => {
            has_numbers(&next);
            Ok(Some(Bump {
                member: found,
                next,
            }))
        }
        None => Ok(None),
    }
}

/// Adds the bump of a crate, where its version changes.
fn push_bump<'a, 'm>(
    alloc: Global,
    target: &TargetVersion,
    selection: &Selection,
    found: Crate<'a, 'm>,
    bumps: &mut Vec<Bump<'a, 'm>>,
) -> CargoResult<()>
    ensures ok { OnOk result (bumps_view bumps.new.items ≡ bumps_view bumps.old.items
        ++ option_to_list (bump_of (target_of target.now) (selection_view selection.now)
        (member_of found.entry))) }
    ensures bumpable { OnOk result (IsBumpable (bump (target_of target.now)
        (selection_view selection.now).metadata (member_of found.entry).version)) }
    ensures versions { OnOk result (IsReadableTarget (target_of target.now)
        → IsReadable (member_of found.entry).version → AreVersions (bumps_view bumps.old.items)
        → AreVersions (bumps_view bumps.new.items)) }
    ensures error { IfErr result (λ e. IsMemory e ⊎ IsUnbumped (bump (target_of target.now)
        (selection_view selection.now).metadata (member_of found.entry).version)
        (member_of found.entry).version e) }
{
    let bump = bump_of(alloc, target, selection, found)?;
    match bump {
        Some(bump) => {
            bumps.push(bump)?;
            Ok(())
        }
        None => Ok(()),
    }
}

/// The bumps of crates, in order, without those whose version does not change.
pub(crate) fn bumps_of<'a, 'm>(
    alloc: Global,
    target: &TargetVersion,
    selection: &Selection,
    crates: &[Crate<'a, 'm>],
) -> Result<Vec<Bump<'a, 'm>>, VersionFailure<'a>>
    ensures ok { IfOk result (λ bs. bumps_view bs.items
        ≡ filter_map (bump_of (target_of target.now) (selection_view selection.now))
        (members_of crates.now)) }
    ensures bumpable { OnOk result (All (λ m. IsBumpable (bump (target_of target.now)
        (selection_view selection.now).metadata m.version)) (members_of crates.now)) }
    ensures versions { IsReadableTarget (target_of target.now)
        → All (λ m. IsReadable m.version) (members_of crates.now)
        → IfOk result (λ bs. AreVersions (bumps_view bs.items)) }
    ensures error { IfErr result (λ f. IsMemory f.error ⊎ AreUnbumped (target_of target.now)
        (selection_view selection.now) (map member_current (members_of crates.now)) f) }
{
    let mut bumps = Vec::new(alloc);
    'crates: for found in crates {
        if let Err(error) = push_bump(alloc, target, selection, *found, &mut bumps) {
            return Err(at_member(error, *found));
        }
    }
    Ok(bumps)
}
