//! A walk over the manifests of a project that collects the lines of raised requirements.
ghost use Rattle.std.specs.Prelude.{◌≡◌, ◌⊎◌, ◌∷◌, [], List, All, IfErr, IfOk, OnOk, map};
ghost use Rattle.edit_base.specs.Errors.{IsMemory};
ghost use Rattle.edit_set_version.specs.Admitted.{AllRise};
ghost use Rattle.edit_set_version.specs.Crates.{bumps_view, member_of, members_of, project_view};
ghost use Rattle.edit_set_version.specs.BumpsByFolder.{HasFirstBumps};
ghost use Rattle.edit_set_version.specs.PlanCauses.{AllRiseIn, AreUnraised, IsUnraised};
ghost use Rattle.edit_set_version.specs.PlanLines.{manifests};
ghost use Rattle.edit_metadata.specs.Inputs.{path_of};
ghost use Rattle.edit_set_version.specs.SetVersioned.{Bump as Bumped};
ghost use Rattle.edit_set_version.specs.LineViews.{bump_line_view, line_lists_view, other_manifests, with_manifests};
ghost use Rattle.edit_tree.specs.DocumentViews.{tree_of};

use crate::bump_lines::{bump_lists, push_updates};
use crate::crates::{Bump, Crate};
use crate::dependents::dependents_of;
use crate::failure::VersionFailure;
use crate::lines::{Line, Owner};
use crate::numbers::BumpsByFolder;
use crate::project::ProjectRead;
use edit_manifest::Manifest;
use edit_metadata::Input;
use std::alloc::Global;

/// Appends the lines of a manifest, under the name of its package.
fn push_manifest<'i>(
    alloc: Global,
    numbers: &BumpsByFolder<'_>,
    name: &str,
    input: &'i Input,
    manifest: &Manifest,
    lists: &mut Vec<Vec<Line>>,
) -> Result<(), VersionFailure<'i>>
    ensures ok { OnOk result ((bs : List Bumped) → HasFirstBumps bs numbers.now
        → line_lists_view lists.new.items ≡ with_manifests bs (record {
          name = name.now;
          path = path_of input.now;
          tree = tree_of manifest.now.document;
        } ∷ []) 0 (line_lists_view lists.old.items)) }
    ensures rise { OnOk result ((bs : List Bumped) → HasFirstBumps bs numbers.now
        → AllRise bs (path_of input.now) (tree_of manifest.now.document)) }
    ensures error { IfErr result (λ f. (bs : List Bumped) → HasFirstBumps bs numbers.now
        → IsMemory f.error ⊎ IsUnraised bs (path_of input.now) (tree_of manifest.now.document) f) }
{
    let dependents = dependents_of(alloc, numbers, input, &manifest.document)?;
    let owner = Owner {
        name,
        path: input.path.as_str(),
    };
    push_updates(alloc, owner, &dependents, lists)?;
    Ok(())
}

/// Appends the lines of a member's manifest, unless it is the root manifest, at path `root`.
fn push_member<'a, 'm>(
    alloc: Global,
    numbers: &BumpsByFolder<'_>,
    root: &str,
    found: Crate<'a, 'm>,
    lists: &mut Vec<Vec<Line>>,
) -> Result<(), VersionFailure<'a>>
    ensures ok { OnOk result ((bs : List Bumped) → HasFirstBumps bs numbers.now
        → line_lists_view lists.new.items ≡ with_manifests bs
        (other_manifests root.now (member_of found.entry ∷ [])) 0 (line_lists_view lists.old.items)) }
    ensures rise { OnOk result ((bs : List Bumped) → HasFirstBumps bs numbers.now
        → All (AllRiseIn bs) (other_manifests root.now (member_of found.entry ∷ []))) }
    ensures error { IfErr result (λ f. (bs : List Bumped) → HasFirstBumps bs numbers.now
        → IsMemory f.error ⊎ AreUnraised bs (other_manifests root.now (member_of found.entry ∷ [])) f) }
{
    if found.input.path.as_str() == root {
        return Ok(());
    }
    push_manifest(
        alloc,
        numbers,
        found.package_info.name.as_str(),
        found.input,
        found.manifest,
        lists,
    )?;
    Ok(())
}

/// Appends the lines of the members' manifests, but for the root manifest, at path `root`.
fn push_members<'a, 'm>(
    alloc: Global,
    numbers: &BumpsByFolder<'_>,
    root: &str,
    crates: &[Crate<'a, 'm>],
    lists: &mut Vec<Vec<Line>>,
) -> Result<(), VersionFailure<'a>>
    ensures ok { OnOk result ((bs : List Bumped) → HasFirstBumps bs numbers.now
        → line_lists_view lists.new.items ≡ with_manifests bs
        (other_manifests root.now (members_of crates.now)) 0 (line_lists_view lists.old.items)) }
    ensures rise { OnOk result ((bs : List Bumped) → HasFirstBumps bs numbers.now
        → All (AllRiseIn bs) (other_manifests root.now (members_of crates.now))) }
    ensures error { IfErr result (λ f. (bs : List Bumped) → HasFirstBumps bs numbers.now
        → IsMemory f.error ⊎ AreUnraised bs (other_manifests root.now (members_of crates.now)) f) }
{
    'members: for found in crates {
        push_member(alloc, numbers, root, *found, lists)?;
    }
    Ok(())
}

/// Appends the lines of the manifests of a project: the root's, then those of the other members in order.
fn push_project<'a, 'm>(
    alloc: Global,
    numbers: &BumpsByFolder<'_>,
    project: &ProjectRead<'a, 'm>,
    lists: &mut Vec<Vec<Line>>,
) -> Result<(), VersionFailure<'a>>
    ensures ok { OnOk result ((bs : List Bumped) → HasFirstBumps bs numbers.now
        → line_lists_view lists.new.items
        ≡ with_manifests bs (manifests (project_view project.now)) 0 (line_lists_view lists.old.items)) }
    ensures rise { OnOk result ((bs : List Bumped) → HasFirstBumps bs numbers.now
        → All (AllRiseIn bs) (manifests (project_view project.now))) }
    ensures error { IfErr result (λ f. (bs : List Bumped) → HasFirstBumps bs numbers.now
        → IsMemory f.error ⊎ AreUnraised bs (manifests (project_view project.now)) f) }
{
    let root = project.root;
    push_manifest(
        alloc,
        numbers,
        "workspace",
        root.input,
        root.manifest,
        lists,
    )?;
    push_members(
        alloc,
        numbers,
        root.input.path.as_str(),
        &project.members,
        lists,
    )?;
    Ok(())
}

/// A list of lines for each bump, in the order of the bumps: its own line, then those of the requirements
/// raised to its version.
pub(crate) fn lists_of<'a, 'm>(
    alloc: Global,
    numbers: &BumpsByFolder<'_>,
    project: &ProjectRead<'a, 'm>,
    bumps: &[Bump<'_, '_>],
) -> Result<Vec<Vec<Line>>, VersionFailure<'a>>
    requires numbers { HasFirstBumps (bumps_view bumps.now) numbers.now }
    ensures ok { IfOk result (λ ls. line_lists_view ls.items
        ≡ with_manifests (bumps_view bumps.now) (manifests (project_view project.now)) 0
        (map (λ b. bump_line_view b ∷ []) (bumps_view bumps.now))) }
    ensures rise { OnOk result
        (All (AllRiseIn (bumps_view bumps.now)) (manifests (project_view project.now))) }
    ensures error { IfErr result (λ f. IsMemory f.error
        ⊎ AreUnraised (bumps_view bumps.now) (manifests (project_view project.now)) f) }
{
    let mut lists = bump_lists(alloc, bumps)?;
    push_project(alloc, numbers, project, &mut lists)?;
    Ok(lists)
}
