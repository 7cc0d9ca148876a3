//! The plan of new versions for the members of a workspace.
ghost use Rattle.std.specs.Prelude.{◌≡◌, ◌⊎◌, ◌++◌, [], All, IfErr, IfOk, OnOk, map, option_map};
ghost use Rattle.std.specs.List.{AllZip, flat_map};
ghost use Rattle.semver.specs.Identifiers.{parts_of};
ghost use Rattle.edit_base.specs.Errors.{IsMemory};
ghost use Rattle.edit_metadata.specs.Workspaces.{HasOwnFolders, workspace_view};
ghost use Rattle.edit_version.specs.Laws.{IsReadable};
ghost use Rattle.edit_set_version.specs.Apart.{AreApart};
ghost use Rattle.edit_set_version.specs.Bumps.{IsReadableTarget, target_of};
ghost use Rattle.edit_set_version.specs.Chosen.{chosen_members, excluded_inheriting};
ghost use Rattle.edit_set_version.specs.Crates.{IsReadOf, bumps_view, project_view};
ghost use Rattle.edit_set_version.specs.Admitted.{AreVersions};
ghost use Rattle.edit_set_version.specs.PlanCauses.{CanBump, IsManifestError, IsVersionError, currents};
ghost use Rattle.edit_set_version.specs.Plan.{IsPlan};
ghost use Rattle.edit_set_version.specs.PlanLines.{lines_of, manifests, shared_lines};
ghost use Rattle.edit_set_version.specs.PlanRefused.{IsCauseOf, IsFailureOf, IsInputClearBy};
ghost use Rattle.edit_set_version.specs.Planned.{HasOutputsBy, OutputsInOrder, has_lines, plan_changes_view, plan_lines_view};
ghost use Rattle.edit_set_version.specs.Projects.{AreInputsOf, HasProject, IsManifestAmong};
ghost use Rattle.edit_set_version.specs.Selections.{selection_view};
ghost use Rattle.edit_set_version.specs.SetVersioned.{bumps, workspace_current, workspace_next};
ghost use Rattle.edit_metadata.specs.Inputs.{HaveOwnPaths};
ghost use Rattle.edit_set_version.specs.Written.{HasSharedVersion};

use crate::bumps::bumps_of;
use crate::choose::choose;
use crate::crates::Bump;
use crate::failure::{VersionFailure, at_root};
use crate::literals::check_literals;
use crate::manifests::manifests_of;
use crate::numbers::index_bumps;
use crate::outputs::{PlannedWrites, outputs_of};
use crate::plan::{Selection, SetVersionPlan};
use crate::project::{ProjectRead, Root, project_of};
use crate::rows::{plan_lines, split_lines};
use crate::set_version::TargetVersion;
use crate::shared::{current_workspace_version, next_workspace_version};
use edit_base::CargoResult;
use edit_manifest::Manifest;
use edit_metadata::{Input, Workspace};
use semver::Version;
use std::alloc::Global;

/// The versions that change: the current and the next one of the workspace, each where there is one, and
/// the bumps of members.
#[derive(Drop)]
struct Versions<'a, 'm> {
    current: Option<Version>,
    next: Option<Version>,
    bumps: Vec<Bump<'a, 'm>>,
}

/// The versions that change for a target and a selection.
fn versions_of<'a, 'm>(
    alloc: Global,
    target: &TargetVersion,
    selection: &Selection,
    project: &ProjectRead<'a, 'm>,
) -> Result<Versions<'a, 'm>, VersionFailure<'a>>
    ensures bumps { IfOk result (λ v. bumps_view v.bumps.items
        ≡ bumps (target_of target.now) (selection_view selection.now) (project_view project.now)) }
    ensures current { IfOk result (λ v. option_map parts_of v.current
        ≡ workspace_current (selection_view selection.now) (project_view project.now)) }
    ensures next { IfOk result (λ v. option_map parts_of v.next
        ≡ workspace_next (target_of target.now) (selection_view selection.now) (project_view project.now)) }
    ensures excluded { OnOk result
        (excluded_inheriting (selection_view selection.now) (project_view project.now).members ≡ []) }
    ensures bumpable { OnOk result (All (CanBump (target_of target.now) (selection_view selection.now))
        (currents (selection_view selection.now) (project_view project.now))) }
    ensures versions { IsReadableTarget (target_of target.now)
        → All (λ m. IsReadable m.version) (chosen_members (selection_view selection.now)
        (project_view project.now).members)
        → IfOk result (λ v. AreVersions (bumps_view v.bumps.items)) }
    ensures error { IfErr result (λ f. IsMemory f.error
        ⊎ IsVersionError (target_of target.now) (selection_view selection.now) (project_view project.now) f) }
{
    let Root { input, manifest } = project.root;
    let choice = match choose(alloc, selection, &project.members) {
        Ok(choice) => choice,
        Err(error) => return Err(at_root(error, input)),
    };
    let current = current_workspace_version(alloc, choice.workspace, manifest)?;
    let next = match next_workspace_version(alloc, target, selection, current.as_ref()) {
        Ok(next) => next,
        Err(error) => return Err(at_root(error, input)),
    };
    let bumps = bumps_of(alloc, target, selection, &choice.crates)?;
    Ok(Versions {
        current,
        next,
        bumps,
    })
}

/// The plan for these changes of versions: outputs and lines.
fn plan_with<'a, 'm>(
    alloc: Global,
    project: &ProjectRead<'a, 'm>,
    versions: &Versions<'_, '_>,
    inputs: &'a [Input],
    read: &[Manifest],
) -> Result<SetVersionPlan, VersionFailure<'a>>
    requires apart { AreApart (bumps_view versions.now.bumps.items) }
    requires read { AllZip IsReadOf inputs.now read.now }
    requires distinct { HaveOwnPaths inputs.now }
    requires among { All (IsManifestAmong (manifests (project_view project.now))) inputs.now }
    requires shared { HasSharedVersion inputs.now (project_view project.now).path
        (option_map parts_of versions.now.next) }
    ensures outputs { IfOk result (λ plan. All (HasOutputsBy (project_view project.now).path
        (option_map parts_of versions.now.next) (bumps_view versions.now.bumps.items) plan.outputs.items)
        inputs.now) }
    ensures in_order { IfOk result (λ plan. OutputsInOrder inputs.now plan.outputs.items) }
    ensures lines { IfOk result (λ plan. plan_lines_view plan
        ≡ map (λ l. l.0) (shared_lines (project_view project.now).path
        (option_map parts_of versions.now.current) (option_map parts_of versions.now.next)
        ++ flat_map (lines_of (project_view project.now)) (bumps_view versions.now.bumps.items))) }
    ensures changes { IfOk result (λ plan. plan_changes_view plan
        ≡ map (λ l. l.1) (shared_lines (project_view project.now).path
        (option_map parts_of versions.now.current) (option_map parts_of versions.now.next)
        ++ flat_map (lines_of (project_view project.now)) (bumps_view versions.now.bumps.items))) }
    ensures changed { IfOk result (λ plan. plan.changed ≡ has_lines plan) }
    ensures clear { OnOk result (All (IsInputClearBy (bumps_view versions.now.bumps.items)) inputs.now) }
    ensures error { IfErr result (λ f. IsMemory f.error ⊎ IsManifestError
        (bumps_view versions.now.bumps.items) inputs.now (project_view project.now) f) }
{
    let numbers = index_bumps(alloc, &versions.bumps)?;
    let old = versions.current.as_ref();
    let next = versions.next.as_ref();
    let writing = PlannedWrites {
        root: project.root.input.path.as_str(),
        shared: next,
        numbers: &numbers,
        bumps: &versions.bumps,
    };
    check_literals(alloc, &writing, inputs, read)?;
    let lines = plan_lines(alloc, &numbers, project, &versions.bumps, old, next)?;
    let outputs = outputs_of(alloc, &writing, inputs, read)?;
    let lines = split_lines(alloc, lines)?;
    let changed = !lines.texts.is_empty();
    Ok(SetVersionPlan {
        outputs,
        lines: lines.texts,
        changes: lines.changes,
        changed,
    })
}

/// Like `plan_set_version`, but an error comes with what caused it.
pub fn plan_versions<'a>(
    alloc: Global,
    target: &TargetVersion,
    selection: &Selection,
    workspace: &'a Workspace,
    inputs: &'a [Input],
) -> Result<SetVersionPlan, VersionFailure<'a>>
    // as `workspace_inputs` returns them, for a workspace that was read
    requires inputs { AreInputsOf (workspace_view workspace.now) inputs.now }
    requires folders { HasOwnFolders (workspace_view workspace.now) }
    // the plan is that of the project which the workspace and the inputs make up
    ensures planned { IfOk result (λ plan. HasProject (workspace_view workspace.now) inputs.now
        (IsPlan (target_of target.now) (selection_view selection.now) inputs.now plan)) }
    // the first cause in the input, or out of memory
    ensures error { IfErr result (IsFailureOf (target_of target.now) (selection_view selection.now)
        (workspace_view workspace.now) inputs.now) }
{
    selection.check_names(alloc, workspace)?;
    let manifests = manifests_of(alloc, inputs)?;
    let project = project_of(alloc, workspace, inputs, &manifests)?;
    let versions = versions_of(alloc, target, selection, &project)?;
    plan_with(alloc, &project, &versions, inputs, &manifests)
}

/// Plans new versions for the members of a workspace, and raises the requirements of their dependents.
///
/// `inputs` are those that `workspace_inputs` returns. The selection decides which members are bumped; the
/// target makes the next version of each from its current one; and each requirement on a bumped member with
/// a `path` to it is raised to that version.
///
/// The first of these causes is the error: a selected name that no member has (`Error::PackagesMissing`);
/// an input that is no manifest (`Error::NotUtf8`, `Error::NotToml`); an excluded member that inherits the
/// version of the workspace together with a selected one (`Error::CannotExclude`); a version that the
/// target rejects (`Error::Downgrade`, `Error::ReleaseLevel`, `Error::PrereleaseScheme`,
/// `Error::NumberAtEnd`, `Error::InvalidMetadata`); a version without a literal to write it to
/// (`Error::NoVersionPlace`); a requirement that cannot be raised (`Error::InvalidRequirement`,
/// `Error::Unsupported`). Of several causes of one kind it is the first: of inputs in their order; of
/// versions that of the workspace, then those of the members in order; of requirements those of the root
/// manifest, then those of the other members.
pub fn plan_set_version(
    alloc: Global,
    target: &TargetVersion,
    selection: &Selection,
    workspace: &Workspace,
    inputs: &[Input],
) -> CargoResult<SetVersionPlan>
    // as `workspace_inputs` returns them, for a workspace that was read
    requires inputs { AreInputsOf (workspace_view workspace.now) inputs.now }
    requires folders { HasOwnFolders (workspace_view workspace.now) }
    // the plan is that of the project which the workspace and the inputs make up
    ensures planned { IfOk result (λ plan. HasProject (workspace_view workspace.now) inputs.now
        (IsPlan (target_of target.now) (selection_view selection.now) inputs.now plan)) }
    // the first cause in the input, or out of memory
    ensures error { IfErr result (IsCauseOf (target_of target.now) (selection_view selection.now)
        (workspace_view workspace.now) inputs.now) }
{
    match plan_versions(alloc, target, selection, workspace, inputs) {
        Ok(plan) => Ok(plan),
        Err(failure) => Err(failure.error),
    }
}
