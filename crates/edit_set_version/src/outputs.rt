//! The outputs of a plan: the new bytes of the manifests that change.
ghost use Rattle.std.specs.Prelude.{◌≡◌, ◌≢◌, ◌<◌, ◌⊎◌, ◌++◌, [], List, true, All, IfErr, IfOk, OnOk, get_or, length, option_map, option_to_list};
ghost use Rattle.std.specs.List.{AllZip, filter, filter_map};
ghost use Rattle.edit_base.specs.Errors.{IsMemory};
ghost use Rattle.edit_base.specs.declared.errors.Error.TheVariants.{NoVersionPlace};
ghost use Rattle.edit_document.specs.Ranges.{edit_views};
ghost use Rattle.edit_manifest.specs.Versions.{IsNoValue, package_version};
ghost use Rattle.edit_report.specs.declared.output.Output.{Output as OutputSeen};
ghost use Rattle.edit_syntax.specs.Grammar.{Text};
ghost use Rattle.edit_tree.specs.Assertions.{IsDocument, same_bytes};
ghost use Rattle.edit_tree.specs.DocumentViews.{tree_of};
ghost use Rattle.edit_tree.specs.Tree.{is_value_at};
ghost use Rattle.edit_set_version.specs.Apart.{AreApart};
ghost use Rattle.edit_set_version.specs.Crates.{IsReadOf, bump_view, bumps_view};
ghost use Rattle.edit_set_version.specs.Admitted.{AllRise};
ghost use Rattle.edit_set_version.specs.BumpsByFolder.{HasFirstBumps};
ghost use Rattle.edit_set_version.specs.PlanRefused.{IsInputClearBy};
ghost use Rattle.edit_set_version.specs.Planned.{AreOutputsOf, HasOutputsBy, OutputsInOrder};
ghost use Rattle.edit_set_version.specs.SetVersioned.{edits_by, dependents, own_edit, requirement_edit, shared_edits, writes_own};
ghost use Rattle.edit_metadata.specs.Inputs.{HaveOwnPaths, path_of};
ghost use Rattle.edit_set_version.specs.Written.{CanShare, HasSharedVersion, shared_version_view};

use crate::crates::Bump;
use crate::dependents::dependents_of;
use crate::numbers::{BumpsByFolder, bump_beside};
use crate::writes::{Edit, own_edit, push_requirements, shared_edit};
use edit_base::errors::{CargoResult, Error};
use edit_document::Document;
use edit_manifest::Manifest;
use edit_metadata::Input;
use edit_report::Output;
use semver::Version;
use std::alloc::Global;

/// What a plan writes: the path of the root manifest, the next version of the workspace where it changes,
/// and the bumps by folder.
#[derive(Clone, Copy)]
pub(crate) struct PlannedWrites<'a, 'n> {
    pub(crate) root: &'a str,
    pub(crate) shared: Option<&'a Version>,
    pub(crate) numbers: &'a BumpsByFolder<'n>,
    pub(crate) bumps: &'a [Bump<'a, 'a>],
}

/// Whether the version of a bumped crate is a literal in the manifest at a path: that is the crate's
/// manifest, and the version is not inherited.
fn writes_own(bump: &Bump<'_, '_>, path: &str) -> bool
    ensures { result ≡ writes_own path.now (bump_view bump.now) }
{
    bump.member.input.path.as_str() == path && !bump.member.manifest.version_is_inherited()
}

/// The bump at an index.
fn numbered_bump<'a>(bumps: &'a [Bump<'a, 'a>], number: usize) -> &'a Bump<'a, 'a>
    requires there { number < length bumps.now }
    ensures { result.now ≡ get_or bumps.entry.now number result.now }
{
    &bumps[number]
}

/// The bump whose version is a literal in the manifest at a path, where there is one.
fn own_bump<'a>(
    alloc: Global,
    writing: &PlannedWrites<'a, '_>,
    path: &str,
) -> CargoResult<Option<&'a Bump<'a, 'a>>>
    requires numbers { HasFirstBumps (bumps_view writing.now.bumps.now) writing.now.numbers.now }
    requires apart { AreApart (bumps_view writing.now.bumps.now) }
    ensures ok { IfOk result (λ o. filter (writes_own path.now) (bumps_view writing.entry.now.bumps.now)
        ≡ option_to_list (option_map (λ b. bump_view b.now) o)) }
    ensures error { IfErr result IsMemory }
{
    let Some(numbered) = bump_beside(alloc, writing.numbers, path)? else {
        return Ok(None);
    };
    let bump = numbered_bump(writing.bumps, numbered.number);
    if writes_own(bump, path) {
        return Ok(Some(bump));
    }
    Ok(None)
}

/// Adds the edit of the workspace's version, where the root manifest is at this path.
fn push_shared(
    alloc: Global,
    writing: &PlannedWrites<'_, '_>,
    path: &str,
    edits: &mut Vec<Edit>,
) -> CargoResult<()>
    ensures ok { OnOk result (edit_views edits.new.items ≡ edit_views edits.old.items
        ++ shared_edits (same_bytes path.now writing.now.root.now) (shared_version_view writing.now.shared)) }
    ensures error { IfErr result IsMemory }
{
    if path != writing.root {
        return Ok(());
    }
    let Some(next) = writing.shared else {
        return Ok(());
    };
    let edit = shared_edit(alloc, next)?;
    edits.push(edit)?;
    Ok(())
}

/// Adds the edit of the package's version, where a bumped crate has its version literal in the manifest at
/// this path.
pub(crate) fn push_own(
    alloc: Global,
    writing: &PlannedWrites<'_, '_>,
    path: &str,
    document: &Document,
    edits: &mut Vec<Edit>,
) -> CargoResult<()>
    requires numbers { HasFirstBumps (bumps_view writing.now.bumps.now) writing.now.numbers.now }
    requires apart { AreApart (bumps_view writing.now.bumps.now) }
    ensures ok { OnOk result (edit_views edits.new.items ≡ edit_views edits.old.items
        ++ filter_map (own_edit path.now) (bumps_view writing.now.bumps.now)) }
    ensures literal { OnOk result (filter (writes_own path.now) (bumps_view writing.now.bumps.now) ≢ []
        → (form : Text) → IsDocument document.now.bytes form → is_value_at form package_version ≡ true) }
    ensures error { IfErr result (λ e. IsMemory e ⊎ ((e ≡ NoVersionPlace)
        × (filter (writes_own path.now) (bumps_view writing.now.bumps.now) ≢ [])
        × IsNoValue document.now package_version)) }
{
    let Some(bump) = own_bump(alloc, writing, path)? else {
        return Ok(());
    };
    let edit = own_edit(alloc, &bump.next)?;
    if !document.is_value(&edit.0) {
        return Err(Error::NoVersionPlace);
    }
    edits.push(edit)?;
    Ok(())
}

/// Adds the edits of the requirements on bumped crates in an input.
fn push_dependents(
    alloc: Global,
    writing: &PlannedWrites<'_, '_>,
    input: &Input,
    document: &Document,
    edits: &mut Vec<Edit>,
) -> CargoResult<()>
    requires numbers { HasFirstBumps (bumps_view writing.now.bumps.now) writing.now.numbers.now }
    ensures ok { OnOk result (edit_views edits.new.items ≡ edit_views edits.old.items
        ++ filter_map requirement_edit
        (dependents (bumps_view writing.now.bumps.now) (path_of input.now) (tree_of document.now))) }
    ensures rise { OnOk result
        (AllRise (bumps_view writing.now.bumps.now) (path_of input.now) (tree_of document.now)) }
    ensures error { IfErr result (λ e. AllRise (bumps_view writing.now.bumps.now) (path_of input.now)
        (tree_of document.now) → IsMemory e) }
{
    let dependents = dependents_of(alloc, writing.numbers, input, document)?;
    push_requirements(alloc, &dependents, edits)?;
    Ok(())
}

/// The edits of an input.
fn edits_of(
    alloc: Global,
    writing: &PlannedWrites<'_, '_>,
    input: &Input,
    manifest: &Manifest,
) -> CargoResult<Vec<Edit>>
    requires numbers { HasFirstBumps (bumps_view writing.now.bumps.now) writing.now.numbers.now }
    requires apart { AreApart (bumps_view writing.now.bumps.now) }
    requires read { IsReadOf input.now manifest.now }
    ensures ok { IfOk result (λ es. edit_views es.items
        ≡ edits_by writing.now.root.now (shared_version_view writing.now.shared)
        (bumps_view writing.now.bumps.now) (path_of input.now) (tree_of manifest.now.document)) }
    ensures clear { OnOk result (IsInputClearBy (bumps_view writing.now.bumps.now) input.now) }
    ensures error { IfErr result (λ e. IsInputClearBy (bumps_view writing.now.bumps.now) input.now
        → IsMemory e) }
{
    let path = input.path.as_str();
    let document = &manifest.document;
    let mut edits = Vec::new(alloc);
    push_shared(alloc, writing, path, &mut edits)?;
    push_own(alloc, writing, path, document, &mut edits)?;
    push_dependents(alloc, writing, input, document, &mut edits)?;
    Ok(edits)
}

/// The output of an input, `None` where there are no edits.
fn output_of(
    alloc: Global,
    writing: &PlannedWrites<'_, '_>,
    input: &Input,
    manifest: &Manifest,
) -> CargoResult<Option<Output>>
    requires numbers { HasFirstBumps (bumps_view writing.now.bumps.now) writing.now.numbers.now }
    requires apart { AreApart (bumps_view writing.now.bumps.now) }
    requires read { IsReadOf input.now manifest.now }
    requires shared { CanShare writing.now.root.now (shared_version_view writing.now.shared)
        (path_of input.now)
        (tree_of manifest.now.document) }
    ensures output { IfOk result (λ o. AreOutputsOf writing.now.root.now
        (shared_version_view writing.now.shared)
        (bumps_view writing.now.bumps.now) input.now (option_to_list o)) }
    ensures clear { OnOk result (IsInputClearBy (bumps_view writing.now.bumps.now) input.now) }
    ensures error { IfErr result (λ e. IsInputClearBy (bumps_view writing.now.bumps.now) input.now
        → IsMemory e) }
{
    let edits = edits_of(alloc, writing, input, manifest)?;
    if edits.is_empty() {
        return Ok(None);
    }
    let document = &manifest.document;
    document.lemma_form();
    let text = document.with_literals(alloc, &edits)?;
    let path = String::from_str(alloc, input.path.as_str())?;
    Ok(Some(Output {
        path,
        bytes: text.into_bytes(),
    }))
}

/// Adds the output of an input, where there are edits.
fn push_output(
    alloc: Global,
    writing: &PlannedWrites<'_, '_>,
    input: &Input,
    manifest: &Manifest,
    outputs: &mut Vec<Output>,
) -> CargoResult<()>
    requires numbers { HasFirstBumps (bumps_view writing.now.bumps.now) writing.now.numbers.now }
    requires apart { AreApart (bumps_view writing.now.bumps.now) }
    requires read { IsReadOf input.now manifest.now }
    requires shared { CanShare writing.now.root.now (shared_version_view writing.now.shared)
        (path_of input.now)
        (tree_of manifest.now.document) }
    ensures output { OnOk result ((own : List OutputSeen)
        × (outputs.new.items ≡ outputs.old.items ++ own)
        × AreOutputsOf writing.now.root.now (shared_version_view writing.now.shared)
        (bumps_view writing.now.bumps.now) input.now own) }
    ensures clear { OnOk result (IsInputClearBy (bumps_view writing.now.bumps.now) input.now) }
    ensures error { IfErr result (λ e. IsInputClearBy (bumps_view writing.now.bumps.now) input.now
        → IsMemory e) }
{
    let output = output_of(alloc, writing, input, manifest)?;
    match output {
        Some(output) => {
            outputs.push(output)?;
            Ok(())
        }
        None => Ok(()),
    }
}

/// The outputs of a plan, in the order of the inputs: the path and the new bytes of each input that has
/// edits.
pub(crate) fn outputs_of(
    alloc: Global,
    writing: &PlannedWrites<'_, '_>,
    inputs: &[Input],
    manifests: &[Manifest],
) -> CargoResult<Vec<Output>>
    requires numbers { HasFirstBumps (bumps_view writing.now.bumps.now) writing.now.numbers.now }
    requires apart { AreApart (bumps_view writing.now.bumps.now) }
    requires read { AllZip IsReadOf inputs.now manifests.now }
    requires distinct { HaveOwnPaths inputs.now }
    requires shared { HasSharedVersion inputs.now writing.now.root.now
        (shared_version_view writing.now.shared) }
    ensures outputs { IfOk result (λ os. All (HasOutputsBy writing.now.root.now
        (shared_version_view writing.now.shared) (bumps_view writing.now.bumps.now) os.items) inputs.now) }
    ensures in_order { IfOk result (λ os. OutputsInOrder inputs.now os.items) }
    ensures clear { OnOk result (All (IsInputClearBy (bumps_view writing.now.bumps.now)) inputs.now) }
    // an input in which a literal or a requirement is at fault was an error before
    ensures error { IfErr result (λ e. All (IsInputClearBy (bumps_view writing.now.bumps.now)) inputs.now
        → IsMemory e) }
{
    let mut outputs = Vec::new(alloc);
    'inputs: for i in 0..inputs.len() {
        push_output(alloc, writing, &inputs[i], &manifests[i], &mut outputs)?;
    }
    Ok(outputs)
}
