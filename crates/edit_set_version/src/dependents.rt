//! The entries of a manifest that depend on bumped crates.
ghost use Rattle.std.specs.Prelude.{◌≡◌, ◌⊎◌, ◌++◌, List, All, IfErr, IfOk, OnOk, map, option_to_list, string_bytes};
ghost use Rattle.edit_base.specs.Errors.{IsMemory};
ghost use Rattle.edit_metadata.specs.Inputs.{path_of};
ghost use Rattle.edit_tree.specs.DocumentViews.{tree_of};
ghost use Rattle.edit_set_version.specs.Dependents.{HasRaisedText, IsEntryUnraised, all_numbered, dependent_of, numbered_dependent_view, with_bump_index};
ghost use Rattle.edit_set_version.specs.BumpsByFolder.{HasFirstBumps, numbered_view};
ghost use Rattle.edit_set_version.specs.PathDependency.{path_dependency_view};
ghost use Rattle.edit_set_version.specs.PlanCauses.{FailsAtEntry, IsUnraised};
ghost use Rattle.edit_set_version.specs.SetVersioned.{Bump};

use crate::failure::{VersionFailure, at_entry};
use crate::numbers::{BumpsByFolder, Numbered, bump_at};
use crate::path_deps::{PathEntry, path_entries};
use edit_document::{Document, Place};
use edit_metadata::Input;
use edit_version::upgrade_requirement;
use std::alloc::Global;

/// An entry with a requirement on a bumped crate.
#[derive(Drop)]
pub(crate) struct DependentEntry<'a> {
    /// The place of the entry in its manifest.
    pub(crate) place: Place,
    pub(crate) text: String,
    pub(crate) bump: Numbered<'a>,
    /// The raised requirement, `None` where it does not change.
    pub(crate) risen: Option<String>,
}

/// An entry that depends on a bumped crate, with its requirement raised to the next version.
fn raised_dependent<'a, 'i>(
    alloc: Global,
    input: &'i Input,
    entry: PathEntry,
    bump: Numbered<'a>,
) -> Result<DependentEntry<'a>, VersionFailure<'i>>
    ensures bump { IfOk result (λ f. numbered_view f.bump ≡ numbered_view bump.entry) }
    ensures entry { IfOk result (λ f. dependent_of f ≡ record {
      place = (path_dependency_view entry).place;
      text = (path_dependency_view entry).text;
      next = (numbered_view bump.entry).1;
    }) }
    ensures risen { IfOk result HasRaisedText }
    ensures error { IfErr result (λ f. FailsAtEntry (path_of input.now) f (record {
      place = (path_dependency_view entry).place;
      text = (path_dependency_view entry).text;
      next = (numbered_view bump.entry).1;
    })) }
{
    let PathEntry { place, text, .. } = entry;
    match upgrade_requirement(alloc, text.as_str(), bump.next) {
        Ok(risen) => Ok(DependentEntry {
            place,
            text,
            bump,
            risen,
        }),
        Err(error) => Err(at_entry(error, input, place)),
    }
}

/// Adds an entry, where its path is that of a bumped crate.
fn push_dependent<'a, 'i>(
    alloc: Global,
    numbers: &BumpsByFolder<'a>,
    input: &'i Input,
    entry: PathEntry,
    dependents: &mut Vec<DependentEntry<'a>>,
) -> Result<(), VersionFailure<'i>>
    ensures ok { OnOk result ((bs : List Bump) → HasFirstBumps bs numbers.now
        → map numbered_dependent_view dependents.new.items ≡ map numbered_dependent_view dependents.old.items
        ++ option_to_list (with_bump_index bs (path_of input.now) (path_dependency_view entry))) }
    ensures risen { OnOk result (All HasRaisedText dependents.old.items
        → All HasRaisedText dependents.new.items) }
    ensures error { IfErr result (λ f. (bs : List Bump) → HasFirstBumps bs numbers.now
        → IsEntryUnraised bs (path_of input.now) (path_dependency_view entry) f) }
{
    let bump = bump_at(alloc, numbers, input.path.as_str(), entry.path.as_str())?;
    match bump {
        Some(bump) => {
            let dependent = raised_dependent(alloc, input, entry, bump)?;
            dependents.push(dependent)?;
            Ok(())
        }
        None => Ok(()),
    }
}

/// The entries of an input that depend on bumped crates, in the order of a walk down its tree.
pub(crate) fn dependents_of<'a, 'i>(
    alloc: Global,
    numbers: &BumpsByFolder<'a>,
    input: &'i Input,
    document: &Document,
) -> Result<Vec<DependentEntry<'a>>, VersionFailure<'i>>
    ensures ok { IfOk result (λ fs. (bs : List Bump) → HasFirstBumps bs numbers.now
        → map numbered_dependent_view fs.items ≡ all_numbered bs (path_of input.now) (tree_of document.now)) }
    ensures risen { IfOk result (λ fs. All HasRaisedText fs.items) }
    ensures error { IfErr result (λ f. (bs : List Bump) → HasFirstBumps bs numbers.now
        → IsMemory f.error ⊎ IsUnraised bs (path_of input.now) (tree_of document.now) f) }
{
    let entries = path_entries(alloc, document)?;
    let mut dependents = Vec::new(alloc);
    'entries: for entry in entries {
        push_dependent(alloc, numbers, input, entry, &mut dependents)?;
    }
    Ok(dependents)
}
