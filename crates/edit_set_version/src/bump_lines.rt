//! The lines of each bump, collected while the manifests are walked.
ghost use Rattle.std.specs.Prelude.{◌≡◌, ◌∷◌, [], All, IfOk, OnOk, map};
ghost use Rattle.edit_set_version.specs.Crates.{bumps_view};
ghost use Rattle.edit_set_version.specs.Dependents.{HasRaisedText, numbered_dependent_view};
ghost use Rattle.edit_set_version.specs.LineViews.{bump_line_view, line_view, line_lists_view, owner_view, with_line, with_updates};

use crate::crates::Bump;
use crate::dependents::DependentEntry;
use crate::lines::{Line, Owner, bump_line, updating_line};
use std::alloc::{AllocError, Global};

/// A list of lines for each bump, in the order of the bumps, which holds the bump's own line.
pub(crate) fn bump_lists(
    alloc: Global,
    bumps: &[Bump<'_, '_>],
) -> Result<Vec<Vec<Line>>, AllocError>
    ensures ok { IfOk result (λ ls. line_lists_view ls.items
        ≡ map (λ b. bump_line_view b ∷ []) (bumps_view bumps.now)) }
{
    let mut lists = Vec::with_capacity(alloc, bumps.len())?;
    'bumps: for bump in bumps {
        let mut list = Vec::new(alloc);
        let line = bump_line(alloc, bump)?;
        list.push(line)?;
        lists.push(list)?;
    }
    Ok(lists)
}

/// Appends a line to the list at an index.
fn push_line(lists: &mut Vec<Vec<Line>>, number: usize, line: Line) -> Result<(), AllocError>
    ensures ok { OnOk result (line_lists_view lists.new.items
        ≡ with_line number (line_view line) (line_lists_view lists.old.items)) }
{
    if number >= lists.len() {
        return Ok(());
    }
    lists[number].push(line)?;
    Ok(())
}

/// Appends the line of a requirement on a bumped crate to the list of that bump, where the requirement
/// changes.
fn push_update(
    alloc: Global,
    owner: Owner<'_>,
    dependent: &DependentEntry<'_>,
    lists: &mut Vec<Vec<Line>>,
) -> Result<(), AllocError>
    ensures ok { OnOk result (HasRaisedText dependent.now → line_lists_view lists.new.items
        ≡ with_updates (owner_view owner.entry) (numbered_dependent_view dependent.now ∷ []) 0
        (line_lists_view lists.old.items)) }
{
    match &dependent.risen {
        Some(new) => {
            let line = updating_line(alloc, owner, dependent.text.as_str(), new.as_str())?;
            push_line(lists, dependent.bump.number, line)?;
            Ok(())
        }
        None => Ok(()),
    }
}

/// Appends the lines of a manifest's requirements on bumped crates, each to the list of its bump.
pub(crate) fn push_updates(
    alloc: Global,
    owner: Owner<'_>,
    dependents: &[DependentEntry<'_>],
    lists: &mut Vec<Vec<Line>>,
) -> Result<(), AllocError>
    ensures ok { OnOk result (All HasRaisedText dependents.now → line_lists_view lists.new.items
        ≡ with_updates (owner_view owner.entry) (map numbered_dependent_view dependents.now) 0
        (line_lists_view lists.old.items)) }
{
    'dependents: for dependent in dependents {
        push_update(alloc, owner, dependent, lists)?;
    }
    Ok(())
}
