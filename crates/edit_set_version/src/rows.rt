//! The lines of a plan, concatenated.
ghost use Rattle.std.specs.Prelude.{◌≡◌, ◌⊎◌, ◌++◌, All, IfErr, IfOk, OnOk, map, option_map, option_to_list};
ghost use Rattle.std.specs.List.{flat_map};
ghost use Rattle.edit_base.specs.Errors.{IsMemory};
ghost use Rattle.semver.specs.Identifiers.{parts_of};
ghost use Rattle.edit_set_version.specs.Apart.{AreApart};
ghost use Rattle.edit_set_version.specs.Crates.{bumps_view, project_view};
ghost use Rattle.edit_set_version.specs.BumpsByFolder.{HasFirstBumps};
ghost use Rattle.edit_set_version.specs.PlanCauses.{AllRiseIn, AreUnraised};
ghost use Rattle.edit_set_version.specs.PlanLines.{lines_of, manifests, shared_lines};
ghost use Rattle.edit_set_version.specs.LineViews.{change_view, line_lists_view, line_view, report_line_view};

use crate::crates::Bump;
use crate::failure::VersionFailure;
use crate::lines::{Line, workspace_line};
use crate::numbers::BumpsByFolder;
use crate::plan::VersionChange;
use crate::project::ProjectRead;
use crate::walk::lists_of;
use semver::Version;
use std::alloc::{AllocError, Global};

/// Appends lines.
fn push_all(list: Vec<Line>, lines: &mut Vec<Line>) -> Result<(), AllocError>
    ensures ok { OnOk result (map line_view lines.new.items
        ≡ map line_view lines.old.items ++ map line_view list.items) }
{
    'list: for line in list {
        lines.push(line)?;
    }
    Ok(())
}

/// Concatenates lines: the first one where it is given, then those of the lists.
fn in_a_row(
    alloc: Global,
    first: Option<Line>,
    lists: Vec<Vec<Line>>,
) -> Result<Vec<Line>, AllocError>
    ensures ok { IfOk result (λ v. map line_view v.items ≡ map line_view (option_to_list first)
        ++ flat_map (λ l. l) (line_lists_view lists.items)) }
{
    let mut lines = Vec::new(alloc);
    if let Some(line) = first {
        lines.push(line)?;
    }
    'lists: for list in lists {
        push_all(list, &mut lines)?;
    }
    Ok(lines)
}

/// The line of the workspace's version, in the root manifest at a path, where it changes.
fn shared_line(
    alloc: Global,
    path: &str,
    old: Option<&Version>,
    new: Option<&Version>,
) -> Result<Option<Line>, AllocError>
    ensures ok { IfOk result (λ o. map line_view (option_to_list o) ≡ shared_lines path.now
        (option_map (λ v. parts_of v.now) old.entry) (option_map (λ v. parts_of v.now) new.entry)) }
{
    let Some(old) = old else {
        return Ok(None);
    };
    let Some(new) = new else {
        return Ok(None);
    };
    let line = workspace_line(alloc, path, old, new)?;
    Ok(Some(line))
}

/// The lines of a plan: that of the workspace's version where it changes, then those of the bumps.
pub(crate) fn plan_lines<'a, 'm>(
    alloc: Global,
    numbers: &BumpsByFolder<'_>,
    project: &ProjectRead<'a, 'm>,
    bumps: &[Bump<'_, '_>],
    old: Option<&Version>,
    new: Option<&Version>,
) -> Result<Vec<Line>, VersionFailure<'a>>
    requires numbers { HasFirstBumps (bumps_view bumps.now) numbers.now }
    requires apart { AreApart (bumps_view bumps.now) }
    ensures ok { IfOk result (λ v. map line_view v.items ≡ shared_lines (project_view project.now).path
        (option_map (λ v. parts_of v.now) old.entry) (option_map (λ v. parts_of v.now) new.entry)
        ++ flat_map (lines_of (project_view project.now)) (bumps_view bumps.now)) }
    ensures rise { OnOk result
        (All (AllRiseIn (bumps_view bumps.now)) (manifests (project_view project.now))) }
    ensures error { IfErr result (λ f. IsMemory f.error
        ⊎ AreUnraised (bumps_view bumps.now) (manifests (project_view project.now)) f) }
{
    let lists = lists_of(alloc, numbers, project, bumps)?;
    let first = shared_line(alloc, project.root.input.path.as_str(), old, new)?;
    let lines = in_a_row(alloc, first, lists)?;
    Ok(lines)
}

/// Lines: their actions and texts, and what they say in parts.
#[derive(Drop)]
pub(crate) struct SplitLines {
    pub(crate) texts: Vec<(String, String)>,
    pub(crate) changes: Vec<VersionChange>,
}

/// Puts the texts of lines and what they say into a list each.
pub(crate) fn split_lines(alloc: Global, lines: Vec<Line>) -> Result<SplitLines, AllocError>
    ensures texts { IfOk result (λ s. map report_line_view s.texts.items
        ≡ map (λ l. l.0) (map line_view lines.items)) }
    ensures changes { IfOk result (λ s. map change_view s.changes.items
        ≡ map (λ l. l.1) (map line_view lines.items)) }
{
    let mut split = SplitLines {
        texts: Vec::new(alloc),
        changes: Vec::new(alloc),
    };
    'lines: for line in lines {
        let Line { text, change } = line;
        split.texts.push(text)?;
        split.changes.push(change)?;
    }
    Ok(split)
}
