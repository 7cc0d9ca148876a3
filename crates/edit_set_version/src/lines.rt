//! The lines that a plan reports.
ghost use Rattle.std.specs.Prelude.{◌≡◌, IfOk, codes, false, string_bytes};
ghost use Rattle.semver.specs.Identifiers.{parts_of, parts_text};
ghost use Rattle.edit_set_version.specs.Crates.{bump_view};
ghost use Rattle.edit_set_version.specs.PlanLines.{note_if, updating_line, updating_text, upgrading_line, upgrading_text};
ghost use Rattle.edit_set_version.specs.LineViews.{bump_line_view, change_view, line_view, owner_view, report_line_view};
ghost use Rattle.edit_set_version.specs.declared.plan.ChangeKind.TheVariants as kinds;

use crate::crates::Bump;
use crate::plan::{ChangeKind, VersionChange};
use semver::Version;
use std::alloc::{AllocError, Global};

/// A line of the report: an action and a text, and what they say in parts.
#[derive(Drop)]
pub(crate) struct Line {
    pub(crate) text: (String, String),
    pub(crate) change: VersionChange,
}

/// Whose line it is: the name in the line, and the path of the manifest.
#[derive(Clone, Copy)]
pub(crate) struct Owner<'a> {
    pub(crate) name: &'a str,
    pub(crate) path: &'a str,
}

/// The note that a line appends where the version is inherited from the workspace.
fn note_of(inherited: bool) -> &'static str
    ensures { result.now ≡ note_if inherited }
{
    if inherited {
        " (inherited from workspace)"
    } else {
        ""
    }
}

/// The action and the text of a changed version.
fn upgrading_text(
    alloc: Global,
    name: &str,
    old: &Version,
    new: &Version,
    note: &str,
) -> Result<(String, String), AllocError>
    ensures ok { IfOk result (λ l. report_line_view l
        ≡ upgrading_text name.now (parts_of old.now) (parts_of new.now) note.now) }
{
    let action = String::from_str(alloc, "Upgrading")?;
    let text = format!(in alloc; "{name} from {old} to {new}{note}")?;
    Ok((action, text))
}

/// The action and the text of a changed requirement.
fn updating_text(
    alloc: Global,
    name: &str,
    old: &str,
    new: &str,
) -> Result<(String, String), AllocError>
    ensures ok { IfOk result (λ l. report_line_view l ≡ updating_text name.now old.now new.now) }
{
    let action = String::from_str(alloc, "Updating")?;
    let text = format!(in alloc; "{name}'s dependency from {old} to {new}")?;
    Ok((action, text))
}

/// The text of a version.
fn version_text(alloc: Global, version: &Version) -> Result<String, AllocError>
    ensures ok { IfOk result (λ s. string_bytes s ≡ parts_text (parts_of version.now)) }
{
    format!(in alloc; "{version}")
}

/// What a line says, in parts.
fn change_of(
    alloc: Global,
    kind: ChangeKind,
    owner: Owner<'_>,
    old: String,
    new: String,
    inherited: bool,
) -> Result<VersionChange, AllocError>
    ensures ok { IfOk result (λ c. change_view c ≡ record {
      kind = kind;
      name = owner.entry.name.now;
      old = string_bytes old;
      new = string_bytes new;
      path = owner.entry.path.now;
      inherited = inherited;
    }) }
{
    let name = String::from_str(alloc, owner.name)?;
    let path = String::from_str(alloc, owner.path)?;
    Ok(VersionChange {
        kind,
        name,
        old,
        new,
        path,
        inherited,
    })
}

/// The `Upgrading` line of a changed version.
fn upgrading_line(
    alloc: Global,
    kind: ChangeKind,
    owner: Owner<'_>,
    old: &Version,
    new: &Version,
    inherited: bool,
) -> Result<Line, AllocError>
    ensures ok { IfOk result (λ l. line_view l
        ≡ upgrading_line kind (owner_view owner.entry) (parts_of old.now) (parts_of new.now) inherited) }
{
    let text = upgrading_text(alloc, owner.name, old, new, note_of(inherited))?;
    let old = version_text(alloc, old)?;
    let new = version_text(alloc, new)?;
    let change = change_of(alloc, kind, owner, old, new, inherited)?;
    Ok(Line { text, change })
}

/// The `Updating` line of a changed requirement.
pub(crate) fn updating_line(
    alloc: Global,
    owner: Owner<'_>,
    old: &str,
    new: &str,
) -> Result<Line, AllocError>
    ensures ok { IfOk result (λ l. line_view l ≡ updating_line (owner_view owner.entry) old.now new.now) }
{
    let text = updating_text(alloc, owner.name, old, new)?;
    let old = String::from_str(alloc, old)?;
    let new = String::from_str(alloc, new)?;
    let change = change_of(alloc, ChangeKind::Dependency, owner, old, new, false)?;
    Ok(Line { text, change })
}

/// The line of a crate's bump.
pub(crate) fn bump_line(alloc: Global, bump: &Bump<'_, '_>) -> Result<Line, AllocError>
    ensures ok { IfOk result (λ l. line_view l ≡ bump_line_view (bump_view bump.now)) }
{
    let owner = Owner {
        name: bump.member.package_info.name.as_str(),
        path: bump.member.input.path.as_str(),
    };
    upgrading_line(
        alloc,
        ChangeKind::Member,
        owner,
        &bump.member.package_info.version,
        &bump.next,
        bump.member.manifest.version_is_inherited(),
    )
}

/// The line of the workspace's bump, in the root manifest at a path.
pub(crate) fn workspace_line(
    alloc: Global,
    path: &str,
    old: &Version,
    new: &Version,
) -> Result<Line, AllocError>
    ensures ok { IfOk result (λ l. line_view l ≡ upgrading_line kinds.Workspace
        (codes "workspace version", path.now) (parts_of old.now) (parts_of new.now) false) }
{
    let owner = Owner {
        name: "workspace version",
        path,
    };
    upgrading_line(alloc, ChangeKind::Workspace, owner, old, new, false)
}
