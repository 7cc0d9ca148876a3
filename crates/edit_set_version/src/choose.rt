//! Which crates get a new version, and whether the workspace does.
ghost use Rattle.std.specs.Prelude.{◌≡◌, ◌⊎◌, ◌++◌, ◌==◌, ◌∷◌, [], if◌then◌else◌, IfErr, IfOk, OnOk, length, string_bytes};
ghost use Rattle.std.specs.List.{filter};
ghost use Rattle.edit_base.specs.Errors.{IsMemory};
ghost use Rattle.edit_set_version.specs.Chosen.{is_whole_selected, bumps_workspace, chosen_members, excluded_inheriting, inheriting_members, is_among};
ghost use Rattle.edit_set_version.specs.Crates.{member_of, members_of};
ghost use Rattle.edit_set_version.specs.PlanCauses.{IsExcludeError, member_names_text};
ghost use Rattle.edit_set_version.specs.Selections.{selection_view};
ghost use Rattle.edit_set_version.specs.SelectedNames.{IsSelectedNames, is_in, is_selected_by};
ghost use Rattle.edit_set_version.specs.declared.choose.Part.TheVariants.{Others};

use crate::crates::Crate;
use crate::names::{Names, name_set};
use crate::plan::Selection;
use edit_base::{CargoResult, Error};
use std::alloc::{AllocError, Global};

/// The members that a selection names: all but `names`, or only `names`.
#[derive(Drop)]
pub(crate) struct SelectedNames {
    /// Whether all members are selected, but for `names`.
    all: bool,
    names: Names,
}

/// A subset of the members.
#[derive(Clone, Copy)]
pub(crate) enum Part {
    /// The selected members.
    Selected,
    /// The selected members that inherit the workspace's version.
    Inheriting,
    /// The members that are not selected and inherit the workspace's version.
    Others,
}

/// The members that a selection names, as a set of names.
fn selected_names_of(alloc: Global, selection: &Selection) -> Result<SelectedNames, AllocError>
    ensures ok { IfOk result (IsSelectedNames (selection_view selection.now)) }
{
    let all = selection.workspace || selection.packages.is_empty();
    let names = if all {
        &selection.exclude
    } else {
        &selection.packages
    };
    let names = name_set(alloc, names)?;
    Ok(SelectedNames { all, names })
}

/// Whether a member is selected.
fn is_selected_by(wanted: &SelectedNames, found: Crate<'_, '_>) -> bool
    ensures { result ≡ is_selected_by wanted.now (member_of found.entry) }
{
    let named = wanted.names.contains(found.package_info.name.as_str());
    if wanted.all { !named } else { named }
}

/// Whether a member belongs to a subset.
fn is_in(part: Part, wanted: &SelectedNames, found: Crate<'_, '_>) -> bool
    ensures { result ≡ is_in part wanted.now (member_of found.entry) }
{
    let selected = is_selected_by(wanted, found);
    match part {
        Part::Selected => selected,
        Part::Inheriting => selected && found.manifest.version_is_inherited(),
        Part::Others => !selected && found.manifest.version_is_inherited(),
    }
}

/// Appends a crate, where `keep` is set.
fn push_where<'a, 'm>(
    keep: bool,
    found: Crate<'a, 'm>,
    list: &mut Vec<Crate<'a, 'm>>,
) -> Result<(), AllocError>
    ensures ok { OnOk result (members_of list.new.items
        ≡ members_of list.old.items ++ (if keep then member_of found.entry ∷ [] else [])) }
{
    if !keep {
        return Ok(());
    }
    list.push(found)?;
    Ok(())
}

/// The members that belong to a subset, in order.
fn crates_in<'a, 'm>(
    alloc: Global,
    part: Part,
    wanted: &SelectedNames,
    crates: &[Crate<'a, 'm>],
) -> Result<Vec<Crate<'a, 'm>>, AllocError>
    ensures ok { IfOk result (λ cs. members_of cs.items
        ≡ filter (is_in part wanted.now) (members_of crates.now)) }
{
    let mut list = Vec::new(alloc);
    'crates: for found in crates {
        let keep = is_in(part, wanted, *found);
        push_where(keep, *found, &mut list)?;
    }
    Ok(list)
}

/// The names of crates, as one text for an error message.
fn member_names_text(alloc: Global, crates: &[Crate<'_, '_>]) -> Result<String, AllocError>
    ensures ok { IfOk result (λ s. string_bytes s ≡ member_names_text (members_of crates.now)) }
{
    let mut names = Vec::new(alloc);
    'crates: for found in crates {
        names.push(found.package_info.name.as_str())?;
    }
    names.as_slice().join(alloc, ", ")
}

/// The crates of this list that `--exclude` names.
fn excluded_among<'a, 'm>(
    alloc: Global,
    selection: &Selection,
    crates: &[Crate<'a, 'm>],
) -> Result<Vec<Crate<'a, 'm>>, AllocError>
    ensures ok { IfOk result (λ cs. members_of cs.items
        ≡ filter (λ m. is_among (selection_view selection.now).exclude m.name) (members_of crates.now)) }
{
    let excluded = name_set(alloc, &selection.exclude)?;
    let mut list = Vec::new(alloc);
    'crates: for found in crates {
        let keep = excluded.contains(found.package_info.name.as_str());
        push_where(keep, *found, &mut list)?;
    }
    Ok(list)
}

/// Fails with `Error::CannotExclude` where an excluded crate inherits the workspace's version, which is
/// bumped for selected crates. The error has the names of both.
fn check_excluded(
    alloc: Global,
    selection: &Selection,
    added: &[Crate<'_, '_>],
    inheriting: &[Crate<'_, '_>],
) -> CargoResult<()>
    ensures none { OnOk result (filter (λ m. is_among (selection_view selection.now).exclude m.name)
        (members_of added.now) ≡ []) }
    ensures error { IfErr result (λ e. IsMemory e
        ⊎ IsExcludeError (filter (λ m. is_among (selection_view selection.now).exclude m.name)
        (members_of added.now))
        (members_of inheriting.now) e) }
{
    let held = excluded_among(alloc, selection, added)?;
    if held.is_empty() {
        return Ok(());
    }
    let excluded = member_names_text(alloc, &held)?;
    let inheriting = member_names_text(alloc, inheriting)?;
    Err(Error::CannotExclude {
        excluded,
        inheriting,
    })
}

/// The crates that are bumped, and whether the version of the workspace is bumped.
#[derive(Drop)]
pub(crate) struct Choice<'a, 'm> {
    pub(crate) crates: Vec<Crate<'a, 'm>>,
    pub(crate) workspace: bool,
}

/// Whether the list is empty.
fn is_empty_list(crates: &[Crate<'_, '_>]) -> bool
    ensures { result ≡ (length crates.now == 0) }
{
    crates.is_empty()
}

/// The crates that are not selected but inherit the workspace's version, where a selected crate inherits it
/// too.
fn added_by_inheritance<'a, 'm>(
    alloc: Global,
    wanted: &SelectedNames,
    crates: &[Crate<'a, 'm>],
    inheriting: &[Crate<'a, 'm>],
) -> Result<Vec<Crate<'a, 'm>>, AllocError>
    ensures ok { IfOk result (λ cs. members_of cs.items ≡ (if length inheriting.now == 0 then []
        else filter (is_in Others wanted.now) (members_of crates.now))) }
{
    if is_empty_list(inheriting) {
        return Ok(Vec::new(alloc));
    }
    crates_in(alloc, Part::Others, wanted, crates)
}

/// Whether all members are selected, without any excluded.
fn is_whole_selected(selection: &Selection) -> bool
    ensures { result ≡ is_whole_selected (selection_view selection.now) }
{
    let all = selection.workspace || selection.packages.is_empty();
    all && selection.exclude.is_empty()
}

/// Chooses which members of a workspace are bumped.
///
/// These are the selected members. Where one of them inherits its version from the workspace, that version
/// is bumped too, and with it all members that inherit it. Fails with `Error::CannotExclude` where one of
/// these is excluded.
pub(crate) fn choose<'a, 'm>(
    alloc: Global,
    selection: &Selection,
    crates: &[Crate<'a, 'm>],
) -> CargoResult<Choice<'a, 'm>>
    ensures chosen { IfOk result (λ c. members_of c.crates.items
        ≡ chosen_members (selection_view selection.now) (members_of crates.now)) }
    ensures workspace { IfOk result (λ c. c.workspace
        ≡ bumps_workspace (selection_view selection.now) (members_of crates.now)) }
    ensures excluded { OnOk result (excluded_inheriting (selection_view selection.now) (members_of crates.now)
        ≡ []) }
    ensures error { IfErr result (λ e. IsMemory e
        ⊎ IsExcludeError (excluded_inheriting (selection_view selection.now) (members_of crates.now))
        (inheriting_members (selection_view selection.now) (members_of crates.now)) e) }
{
    let wanted = selected_names_of(alloc, selection)?;
    let inheriting = crates_in(alloc, Part::Inheriting, &wanted, crates)?;
    let others = added_by_inheritance(alloc, &wanted, crates, &inheriting)?;
    check_excluded(alloc, selection, &others, &inheriting)?;
    let workspace = is_whole_selected(selection) || !is_empty_list(&inheriting);
    let mut chosen = crates_in(alloc, Part::Selected, &wanted, crates)?;
    chosen.extend_from_slice(&others)?;
    Ok(Choice {
        crates: chosen,
        workspace,
    })
}
