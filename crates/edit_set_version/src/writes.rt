//! The edits of a manifest.
ghost use Rattle.std.specs.Prelude.{◌≡◌, ◌++◌, ◌∷◌, [], All, IfErr, IfOk, OnOk, codes, map, option_to_list};
ghost use Rattle.std.specs.List.{filter_map};
ghost use Rattle.semver.specs.Identifiers.{parts_of, parts_text};
ghost use Rattle.edit_base.specs.Errors.{IsMemory};
ghost use Rattle.edit_document.specs.Items.{place_view};
ghost use Rattle.edit_document.specs.Ranges.{edit_views};
ghost use Rattle.edit_manifest.specs.Versions.{package_version, shared_version};
ghost use Rattle.edit_tree.specs.Assertions.{at, key};
ghost use Rattle.edit_set_version.specs.Dependents.{HasRaisedText, dependent_of};
ghost use Rattle.edit_set_version.specs.SetVersioned.{requirement_edit};

use crate::dependents::DependentEntry;
use edit_base::CargoResult;
use edit_document::{Place, Step, member_place};
use semver::Version;
use std::alloc::{AllocError, Global};

/// An edit: a place, and the string to write there.
pub(crate) type Edit = (Place, String);

/// The edit of a requirement on a bumped crate, `None` where it does not change.
fn requirement_edit(alloc: Global, dependent: &DependentEntry<'_>) -> CargoResult<Option<Edit>>
    ensures ok { IfOk result (λ o. HasRaisedText dependent.now → edit_views (option_to_list o)
        ≡ option_to_list (requirement_edit (dependent_of dependent.now))) }
    ensures error { IfErr result IsMemory }
{
    match &dependent.risen {
        Some(text) => {
            let text = String::from_str(alloc, text.as_str())?;
            let place = member_place(alloc, &dependent.place, "version")?;
            Ok(Some((place, text)))
        }
        None => Ok(None),
    }
}

/// Appends the edit of a requirement on a bumped crate.
fn push_requirement(
    alloc: Global,
    dependent: &DependentEntry<'_>,
    edits: &mut Vec<Edit>,
) -> CargoResult<()>
    ensures ok { OnOk result (HasRaisedText dependent.now → edit_views edits.new.items
        ≡ edit_views edits.old.items ++ option_to_list (requirement_edit (dependent_of dependent.now))) }
    ensures error { IfErr result IsMemory }
{
    let edit = requirement_edit(alloc, dependent)?;
    match edit {
        Some(edit) => {
            edits.push(edit)?;
            Ok(())
        }
        None => Ok(()),
    }
}

/// Appends the edits of requirements on bumped crates, in order.
pub(crate) fn push_requirements(
    alloc: Global,
    dependents: &[DependentEntry<'_>],
    edits: &mut Vec<Edit>,
) -> CargoResult<()>
    ensures ok { OnOk result (All HasRaisedText dependents.now → edit_views edits.new.items
        ≡ edit_views edits.old.items ++ filter_map requirement_edit (map dependent_of dependents.now)) }
    ensures error { IfErr result IsMemory }
{
    'dependents: for dependent in dependents {
        push_requirement(alloc, dependent, edits)?;
    }
    Ok(())
}

/// The place of a key in the table at a place.
fn key_place(alloc: Global, place: Place, name: &str) -> Result<Place, AllocError>
    ensures { IfOk result (λ p. place_view p.items ≡ at (place_view place.items) (key name.now)) }
{
    let mut place = place;
    let name = String::from_str(alloc, name)?;
    place.push(Step::Key(name))?;
    Ok(place)
}

/// The edit that sets the `version` of the table at a place.
fn version_edit(alloc: Global, table: Place, next: &Version) -> Result<Edit, AllocError>
    ensures { IfOk result (λ e. edit_views (e ∷ [])
        ≡ (at (place_view table.items) (key (codes "version")), parts_text (parts_of next.now)) ∷ []) }
{
    let place = key_place(alloc, table, "version")?;
    let text = format!(in alloc; "{next}")?;
    Ok((place, text))
}

/// The edit of `package.version` for a bumped crate that does not inherit its version.
pub(crate) fn own_edit(alloc: Global, next: &Version) -> Result<Edit, AllocError>
    ensures { IfOk result (λ e. edit_views (e ∷ [])
        ≡ (package_version, parts_text (parts_of next.now)) ∷ []) }
{
    let table = key_place(alloc, Vec::new(alloc), "package")?;
    version_edit(alloc, table, next)
}

/// The edit of `workspace.package.version`.
pub(crate) fn shared_edit(alloc: Global, next: &Version) -> Result<Edit, AllocError>
    ensures { IfOk result (λ e. edit_views (e ∷ [])
        ≡ (shared_version, parts_text (parts_of next.now)) ∷ []) }
{
    let workspace = key_place(alloc, Vec::new(alloc), "workspace")?;
    let table = key_place(alloc, workspace, "package")?;
    version_edit(alloc, table, next)
}
