//! The names that `--package` arguments select and that no entry has.
ghost use Rattle.std.specs.Prelude.{◌≡◌, ◌≢◌, ◌&&◌, ◌||◌, ◌++◌, [], ◌∷◌, ℕ, List, if◌then◌else◌, IfErr, IfOk, OnOk, filter, map, not, string_bytes};
ghost use Rattle.std.specs.BTreeSet.{contains_text};
ghost use Rattle.std.specs.List.{list_any};
ghost use Rattle.std.specs.Str.{bytes_eq};
ghost use Rattle.edit_base.specs.declared.errors.Error.TheVariants as error;
ghost use Rattle.edit_manifest.specs.EntryViews.{entry_view};
ghost use Rattle.edit_upgrade.specs.Missing.{names_in};
ghost use Rattle.edit_upgrade.specs.EntrySelection.{is_named, package_args_of};

use crate::names::{Names, add_name};
use crate::parsed_options::{ParsedOptions, is_named};
use edit_base::CargoResult;
use edit_manifest::entries::{Entry, ReadEntry};
use std::alloc::{AllocError, Global};

/// Adds the name of an entry to the set of known names, where a `--package` argument selects it.
fn add_entry(
    alloc: Global,
    parsed: ParsedOptions<'_>,
    entry: &Entry,
    known: &mut Names,
) -> Result<(), AllocError>
    ensures ok { OnOk result ((name : List ℕ) → contains_text known.new name
        ≡ (contains_text known.old name || (is_named (package_args_of parsed.entry.options.now) name
        && list_any (bytes_eq name) (names_in (entry_view entry.now ∷ []))))) }
{
    let ReadEntry::Read(dependency) = &entry.said else {
        return Ok(());
    };
    let name = dependency.name.as_str();
    if is_named(parsed, name) {
        add_name(alloc, known, name)?;
    }
    Ok(())
}

/// Adds the names of the entries that `--package` arguments select to the set of known names.
pub(crate) fn add_names(
    alloc: Global,
    parsed: ParsedOptions<'_>,
    found: &[Entry],
    known: &mut Names,
) -> Result<(), AllocError>
    ensures ok { OnOk result ((name : List ℕ) → contains_text known.new name
        ≡ (contains_text known.old name || (is_named (package_args_of parsed.entry.options.now) name
        && list_any (bytes_eq name) (names_in (map entry_view found.now))))) }
{
    'found: for entry in found {
        add_entry(alloc, parsed, entry, known)?;
    }
    Ok(())
}

/// Adds a name to the missing ones, unless it is known.
fn push_unknown(
    alloc: Global,
    known: &Names,
    missing: &mut Vec<String>,
    name: &str,
) -> Result<(), AllocError>
    ensures ok { OnOk result (map string_bytes missing.new.items ≡ map string_bytes missing.old.items
        ++ (if contains_text known.now name.now then [] else name.now ∷ [])) }
{
    if known.contains(name) {
        return Ok(());
    }
    let name = String::from_str(alloc, name)?;
    missing.push(name)?;
    Ok(())
}

/// The names of this list that are not known, in the order of the list.
pub(crate) fn unknown_names(
    alloc: Global,
    names: &[String],
    known: &Names,
) -> CargoResult<Vec<String>>
    ensures ok { IfOk result (λ v. map string_bytes v.items
        ≡ filter (λ name. not (contains_text known.now name)) (map string_bytes names.now)) }
    ensures error { IfErr result (λ e. (e ≡ error.Memory) × (names.now ≢ [])) }
{
    let mut missing = Vec::new(alloc);
    'names: for name in names {
        push_unknown(alloc, known, &mut missing, name.as_str())?;
    }
    Ok(missing)
}
