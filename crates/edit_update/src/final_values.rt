//! The final value of each key after an entry is updated from a `Dependency`.
ghost use Rattle.std.specs.Prelude.{◌≡◌, ◌++◌, ◌∷◌, [], List, ℕ, None, Some, IfErr, IfOk, OnOk, codes, if◌then◌else◌, map, option_copied, option_map, string_bytes};
ghost use Rattle.edit_base.specs.Errors.{IsMemory};
ghost use Rattle.edit_base.specs.Paths.{texts};
ghost use Rattle.edit_tree.specs.NewItems.{a_string, a_truth};
ghost use Rattle.edit_document.specs.NewItemViews.{new_value_view};
ghost use Rattle.edit_update.specs.FinalValueViews.{final_values_view};
ghost use Rattle.edit_update.specs.EntryUpdates.{final_values_of, ends_with_version, joined_features, source_values, removed_source_keys, package_value, all_source_values, workspace_removal};
ghost use Rattle.edit_record.specs.EntryRecords.{from_git, from_registry, from_workspace};
ghost use Rattle.edit_record.specs.NewEntries.{written_name};
ghost use Rattle.edit_record.specs.RecordViews.{path_view, record_view, repository_view, item_tree, source_view};

use crate::joined_features::joined_features;
use edit_base::errors::CargoResult;
use edit_document::{Item, NewValue};
use edit_record::dependency::path_field;
use edit_record::{Dependency, GitSource, PathSource, Source};
use std::alloc::{AllocError, Global};

/// A key of an entry with its final value; `None` where the key is removed.
#[derive(Drop)]
pub(crate) struct FinalValue {
    pub(crate) name: &'static str,
    pub(crate) value: Option<NewValue>,
}

/// Appends a key with its final value.
fn push_final_value(
    ends: &mut Vec<FinalValue>,
    name: &'static str,
    value: Option<NewValue>,
) -> Result<(), AllocError>
    ensures { OnOk result (final_values_view ends.new.items
        ≡ final_values_view ends.old.items ++ (name.now, option_map new_value_view value) ∷ []) }
{
    ends.push(FinalValue { name, value })?;
    Ok(())
}

/// Appends a key with a string as its final value; without one, the key is removed.
fn push_text(
    ends: &mut Vec<FinalValue>,
    name: &'static str,
    text: Option<&String>,
) -> Result<(), AllocError>
    ensures { OnOk result (final_values_view ends.new.items ≡ final_values_view ends.old.items
        ++ (name.now, option_map a_string (option_map string_bytes (option_copied text.entry))) ∷ []) }
{
    match text {
        Some(text) => push_final_value(ends, name, Some(NewValue::Str(text.clone()?))),
        None => push_final_value(ends, name, None),
    }
}

/// Appends a key with a boolean as its final value; without one, the key is removed.
fn push_truth(
    ends: &mut Vec<FinalValue>,
    name: &'static str,
    truth: Option<bool>,
) -> Result<(), AllocError>
    ensures { OnOk result (final_values_view ends.new.items
        ≡ final_values_view ends.old.items ++ (name.now, option_map a_truth truth) ∷ []) }
{
    match truth {
        Some(truth) => push_final_value(ends, name, Some(NewValue::Bool(truth))),
        None => push_final_value(ends, name, None),
    }
}

/// Appends keys that are removed.
fn push_removed_keys(ends: &mut Vec<FinalValue>, names: &[&'static str]) -> Result<(), AllocError>
    ensures { OnOk result (final_values_view ends.new.items
        ≡ final_values_view ends.old.items ++ map (λ n. (n, None)) (texts names.now)) }
{
    'names: for name in names {
        push_final_value(ends, name, None)?;
    }
    Ok(())
}

/// Appends the keys of a path source, with its path relative to `root`.
fn push_path(
    alloc: Global,
    root: &str,
    ends: &mut Vec<FinalValue>,
    source: &PathSource,
) -> CargoResult<()>
    ensures ok { OnOk result (final_values_view ends.new.items
        ≡ final_values_view ends.old.items ++ source_values root.now (path_view source.now)) }
    ensures error { IfErr result IsMemory }
{
    let path = path_field(alloc, root, source.path.as_str())?;
    push_final_value(ends, "path", Some(NewValue::Str(path)))?;
    push_text(ends, "version", source.version.as_ref())?;
    Ok(())
}

/// Appends the keys of a Git source.
fn push_repository(ends: &mut Vec<FinalValue>, source: &GitSource) -> Result<(), AllocError>
    ensures { OnOk result (final_values_view ends.new.items
        ≡ final_values_view ends.old.items ++ source_values [] (from_git (repository_view source.now))) }
{
    push_text(ends, "git", Some(&source.git))?;
    push_text(ends, "branch", source.branch.as_ref())?;
    push_text(ends, "tag", source.tag.as_ref())?;
    push_text(ends, "rev", source.rev.as_ref())?;
    push_text(ends, "version", source.version.as_ref())
}

/// Appends the keys of a source.
fn push_own(
    alloc: Global,
    root: &str,
    ends: &mut Vec<FinalValue>,
    source: &Source,
) -> CargoResult<()>
    ensures ok { OnOk result (final_values_view ends.new.items
        ≡ final_values_view ends.old.items ++ source_values root.now (source_view source.now)) }
    ensures error { IfErr result IsMemory }
{
    match source {
        Source::Registry(source) => push_text(ends, "version", Some(&source.version))?,
        Source::Path(source) => push_path(alloc, root, ends, source)?,
        Source::Git(source) => push_repository(ends, source)?,
        Source::Workspace(_) => push_truth(ends, "workspace", Some(true))?,
    }
    Ok(())
}

/// Appends the keys of other kinds of sources, which are removed.
fn push_other(ends: &mut Vec<FinalValue>, source: &Source) -> Result<(), AllocError>
    ensures { (root : List ℕ) → OnOk result (final_values_view ends.new.items
        ≡ final_values_view ends.old.items
        ++ removed_source_keys (source_values root (source_view source.now))) }
{
    match source {
        Source::Registry(_) => push_removed_keys(
            ends,
            &["path", "git", "branch", "tag", "rev", "workspace"],
        ),
        Source::Path(_) => push_removed_keys(ends, &["git", "branch", "tag", "rev", "workspace"]),
        Source::Git(_) => push_removed_keys(ends, &["path", "workspace"]),
        Source::Workspace(_) => push_removed_keys(
            ends,
            &["version", "path", "git", "branch", "tag", "rev"],
        ),
    }
}

/// Appends the keys of the source and of other kinds of sources, if the dependency has a source.
fn push_sources(
    dependency: &Dependency,
    alloc: Global,
    root: &str,
    ends: &mut Vec<FinalValue>,
) -> CargoResult<()>
    ensures ok { OnOk result (final_values_view ends.new.items
        ≡ final_values_view ends.old.items
        ++ all_source_values root.now (record_view dependency.now).origin) }
    ensures error { IfErr result IsMemory }
{
    if let Some(source) = &dependency.source {
        push_own(alloc, root, ends, source)?;
        push_other(ends, source)?;
    }
    Ok(())
}

/// Appends a key that is removed if the source is the workspace.
fn push_with_workspace(
    dependency: &Dependency,
    ends: &mut Vec<FinalValue>,
    name: &'static str,
) -> Result<(), AllocError>
    ensures { OnOk result (final_values_view ends.new.items
        ≡ final_values_view ends.old.items
        ++ workspace_removal name.now (record_view dependency.now).origin) }
{
    match &dependency.source {
        Some(Source::Workspace(_)) => push_final_value(ends, name, None),
        _ => Ok(()),
    }
}

/// Whether the entry finally has a key `version`.
fn ends_with_version(dependency: &Dependency, entry: Item<'_>) -> bool
    ensures { result ≡ ends_with_version (item_tree entry.entry) (record_view dependency.now).origin }
{
    match &dependency.source {
        Some(source) => source.version().is_some(),
        None => entry.get("version").is_some(),
    }
}

/// Appends the key `registry`: its value is that of the dependency if the entry finally has a version;
/// otherwise the key is removed.
fn push_registry(
    dependency: &Dependency,
    ends: &mut Vec<FinalValue>,
    entry: Item<'_>,
) -> Result<(), AllocError>
    ensures { OnOk result (final_values_view ends.new.items ≡ final_values_view ends.old.items
        ++ (
          codes "registry",
          if ends_with_version (item_tree entry.entry) (record_view dependency.now).origin
              then option_map a_string (record_view dependency.now).registry else None,
        ) ∷ []) }
{
    if ends_with_version(dependency, entry) {
        return push_text(ends, "registry", dependency.registry.as_ref());
    }
    push_final_value(ends, "registry", None)
}

/// Appends the key `package`.
fn push_package(dependency: &Dependency, ends: &mut Vec<FinalValue>) -> Result<(), AllocError>
    ensures { OnOk result (final_values_view ends.new.items ≡ final_values_view ends.old.items
        ++ package_value (written_name (record_view dependency.now)) (record_view dependency.now).origin) }
{
    match &dependency.rename {
        Some(_) => push_text(ends, "package", Some(&dependency.name)),
        None => push_with_workspace(dependency, ends, "package"),
    }
}

/// Appends the key `features`.
fn push_features(
    dependency: &Dependency,
    alloc: Global,
    ends: &mut Vec<FinalValue>,
    entry: Item<'_>,
) -> CargoResult<()>
    ensures ok { OnOk result (final_values_view ends.new.items ≡ final_values_view ends.old.items
        ++ (
          codes "features",
          option_map (joined_features (item_tree entry.entry))
              (record_view dependency.now).features,
        ) ∷ []) }
    ensures error { IfErr result IsMemory }
{
    let value = match &dependency.features {
        Some(new) => Some(joined_features(alloc, entry, new)?),
        None => None,
    };
    push_final_value(ends, "features", value)?;
    Ok(())
}

/// The final value of each key after an entry is updated from a `Dependency`, in the order of the updates.
pub(crate) fn final_values_of(
    dependency: &Dependency,
    alloc: Global,
    root: &str,
    entry: Item<'_>,
) -> CargoResult<Vec<FinalValue>>
    ensures ok { IfOk result (λ v. final_values_view v.items
        ≡ final_values_of (item_tree entry.entry) root.now (record_view dependency.now)) }
    ensures error { IfErr result IsMemory }
{
    let mut ends = Vec::new(alloc);
    push_sources(dependency, alloc, root, &mut ends)?;
    push_with_workspace(dependency, &mut ends, "registry-index")?;
    push_registry(dependency, &mut ends, entry)?;
    push_package(dependency, &mut ends)?;
    push_truth(&mut ends, "default-features", dependency.default_features)?;
    push_features(dependency, alloc, &mut ends, entry)?;
    push_truth(&mut ends, "optional", dependency.optional)?;
    Ok(ends)
}
