//! Reads an entry of a dependency table (Cargo reference, "Specifying Dependencies").
ghost use Rattle.std.specs.Prelude.{◌≡◌, None, Some, IfOk, IfErr, codes, option_map, string_bytes};
ghost use Rattle.std.specs.BTreeMap.{btree_map_len};
ghost use Rattle.edit_base.specs.Errors.{IsMemory};
ghost use Rattle.edit_document.specs.ItemViews.{document_of, place_of, view_of};
ghost use Rattle.edit_tree.specs.DocumentViews.{tree_of};
ghost use Rattle.edit_record.specs.EntryRecords.{from_git, from_workspace};
ghost use Rattle.edit_record.specs.ReadEntries.{git_origin, member_in, names_by, options_at, origin_at, path_origin, record_of, repository, table_record, true_workspace, workspace_origin};
ghost use Rattle.edit_record.specs.RecordViews.{IsErrorOfResult, path_view, record_view, repository_view, item_tree, source_view, texts_view};

use super::Dependency;
use super::copies::to_owned_text;
use super::members::{
    bool_at, check_spelling, features_at, text_at, text_of, version_at, wrong_type,
};
use super::sources::{GitSource, PathSource, RegistrySource, Source, WorkspaceSource};
use edit_base::errors::{CargoResult, Error};
use edit_base::paths::join;
use edit_document::Item;
use std::alloc::{AllocError, Global};
use std::collections::BTreeMap;

/// Builds a Git source. Of `rev`, `tag` and `branch` the first that is there counts.
fn repository(
    alloc: Global,
    git: &str,
    branch: Option<&str>,
    tag: Option<&str>,
    rev: Option<&str>,
) -> Result<GitSource, AllocError>
    ensures { IfOk result (λ s. repository_view s ≡ repository git.now (option_map (λ s. s.now) branch.entry)
        (option_map (λ s. s.now) tag.entry) (option_map (λ s. s.now) rev.entry) None) }
{
    let branch = if tag.is_none() && rev.is_none() {
        branch
    } else {
        None
    };
    let tag = if rev.is_none() { tag } else { None };
    Ok(GitSource {
        git: String::from_str(alloc, git)?,
        branch: to_owned_text(alloc, branch)?,
        tag: to_owned_text(alloc, tag)?,
        rev: to_owned_text(alloc, rev)?,
        version: None,
    })
}

/// The source of an entry with the key `git`.
fn git_source(alloc: Global, dep: &str, table: Item<'_>, git: Item<'_>) -> CargoResult<GitSource>
    ensures ok { IfOk result (λ s. git_origin (item_tree table.entry) dep.now (view_of git.entry)
        ≡ Ok (from_git (repository_view s))) }
    ensures error { IfErr result (IsErrorOfResult
        (git_origin (item_tree table.entry) dep.now (view_of git.entry))) }
{
    let address = text_of(alloc, dep, "git", git)?;
    let branch = text_at(alloc, dep, table, "branch")?;
    let tag = text_at(alloc, dep, table, "tag")?;
    let rev = text_at(alloc, dep, table, "rev")?;
    let version = version_at(alloc, dep, table)?;
    Ok(GitSource {
        version,
        ..repository(alloc, address, branch, tag, rev)?
    })
}

/// The source of an entry with the key `path` and without `git`.
fn path_source(
    alloc: Global,
    root: &str,
    dep: &str,
    table: Item<'_>,
    path: Item<'_>,
) -> CargoResult<PathSource>
    ensures ok { IfOk result (λ s. path_origin (item_tree table.entry) root.now dep.now (view_of path.entry)
        ≡ Ok (path_view s)) }
    ensures error { IfErr result (IsErrorOfResult
        (path_origin (item_tree table.entry) root.now dep.now (view_of path.entry))) }
{
    let place = text_of(alloc, dep, "path", path)?;
    let version = version_at(alloc, dep, table)?;
    Ok(PathSource {
        path: join(alloc, root, place)?,
        version,
    })
}

/// The source of an entry with the key `workspace`; `Error::WorkspaceFalse` where it is false.
fn true_workspace(alloc: Global, dep: &str, item: Item<'_>) -> CargoResult<WorkspaceSource>
    ensures ok { IfOk result (λ _. true_workspace dep.now (view_of item.entry) ≡ Ok from_workspace) }
    ensures error { IfErr result (IsErrorOfResult (true_workspace dep.now (view_of item.entry))) }
{
    match item.as_bool() {
        Some(truth) => {
            if truth {
                return Ok(WorkspaceSource);
            }
            Err(Error::WorkspaceFalse {
                key: String::from_str(alloc, dep)?,
            })
        }
        None => Err(wrong_type(alloc, dep, "workspace", "bool", item)?),
    }
}

/// The source of an entry without the keys `git`, `path` and `version`; `Error::UnknownSource` where it has
/// no `workspace` either.
fn workspace_source(alloc: Global, dep: &str, table: Item<'_>) -> CargoResult<WorkspaceSource>
    ensures ok { IfOk result (λ _. workspace_origin dep.now
        (member_in (item_tree table.entry) (codes "workspace")) ≡ Ok from_workspace) }
    ensures error { IfErr result (IsErrorOfResult
        (workspace_origin dep.now (member_in (item_tree table.entry) (codes "workspace")))) }
{
    match table.get("workspace") {
        Some(item) => true_workspace(alloc, dep, item),
        None => Err(Error::UnknownSource {
            key: String::from_str(alloc, dep)?,
        }),
    }
}

/// The source of an entry that is a table or an inline table.
fn source_of(alloc: Global, root: &str, dep: &str, table: Item<'_>) -> CargoResult<Source>
    ensures ok { IfOk result (λ s. origin_at (item_tree table.entry) root.now dep.now ≡ Ok (source_view s)) }
    ensures error { IfErr result (IsErrorOfResult (origin_at (item_tree table.entry) root.now dep.now)) }
{
    if let Some(git) = table.get("git") {
        return Ok(Source::Git(git_source(alloc, dep, table, git)?));
    }
    if let Some(path) = table.get("path") {
        return Ok(Source::Path(path_source(alloc, root, dep, table, path)?));
    }
    if let Some(version) = table.get("version") {
        let text = text_of(alloc, dep, "version", version)?;
        return Ok(Source::Registry(RegistrySource::new(alloc, text)?));
    }
    Ok(Source::Workspace(workspace_source(alloc, dep, table)?))
}

/// The crate's name and the key if it differs: `package` and `dep`, or `dep` alone.
fn name_and_rename(
    alloc: Global,
    dep: &str,
    crate_name: Option<&str>,
) -> Result<(String, Option<String>), AllocError>
    ensures { IfOk result (λ n. (string_bytes n.0, option_map string_bytes n.1)
        ≡ names_by (option_map (λ s. s.now) crate_name.entry) dep.now) }
{
    let key = String::from_str(alloc, dep)?;
    match crate_name {
        Some(crate_name) => Ok((String::from_str(alloc, crate_name)?, Some(key))),
        None => Ok((key, None)),
    }
}

/// The keys `registry` and `features` of an entry; `Error::OldDefaultFeatures` where it has
/// `default_features`.
fn options_at(
    alloc: Global,
    dep: &str,
    table: Item<'_>,
) -> CargoResult<(Option<String>, Option<Vec<String>>)>
    ensures ok { IfOk result (λ o. options_at (item_tree table.entry) dep.now
        ≡ Ok (option_map string_bytes o.0, option_map texts_view o.1)) }
    ensures error { IfErr result (IsErrorOfResult (options_at (item_tree table.entry) dep.now)) }
{
    let registry = text_at(alloc, dep, table, "registry")?;
    check_spelling(alloc, dep, table)?;
    let features = features_at(alloc, dep, table)?;
    Ok((to_owned_text(alloc, registry)?, features))
}

/// Reads an entry that is a table or an inline table.
fn table_record(alloc: Global, root: &str, dep: &str, table: Item<'_>) -> CargoResult<Dependency>
    ensures ok { IfOk result (λ d. table_record (item_tree table.entry) root.now dep.now
        ≡ Ok (record_view d)) }
    ensures available { IfOk result (λ d. btree_map_len d.available_features ≡ 0) }
    ensures error { IfErr result (IsErrorOfResult (table_record (item_tree table.entry) root.now dep.now)) }
{
    let crate_name = text_at(alloc, dep, table, "package")?;
    let (name, rename) = name_and_rename(alloc, dep, crate_name)?;
    let source = source_of(alloc, root, dep, table)?;
    let (registry, features) = options_at(alloc, dep, table)?;
    Ok(Dependency {
        name,
        optional: bool_at(table, "optional"),
        features,
        default_features: bool_at(table, "default-features"),
        inherited_features: None,
        source: Some(source),
        registry,
        rename,
        available_features: BTreeMap::new(alloc),
    })
}

impl Dependency {
    /// Reads the entry of a dependency table under `key`; a relative `path` is joined to `crate_root`.
    ///
    /// A string is the version in a registry. Anything else has to be a table or an inline table
    /// (`Error::UnknownEntry`). `package` gives the crate's name, and `key` is then the rename. The first of
    /// `git`, `path`, `version` and `workspace` gives the source (`Error::WorkspaceFalse`,
    /// `Error::UnknownSource`). Then come `registry`, `default_features` (`Error::OldDefaultFeatures`) and
    /// `features`. A value of a wrong type is `Error::InvalidType`, except that `default-features` and
    /// `optional` are ignored where they are not booleans.
    pub fn from_toml(
        alloc: Global,
        crate_root: &str,
        key: &str,
        item: Item<'_>,
    ) -> CargoResult<Dependency>
        ensures record { IfOk result (λ d. record_of (tree_of (document_of item.entry)) (place_of item.entry)
            crate_root.now key.now ≡ Ok (record_view d)) }
        ensures available { IfOk result (λ d. btree_map_len d.available_features ≡ 0) }
        ensures error { IfErr result (IsErrorOfResult (record_of (tree_of (document_of item.entry))
            (place_of item.entry) crate_root.now key.now)) }
    {
        item.lemma_exists();
        match item.as_str() {
            Some(version) => {
                let source = RegistrySource::new(alloc, version)?;
                Ok(Dependency::new(alloc, key)?.set_source(Source::Registry(source)))
            }
            None => {
                if item.is_table_like() {
                    return table_record(alloc, crate_root, key, item);
                }
                Err(Error::UnknownEntry {
                    key: String::from_str(alloc, key)?,
                })
            }
        }
    }
}
