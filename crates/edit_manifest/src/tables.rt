//! Finds the dependency tables of a manifest.
ghost use Rattle.std.specs.Prelude.{◌≡◌, ◌++◌, IfErr, IfOk, OnOk, map, option_map};
ghost use Rattle.edit_base.specs.Errors.{IsMemory};
ghost use Rattle.edit_base.specs.Paths.{texts};
ghost use Rattle.edit_document.specs.Items.{place_view};
ghost use Rattle.edit_tree.specs.DocumentViews.{tree_of};
ghost use Rattle.edit_manifest.specs.Places.{places_view};
ghost use Rattle.edit_manifest.specs.Tables.{dependency_tables, workspace_table_keys, table_at, tables_at, tables_of_target, tables_under, target_tables};

use crate::dep_table::{NORMAL, is_kind};
use crate::key_places::place_of;
use crate::manifest::Manifest;
use edit_base::errors::CargoResult;
use edit_document::{Document, Place};
use std::alloc::{AllocError, Global};

/// The place that these keys lead to, if it is a table or an inline table.
fn table_at(alloc: Global, document: &Document, names: &[&str]) -> Result<Option<Place>, AllocError>
    ensures ok { IfOk result (λ o. option_map (λ p. place_view p.items) o
        ≡ table_at (tree_of document.now) (texts names.now)) }
{
    let place = place_of(alloc, names)?;
    let Some(item) = document.item(&place) else {
        return Ok(None);
    };
    if item.is_table_like() {
        return Ok(Some(place));
    }
    Ok(None)
}

/// Appends the place that these keys lead to, if it is a table or an inline table.
fn push_table(
    alloc: Global,
    document: &Document,
    names: &[&str],
    tables: &mut Vec<Place>,
) -> Result<(), AllocError>
    ensures ok { OnOk result (places_view tables.new.items
        ≡ places_view tables.old.items ++ tables_at (tree_of document.now) (texts names.now)) }
{
    let table = table_at(alloc, document, names)?;
    match table {
        Some(place) => {
            tables.push(place)?;
            Ok(())
        }
        None => Ok(()),
    }
}

/// Appends the dependency tables of a target, in the order of its keys.
fn push_target(
    alloc: Global,
    document: &Document,
    target: &str,
    tables: &mut Vec<Place>,
) -> Result<(), AllocError>
    ensures ok { OnOk result (places_view tables.new.items
        ≡ places_view tables.old.items ++ tables_of_target (tree_of document.now) target.now) }
{
    let place = place_of(alloc, &["target", target])?;
    let Some(item) = document.item(&place) else {
        return Ok(());
    };
    'names: for name in item.keys() {
        if is_kind(name) {
            push_table(alloc, document, &["target", target, name], tables)?;
        }
    }
    Ok(())
}

/// Appends the dependency tables of all targets, target by target.
fn push_targets(
    alloc: Global,
    document: &Document,
    tables: &mut Vec<Place>,
) -> Result<(), AllocError>
    ensures ok { OnOk result (places_view tables.new.items
        ≡ places_view tables.old.items ++ target_tables (tree_of document.now)) }
{
    let place = place_of(alloc, &["target"])?;
    let Some(item) = document.item(&place) else {
        return Ok(());
    };
    'targets: for target in item.keys() {
        push_target(alloc, document, target, tables)?;
    }
    Ok(())
}

/// Appends `workspace.dependencies`, if it is a table or an inline table.
fn push_shared(
    alloc: Global,
    document: &Document,
    tables: &mut Vec<Place>,
) -> Result<(), AllocError>
    ensures ok { OnOk result (places_view tables.new.items
        ≡ places_view tables.old.items ++ tables_at (tree_of document.now) workspace_table_keys) }
{
    let names = ["workspace", NORMAL];
    push_table(alloc, document, &names, tables)
}

/// Appends the dependency tables at or below a key of the root.
fn push_under(
    alloc: Global,
    document: &Document,
    name: &str,
    tables: &mut Vec<Place>,
) -> Result<(), AllocError>
    ensures ok { OnOk result (places_view tables.new.items
        ≡ places_view tables.old.items ++ tables_under (tree_of document.now) name.now) }
{
    if is_kind(name) {
        return push_table(alloc, document, &[name], tables);
    }
    if name == "workspace" {
        return push_shared(alloc, document, tables);
    }
    if name == "target" {
        return push_targets(alloc, document, tables);
    }
    Ok(())
}

/// The places of the dependency tables of a document, in the order of its keys from the root down: the
/// tables of the three kinds, `workspace.dependencies`, and the tables of the three kinds of each target.
pub fn dependency_tables(alloc: Global, document: &Document) -> CargoResult<Vec<Place>>
    ensures ok { IfOk result (λ ps. places_view ps.items ≡ dependency_tables (tree_of document.now)) }
    ensures error { IfErr result IsMemory }
{
    let mut tables = Vec::new(alloc);
    let Some(root) = document.item(&[]) else {
        return Ok(tables);
    };
    'names: for name in root.keys() {
        push_under(alloc, document, name, &mut tables)?;
    }
    Ok(tables)
}

impl Manifest {
    ghost use Rattle.edit_manifest.specs.Tables.{workspace_table_keys};

    /// The places of the dependency tables, in the order of the manifest's keys from the root down.
    pub fn get_dependency_tables_mut(&self, alloc: Global) -> CargoResult<Vec<Place>>
        ensures ok { IfOk result
            (λ ps. places_view ps.items ≡ dependency_tables (tree_of self.now.document)) }
        ensures error { IfErr result IsMemory }
    {
        dependency_tables(alloc, &self.document)
    }

    /// The place of `workspace.dependencies`, if it is a table or an inline table.
    pub fn get_workspace_dependency_table_mut(&self, alloc: Global) -> CargoResult<Option<Place>>
        ensures ok { IfOk result (λ o. option_map (λ p. place_view p.items) o
            ≡ table_at (tree_of self.now.document) workspace_table_keys) }
        ensures error { IfErr result IsMemory }
    {
        let names = ["workspace", NORMAL];
        Ok(table_at(alloc, &self.document, &names)?)
    }
}
