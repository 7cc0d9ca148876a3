//! Kinds of dependencies and their tables.
use crate::assertion_helpers::{text, unwrap_alloc, unwrap_ok};
use crate::rows::{LINES, check_rows};
use edit_manifest::{DepKind, DepTable};
use std::alloc::Global;
use std::process::Abort;

/// The dependency kind of this name.
fn kind_of(arg: &str) -> DepKind {
    match arg {
        "development" => DepKind::Development,
        "build" => DepKind::Build,
        _ => DepKind::Normal,
    }
}

/// The table of a kind and a target.
fn table_of(rt: &impl Abort, alloc: Global, kind: &str, target: &str) -> DepTable {
    let table = DepTable::new().set_kind(kind_of(kind));
    if target.is_empty() {
        return table;
    }
    unwrap_ok(rt, table.set_target(alloc, target))
}

/// The name of a table, and its target.
fn table_name_text(rt: &impl Abort, alloc: Global, table: &DepTable) -> String {
    let target = table
        .target
        .as_ref()
        .map_or("all", |target| target.as_str());
    unwrap_alloc(rt, format!(in alloc; "{} {target}", table.kind_table()))
}

/// The name of a table of a kind, and the target of its copy.
fn answer(rt: &impl Abort, alloc: Global, kind: &str, target: &str) -> String {
    let table = table_of(rt, alloc, kind, target);
    let copy = unwrap_ok(rt, table.try_clone(alloc));
    if copy != table {
        return text(rt, alloc, "another copy");
    }
    table_name_text(rt, alloc, &copy)
}

/// Rows: the name of the table of a kind, and its target; the kind and the target.
const KINDS: &str = "\
dependencies all|normal|
dev-dependencies all|development|
build-dependencies all|build|
dev-dependencies cfg(unix)|development|cfg(unix)";

#[test]
fn makes_tables_of_kinds(rt: HostRuntime) {
    check_rows(&rt, rt.alloc(), KINDS, LINES, answer);
    assert!(rt; DepTable::default() == DepTable::new());
    assert!(rt; DepTable::from(DepKind::Build) == DepTable::new().set_kind(DepKind::Build));
    assert!(rt; DepKind::Normal < DepKind::Development);
}
