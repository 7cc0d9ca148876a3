//! Tests of dependency tables, by calls that no program makes.
use crate::assertion_helpers::{check_result, push, text, unwrap_alloc, unwrap_ok};
use crate::rows::{TILDES, check_rows};
use edit_document::{Step, clone_place};
use edit_manifest::Manifest;
use std::alloc::Global;
use std::process::Abort;

/// A step as a text.
fn step_text(rt: &impl Abort, alloc: Global, step: &Step) -> String {
    match step {
        Step::Key(name) => text(rt, alloc, name.as_str()),
        Step::Index(index) => unwrap_alloc(rt, format!(in alloc; "#{index}")),
    }
}

/// The steps of a place, with a slash between them.
fn steps_text(rt: &impl Abort, alloc: Global, place: &[Step]) -> String {
    let mut seen = Vec::new(alloc);
    'steps: for step in place {
        push(rt, &mut seen, step_text(rt, alloc, step));
    }
    unwrap_alloc(rt, seen.join(alloc, "/"))
}

/// The table `workspace.dependencies`.
fn workspace_dependencies(rt: &impl Abort, alloc: Global, manifest: &Manifest) -> String {
    match unwrap_ok(rt, manifest.get_workspace_dependency_table_mut(alloc)) {
        Some(place) => steps_text(rt, alloc, &place),
        None => text(rt, alloc, "none"),
    }
}

/// The dependency tables of a manifest, each followed by a semicolon.
fn tables(rt: &impl Abort, alloc: Global, manifest: &Manifest) -> String {
    let mut seen = String::new(alloc);
    'places: for place in &unwrap_ok(rt, manifest.get_dependency_tables_mut(alloc)) {
        unwrap_alloc(rt, seen.push_str(steps_text(rt, alloc, place).as_str()));
        unwrap_alloc(rt, seen.push(';'));
    }
    seen
}

/// The dependency tables of a manifest, or the table `workspace.dependencies`.
fn answer(rt: &impl Abort, alloc: Global, call: &str, source: &str) -> String {
    let manifest = unwrap_ok(rt, Manifest::read(alloc, source));
    match call {
        "shared" => workspace_dependencies(rt, alloc, &manifest),
        _ => tables(rt, alloc, &manifest),
    }
}

/// The tables in the order of a walk, member by member, and the call and the text; a row ends at `~` (Cargo
/// reference, "Specifying Dependencies", "Platform specific dependencies", "Inheriting a dependency from a
/// workspace").
const TABLES: &str = "\
target/x/build-dependencies;target/x/dependencies;target/y/dependencies;dependencies;|all|\
[target.x.build-dependencies]\n[dependencies]\n[target.y.dependencies]\n[target.x.dependencies]\n~\
workspace/dependencies|shared|[workspace.dependencies]\na = \"1\"\n~\
workspace/dependencies|shared|workspace = { dependencies = { a = \"1\" } }\n~\
none|shared|[workspace]\nmembers = []\n[dependencies]\n~\
none|shared|workspace.dependencies = 1\n~\
none|shared|workspace = 1\n~\
none|shared|[[workspace]]\n[workspace.dependencies]\n";

#[test]
fn lists_dependency_tables(rt: HostRuntime) {
    check_rows(&rt, rt.alloc(), TABLES, TILDES, answer);
}

#[test]
fn copies_a_place(rt: HostRuntime) {
    let steps = [Step::Key(text(&rt, rt.alloc(), "bin")), Step::Index(2)];
    let copy = unwrap_ok(&rt, clone_place(rt.alloc(), &steps));
    check_result(
        &rt,
        "a place",
        steps_text(&rt, rt.alloc(), &copy).as_str(),
        "bin/#2",
    );
}
