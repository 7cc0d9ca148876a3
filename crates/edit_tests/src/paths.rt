//! Tests of paths.
use crate::assertion_helpers::{text, text_or_error};
use crate::rows::{LINES, check_rows};
use edit_base::paths::{folder, join, normal, relative};
use std::alloc::Global;
use std::process::Abort;

/// A path, the call, and its arguments with a space between them: paths below a folder, absolute ones, a
/// folder that ends in a slash, no folder, nothing below one; parts that drop out; folders; ways from one
/// folder to another.
const PATHS: &str = "\
/w/a/Cargo.toml|join|/w a/Cargo.toml
/b|join|/w /b
/w/a|join|/w/ a
a|join| a
/w/|join|/w \n\
/|normal|/
/a/b/c|normal|/a/./b//c/
/b|normal|/a/../b
/a|normal|/../a
/|normal|/a/..
/a|folder|/a/b
/|folder|/a
/|folder|a
/|folder|
a/b|folder|a/b/
../bar|relative|/bar /foo
sibling/crate|relative|/sibling/crate /
|relative|/a/b /a/b
../..|relative|/a /a/b/c
../b|relative|/a/../b /a
c|relative|/a//b/./c /a/b/";

/// The path that a call returns.
fn path(rt: &impl Abort, alloc: Global, call: &str, argument: &str) -> String {
    let (first, second) = argument.split_once(' ').unwrap_or((argument, ""));
    match call {
        "join" => text_or_error(rt, alloc, join(alloc, first, second)),
        "normal" => text_or_error(rt, alloc, normal(alloc, first)),
        "relative" => text_or_error(rt, alloc, relative(alloc, first, second)),
        _ => text(rt, alloc, folder(first)),
    }
}

#[test]
fn paths_are_made(rt: HostRuntime) {
    check_rows(&rt, rt.alloc(), PATHS, LINES, path);
}
