//! Tests of errors in an input other than the first. The others are in
//! `tests/cases/upgrade/error_places.toml`.
use crate::assertion_helpers::{push, text, unwrap_alloc};
use crate::rows::{TILDES, check_rows};
use edit_base::Error;
use edit_metadata::Input;
use edit_steps::{RunError, at_input};
use std::alloc::Global;
use std::process::Abort;

/// An input from its path and the contents of its file, where `!` stands for a byte that no UTF-8 character
/// begins with.
fn input_of(rt: &impl Abort, alloc: Global, row: &str) -> Input {
    let (path, held) = row.split_once(' ').unwrap_or((row, ""));
    let bytes = if held == "!" {
        b"\xff".as_slice()
    } else {
        held.as_bytes()
    };
    Input {
        name: String::new(alloc),
        path: text(rt, alloc, path),
        bytes: unwrap_alloc(rt, bytes.to_vec(alloc)),
        rust_version: None,
    }
}

/// The error with a name; any other name is that of a text that is no manifest, at the byte with its length.
fn error_by_name(arg: &str) -> Error {
    match arg {
        "utf8" => Error::NotUtf8,
        "path" => Error::NoPath,
        arg => Error::NotToml { at: arg.len() },
    }
}

/// The inputs of a row.
fn inputs_of(rt: &impl Abort, alloc: Global, rows: &str) -> Vec<Input> {
    let mut all = Vec::new(alloc);
    'inputs: for row in rows.split(';') {
        push(rt, &mut all, input_of(rt, alloc, row));
    }
    all
}

/// The file, line and column of an error, without the excerpt; `-` for none.
fn place_text(rt: &impl Abort, alloc: Global, failure: &RunError) -> String {
    match &failure.place {
        Some(place) => {
            let (place, _excerpt) = place.split_once('\n').unwrap_or((place.as_str(), ""));
            text(rt, alloc, place)
        }
        None => text(rt, alloc, "-"),
    }
}

/// The place of an error of a plan over inputs.
fn place_of(rt: &impl Abort, alloc: Global, arg: &str, inputs: &str) -> String {
    let all = inputs_of(rt, alloc, inputs);
    let failure = at_input(alloc, error_by_name(arg), &all);
    place_text(rt, alloc, &failure)
}

/// Rows: the place; the error; the inputs.
const PLACES: &str = "\
/b/Cargo.toml:1:1||/a/Cargo.toml !;/b/Cargo.toml =\
~/b/Cargo.toml|utf8|/a/Cargo.toml =;/b/Cargo.toml !\
~-|path|/a/Cargo.toml =\
~-|utf8|/a/Cargo.toml =";

#[test]
fn locates_errors(rt: HostRuntime) {
    check_rows(&rt, rt.alloc(), PLACES, TILDES, place_of);
}
