//! The program `edit_calls`: makes the edits of a manifest that its arguments name, or one call of a plan,
//! of a ranking or of a reader, and prints what it leaves or answers. It is for the checks of the gate, and
//! is not installed.
//!
//!     edit_calls FILE insert STEP.. = KEY VALUE
//!     edit_calls FILE remove STEP.. =
//!     edit_calls FILE set_value STEP.. = VALUE
//!     edit_calls FILE set_literal STEP.. = TEXT
//!     edit_calls FILE set_string STEP.. = VALUE
//!     edit_calls FILE copy =
//!     edit_calls FILE replace_entry STEP.. = ENTRY
//!     edit_calls FILE rewrite STEP.. =
//!     edit_calls FILE update STEP.. = VERSION N FEATURE ..
//!     edit_calls FILE gc_dep = KEY
//!     edit_calls FILE remove_from_table = N NAME .. KEY
//!     edit_calls FILE EDIT & EDIT ..
//!     edit_calls FILE pieces EDIT & EDIT ..
//!     edit_calls FILE show STEP.. =
//!     edit_calls FILE show STEP.. = ENTRY
//!     edit_calls FILE written ENTRY
//!
//! A step is `.NAME` or `#INDEX`. VALUE is `text TEXT`, `zeros TEXT` (with `␀` for each byte 0, which no
//! argument holds), `truth true`, `truth false` or `list N TEXT ..`; ENTRY is a VALUE, `table N NAME VALUE
//! ..` or `dotted`. `set_string` is `set_literal` of a VALUE; `copy` puts a copy in the place of the
//! document; `rewrite` reads an entry's record and replaces the entry by it; `update` gives the record
//! another version and more features, makes it optional, and updates the entry with it. Edits with an
//! argument `&` between them are made one behind the other, up to the first that is not made. It prints
//! `done`, `no such place`, or `print_edit_error`, a number and a text, and below it the text of the
//! document. Where memory ran out it then prints the kinds of what the document shows, makes the edits once
//! more, and prints the answer to that. `pieces` also prints how many pieces the document keeps its text in,
//! the text, and each piece, each behind a byte 0. `show` prints what stands at a place of the document, or
//! of a new entry: its type, how many members or elements, its truth, which views it has, its keys, and last
//! its string; of the document also whether one statement alone names the place. `written` prints how a new
//! entry is written.
//!
//!     edit_calls upgrade FOLDER
//!     edit_calls ranked FOLDER NAME
//!     edit_calls krate FOLDER NAME
//!     edit_calls set_version FOLDER
//!     edit_calls apply FOLDER
//!     edit_calls spec FILE
//!
//! The first three read `Cargo.toml` and `index.json` of the folder, and lend the call a cache that holds an
//! answer for the name `held`; where memory ran out they print how many entries the cache then has of that
//! name and of NAME, and make the call again. `set_version` plans the next minor version of each member of
//! the workspace that `metadata.json` describes, and `apply` writes that plan. `spec` reads the package
//! spec in a file. It prints the texts that a plan would write, the name in the spec, or of `ranked` the
//! first versions of the ranking and of `krate` the version of each entry, with the number of lookups so
//! far; and then `done`, or `print_edit_error`, a number and a text.
#![tactic(auto)]

mod arg_cursor;
mod cached;
mod calls;
mod counted;
mod item_views;
mod plans;
mod print_helpers;
mod readers;
mod views;

use calls::edits;
use edit_document::{CargoResult, Error};
use edit_manifest::Manifest;
use edit_store::{HostStore, Store};
use item_views::{show_by_args, show_written};
use print_helpers::print_text;
use readers::planned_call;
use std::env;
use std::io::Write;
use std::process::ExitCode;
use views::{show_pieces, show_views};

/// Prints an error and the document's current text. Returns whether memory ran out.
fn print_edit_error(rt: &HostRuntime, manifest: &Manifest, error: &Error) -> bool {
    let number = error.number();
    print_text(
        rt,
        format_args!("refused {number} {error}\n{}", manifest.document),
    );
    number == 46
}

/// Makes the edits, and prints the result and the document's current text. Returns whether memory ran out.
fn print_edited(rt: &HostRuntime, manifest: &mut Manifest, args: &[String]) -> bool {
    let said = match edits(rt.alloc(), manifest, args) {
        Ok(true) => "done",
        Ok(false) => "no such place",
        Err(error) => return print_edit_error(rt, manifest, &error),
    };
    print_text(rt, format_args!("{said}\n{}", manifest.document));
    false
}

/// Reads a manifest from a file.
fn manifest_of(rt: &HostRuntime, path: &str) -> CargoResult<Manifest> {
    let mut files = HostStore::new(rt.clone()?);
    match files.read(rt.alloc(), path)? {
        Some(bytes) => Manifest::read_bytes(rt.alloc(), &bytes),
        None => Err(Error::NoManifest),
    }
}

/// Makes the edits in the arguments, and again where memory ran out.
fn run_edits(rt: &HostRuntime, manifest: &mut Manifest, args: &[String]) {
    if print_edited(rt, manifest, args) {
        show_views(rt, &manifest.document);
        print_edited(rt, manifest, args);
    }
}

/// Makes the edits in the arguments on the manifest in a file.
fn run_edits_on_file(rt: &HostRuntime, path: &str, args: &[String]) -> CargoResult<()> {
    let mut manifest = manifest_of(rt, path)?;
    match args {
        [call, args @ ..] if call.as_str() == "show" => {
            show_by_args(rt, &manifest.document, args)
        }
        [call, args @ ..] if call.as_str() == "written" => show_written(rt, args),
        [call, args @ ..] if call.as_str() == "pieces" => {
            run_edits(rt, &mut manifest, args);
            show_pieces(rt, &manifest.document)
        }
        _ => {
            run_edits(rt, &mut manifest, args);
            Ok(())
        }
    }
}

/// Runs the call in the arguments.
fn run_args(rt: &HostRuntime) -> CargoResult<()> {
    let args: Vec<String> = env::args(rt)?.skip(1).collect(rt.alloc())?;
    if let Some(call) = planned_call(&args) {
        call.show(rt);
        return Ok(());
    }
    match args.as_slice() {
        [path, args @ ..] => run_edits_on_file(rt, path.as_str(), args),
        [] => Ok(()),
    }
}

fn main(rt: HostRuntime) -> ExitCode {
    match run_args(&rt) {
        Ok(()) => ExitCode::from(0),
        Err(error) => {
            let _ = writeln!(rt.stderr(), "Error: {error}");
            ExitCode::from(1)
        }
    }
}
