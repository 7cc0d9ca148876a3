//! The arguments of each subcommand.
ghost use Rattle.std.specs.Prelude.{◌≡◌, ◌++◌, IfOk, map, true};
ghost use Rattle.clap.specs.Words.{app_of, is_simple, is_simple_and_free};
ghost use Rattle.edit_words.specs.CommandLine.{ages, choices, configurations, edit_app, outlets, places, rust_choices, selections, switches, upgrade_app};
ghost use Rattle.edit_words.specs.Tables.{IsLocal, arg_rule};

use crate::reports::reports;
use crate::rules::{ArgSpec, Form, plain, with_args};
use crate::set_version_line::set_version_command;
use clap::Command;
use std::alloc::{AllocError, Global};

/// The options that name files and the folder of an index.
fn files<'a>() -> [ArgSpec<'a>; 6]
    ensures { map arg_rule result ≡ places ++ outlets }
{
    [
        plain(
            "manifest-path",
            Form::Path("PATH"),
            "The manifest, or a folder with one",
        ),
        plain(
            "metadata-json",
            Form::Path("FILE"),
            "What `cargo metadata` says of the workspace",
        ),
        plain(
            "index-file",
            Form::Path("FILE"),
            "Index lines, as a registry's index has them",
        ),
        plain(
            "index-dir",
            Form::Path("DIR"),
            "A folder with a folder of index files for each registry",
        ),
        plain(
            "update-calls",
            Form::Path("FILE"),
            "Writes the calls of `cargo update` that follow to this file",
        ),
        plain(
            "lock-file",
            Form::Path("FILE"),
            "Leaves out of the calls what this Cargo.lock has not",
        ),
    ]
}

/// The options that name configuration files beside those that cargo finds.
fn configurations<'a>() -> [ArgSpec<'a>; 2]
    ensures { map arg_rule result ≡ configurations }
{
    [
        plain(
            "config",
            Form::Path("FILE"),
            "A configuration file of cargo that counts before all others",
        ),
        plain(
            "default-config",
            Form::Path("FILE"),
            "A configuration file of cargo that counts after all others",
        ),
    ]
}

/// What says which versions of Rust count, and the flags.
fn switches<'a>() -> [ArgSpec<'a>; 12]
    ensures { map arg_rule result ≡ rust_choices ++ switches }
{
    [
        plain(
            "rust-version",
            Form::Choice("VER"),
            "Override `rust-version`",
        ),
        plain(
            "ignore-rust-version",
            Form::Flag,
            "Ignore `rust-version` specification in packages",
        ),
        plain(
            "dry-run",
            Form::Flag,
            "Prints what would change, and changes nothing",
        )
        .short('n'),
        plain("locked", Form::Flag, "Refuses to change the manifest"),
        plain(
            "offline",
            Form::Flag,
            "Calls of `cargo update` fetch nothing",
        ),
        plain("verbose", Form::Counted, "Reports more").short('v'),
        plain("quiet", Form::Counted, "Reports less").short('q'),
        plain("never-lower", Form::Flag, "Lowers no requirement"),
        plain(
            "to-lockfile",
            Form::Flag,
            "Raise only to the versions in Cargo.lock",
        ),
        plain(
            "unify",
            Form::Flag,
            "Raises differing requirements of a crate to the highest",
        ),
        plain(
            "interactive",
            Form::Flag,
            "Lists what would change as numbered rows, and changes nothing",
        ),
        plain(
            "no-policy",
            Form::Flag,
            "Ignores the policy of the root manifest",
        ),
    ]
}

/// The options that say by when versions have to be published.
fn ages<'a>() -> [ArgSpec<'a>; 3]
    ensures { map arg_rule result ≡ ages }
{
    [
        plain(
            "published-before",
            Form::Choice("TIME"),
            "Raise only to versions published by this time, as 2026-05-01T12:00:00Z",
        ),
        plain(
            "min-age",
            Form::Choice("DAYS"),
            "Raise only to versions that are at least this many days old",
        ),
        plain(
            "now",
            Form::Choice("TIME"),
            "The time from which `--min-age` counts back",
        ),
    ]
}

/// The options that say what may be upgraded.
fn choices<'a>() -> [ArgSpec<'a>; 6]
    ensures { map arg_rule result ≡ choices }
{
    [
        plain(
            "compatible",
            Form::Choice("allow|ignore"),
            "Upgrades to the latest compatible version [without a value: allow]",
        )
        .default_value("allow"),
        plain(
            "incompatible",
            Form::Choice("allow|ignore"),
            "Upgrades to the latest incompatible version [without a value: allow]",
        )
        .short('i')
        .default_value("ignore"),
        plain(
            "pinned",
            Form::Choice("allow|ignore"),
            "Upgrades pinned requirements to the latest version [without a value: allow]",
        )
        .default_value("ignore"),
        plain(
            "level",
            Form::Choice("patch|minor|major"),
            "Upgrades only within this level of the old requirement",
        ),
        plain(
            "rows",
            Form::Choice("ROWS"),
            "Changes only these rows: numbers as 1,3-5, names, all or none",
        ),
        plain(
            "recursive",
            Form::Truth("true|false"),
            "Updates locked dependencies recursively [without a value: true]",
        ),
    ]
}

/// The options that say which entries may be upgraded.
fn selections<'a>() -> [ArgSpec<'a>; 2]
    ensures { map arg_rule result ≡ selections }
{
    [
        plain(
            "package",
            Form::List("PKGID[@<VERSION>]"),
            "Crate to be upgraded",
        )
        .short('p'),
        plain(
            "exclude",
            Form::List("PKGID"),
            "Crates to exclude and not upgrade",
        ),
    ]
}

/// What help says of the formats of an upgrade's report.
const FORMATS: &str = "How the report is printed [possible values: human, json, markdown, github]";

/// A subcommand with the arguments of `upgrade`.
fn upgrade_command<'a>(
    alloc: Global,
    name: &'a str,
    about: &'a str,
) -> Result<Command<'a>, AllocError>
    ensures { IfOk result (IsLocal (upgrade_app name.entry.now)) }
{
    let command = Ok(Command::new(alloc, name).about(about));
    let command = with_args(alloc, command, &files());
    let command = with_args(alloc, command, &configurations());
    let command = with_args(alloc, command, &switches());
    let command = with_args(alloc, command, &ages());
    let command = with_args(alloc, command, &reports("FORMAT", FORMATS));
    let command = with_args(alloc, command, &choices());
    with_args(alloc, command, &selections())
}

/// What help says of the subcommand that `clap` does not parse.
const MORE: &str =
    "More commands:\n  plan  Answers a request in JSON (see `cargo-edit plan --help`)";

/// The program's command line, made anew for each parse, which takes it over. Its help and its version are
/// texts of which no clause speaks; fails for want of memory alone.
pub fn command<'a>(alloc: Global) -> Result<Command<'a>, AllocError>
    ensures app { IfOk result (λ c. app_of c ≡ edit_app) }
    // of such a command `clap` says which matches arguments have
    ensures simple { IfOk result (λ c. is_simple (app_of c) ≡ true) }
    // and of such a one, which faults
    ensures free { IfOk result (λ c. is_simple_and_free (app_of c) ≡ true) }
{
    Command::new(alloc, "cargo-edit")
        .version("0.1.0 (behaves as cargo-edit 0.13.14)")
        .about("Edits the dependency requirements and versions of Cargo.toml files")
        .after_help(MORE)
        .no_binary_name(true)
        .bin_name("cargo-edit")?
        .propagate_version(true)
        .subcommand_required(true)
        .subcommand(upgrade_command(
            alloc,
            "upgrade",
            "Raises the dependency requirements of a manifest",
        )?)?
        .subcommand(upgrade_command(
            alloc,
            "looks",
            "Prints the index entries that an upgrade needs",
        )?)?
        .subcommand(set_version_command(alloc)?)
}
