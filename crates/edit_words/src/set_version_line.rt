//! The subcommand `set-version` of the command line.
ghost use Rattle.std.specs.Prelude.{◌≡◌, ◌++◌, IfOk, map};
ghost use Rattle.edit_words.specs.Rules.{selections};
ghost use Rattle.edit_words.specs.SetVersionLine.{ignored_flags, members, set_version_app, sources, targets};
ghost use Rattle.edit_words.specs.Tables.{IsLocal, arg_rule};

use crate::reports::reports;
use crate::rules::{ArgSpec, Form, plain, with_args};
use clap::Command;
use std::alloc::{AllocError, Global};

/// What help says of `--bump`.
const BUMP: &str =
    "Increment manifest version [possible values: major, minor, patch, release, rc, beta, alpha]";

/// What says which versions are set, and the options that name files.
fn targets<'a>() -> [ArgSpec<'a>; 5]
    ensures { map arg_rule result ≡ targets ++ sources }
{
    [
        plain(
            "target",
            Form::Alone("TARGET"),
            "Version to change manifests to",
        ),
        plain("bump", Form::Choice("LEVEL"), BUMP),
        plain(
            "metadata",
            Form::Choice("METADATA"),
            "Specify the version metadata field (e.g. a wrapped libraries version)",
        )
        .short('m'),
        plain(
            "metadata-json",
            Form::Needed("FILE"),
            "What `cargo metadata` says of the workspace",
        ),
        plain(
            "manifest-path",
            Form::Choice("PATH"),
            "Accepted, and changes nothing",
        ),
    ]
}

/// What says which members are meant, and the flag for a dry run.
fn members<'a>() -> [ArgSpec<'a>; 5]
    ensures { map arg_rule result ≡ selections ++ members }
{
    [
        plain(
            "package",
            Form::List("PKGID"),
            "Package id of the crate to change the version of",
        )
        .short('p'),
        plain(
            "exclude",
            Form::List("PKGID"),
            "Crates to exclude and not modify",
        ),
        plain("all", Form::Flag, "[deprecated in favor of `--workspace`]"),
        plain(
            "workspace",
            Form::Flag,
            "Modify all packages in the workspace",
        ),
        plain(
            "dry-run",
            Form::Flag,
            "Print changes to be made without making them",
        )
        .short('n'),
    ]
}

/// The flags that change nothing.
fn ignored_flags<'a>() -> [ArgSpec<'a>; 4]
    ensures { map arg_rule result ≡ ignored_flags }
{
    let about = "Accepted, and changes nothing";
    [
        plain("offline", Form::Flag, about),
        plain("locked", Form::Flag, about),
        plain("verbose", Form::Counted, about).short('v'),
        plain("quiet", Form::Counted, about).short('q'),
    ]
}

/// The subcommand `set-version`.
pub(crate) fn set_version_command<'a>(alloc: Global) -> Result<Command<'a>, AllocError>
    ensures { IfOk result (IsLocal set_version_app) }
{
    let command = Ok(Command::new(alloc, "set-version").about(
        "Change a package's version in the local manifest file (i.e. Cargo.toml)",
    ));
    let command = with_args(alloc, command, &targets());
    let command = with_args(alloc, command, &members());
    let command = with_args(
        alloc,
        command,
        &reports("human|json", "How the report is printed"),
    );
    with_args(alloc, command, &ignored_flags())
}
