//! The arguments of `upgrade` and `set-version`, as the plumbing subcommands read them.
ghost use Rattle.std.specs.Prelude.{◌≡◌, ◌≢◌, ◌⊎◌, ◌∷◌, ◌↔◌, IfErr, IfOk, map};
ghost use Rattle.clap.specs.Words.{HasMatchesOf, kind_of};
ghost use Rattle.edit_base.specs.declared.errors.Error.TheVariants.{Memory, Output};
ghost use Rattle.edit_words.specs.CommandLine.{edit_app};
ghost use Rattle.edit_words.specs.Filled.{insert_defaults};

use clap::ArgMatches;
use clap::error::ErrorKind;
use edit_base::{CargoResult, Error};
use edit_words::{command, insert_defaults};
use std::alloc::{AllocError, Global};
use std::io;

/// The arguments of a command line with defaults inserted, for `parse_args`.
pub fn filled_args<'a>(
    alloc: Global,
    subcommand: &'a str,
    arguments: &[&'a str],
) -> Result<Vec<&'a str>, AllocError>
    ensures { IfOk result (λ v. map (λ w. w.now) v.items
        ≡ insert_defaults (subcommand.now ∷ map (λ w. w.now) arguments.now)) }
{
    let mut args = Vec::new(alloc);
    args.push(subcommand)?;
    args.extend_from_slice(arguments)?;
    insert_defaults(alloc, &args)
}

/// Parses arguments that begin with a subcommand of `cargo-edit`.
pub fn parse_args<'a>(alloc: Global, args: &'a [&'a str]) -> Result<ArgMatches<'a>, clap::Error>
    ensures matches { IfOk result (HasMatchesOf edit_app (map (λ w. w.now) args.now)) }
{
    let command = command(alloc)?;
    command.try_get_matches_from(args)
}

/// Prints that the arguments of a subcommand for the scripts are not accepted, with its usage, and returns
/// the exit status of a usage error.
pub fn print_usage<E: io::Write>(usage: &str, err: &mut E) -> u8
    ensures { result ≡ 2 }
{
    let _ = writeln!(
        err,
        "error: the arguments are not accepted\n\nUsage: cargo-edit {usage}"
    );
    2
}

/// Prints the message of a `clap` error, and returns the exit status: 0 for help and the version, else 2.
pub fn print_parse_error<O: io::Write, E: io::Write>(
    error: &clap::Error,
    out: &mut O,
    err: &mut E,
) -> CargoResult<u8>
    ensures status { IfOk result (λ s. (s ≡ 0) ⊎ (s ≡ 2)) }
    ensures wrong { IfOk result (λ s. (s ≡ 2) ↔ ((kind_of error.now ≢ ErrorKind.DisplayHelp)
        × (kind_of error.now ≢ ErrorKind.DisplayVersion))) }
    ensures error { IfErr result (λ e. (e ≡ Memory) ⊎ (e ≡ Output)) }
{
    if error.kind() == ErrorKind::OutOfMemory {
        return Err(Error::Memory);
    }
    if error.use_stderr() {
        let _ = write!(err, "{error}");
        return Ok(2);
    }
    match write!(out, "{error}") {
        Ok(()) => Ok(0),
        Err(_) => Err(Error::Output),
    }
}
