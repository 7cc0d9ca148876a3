//! The arguments of `fetch-plan` and `fetch-store`.
ghost use Rattle.std.specs.Prelude.{◌≡◌, ◌⊎◌, IfErr, IfOk, map};
ghost use Rattle.clap.specs.Words.{HasMatchesOf};
ghost use Rattle.edit_words.specs.CommandLine.{edit_app};

use crate::parsing::{parse_args, print_parse_error, print_usage};
use clap::ArgMatches;
use edit_base::CargoResult;
use std::alloc::{AllocError, Global};
use std::io::Write;

/// The arguments of a subcommand around `curl`.
#[derive(Clone, Copy, Debug)]
pub struct FetchArguments<'a> {
    /// The folder of the cache.
    pub cache: &'a str,
    /// The folder for the transfers of this run.
    pub room: &'a str,
    /// Whether nothing may be fetched.
    pub offline: bool,
    /// A file with lookups, which are fetched instead of the lookups of the upgrade.
    pub lookups: Option<&'a str>,
    /// The arguments of the upgrade whose index entries are fetched.
    pub upgrade: &'a [&'a str],
}

/// The argument after the first occurrence of a name.
fn value_of<'a>(options: &[&'a str], name: &str) -> Option<&'a str> {
    let place = options.iter().position(|option| *option == name)?;
    let value = options.get(place + 1)?;
    Some(*value)
}

/// Reads options up to `--`; `None` where an option is unknown, has no value or is missing.
pub fn read_arguments<'a>(arguments: &'a [&'a str]) -> Option<FetchArguments<'a>> {
    let end = arguments.iter().position(|argument| *argument == "--")?;
    let options = arguments.get(..end)?;
    let upgrade = arguments.get(end + 1..)?;
    let cache = value_of(options, "--cache")?;
    let room = value_of(options, "--room")?;
    let offline = options.iter().any(|option| *option == "--offline");
    let lookups = value_of(options, "--lookups");
    let count = if offline { 5 } else { 4 };
    let count = if lookups.is_some() { count + 2 } else { count };
    if options.len() != count {
        return None;
    }
    Some(FetchArguments {
        cache,
        room,
        offline,
        lookups,
        upgrade,
    })
}

/// Prints the usage of a subcommand around `curl`, and returns the exit status of a usage error.
pub fn print_fetch_usage<E: Write>(alloc: Global, name: &str, err: &mut E) -> Result<u8, AllocError>
    ensures { IfOk result (λ s. s ≡ 2) }
{
    let usage = format!(in alloc;
        "{name} --cache DIR --room DIR [--lookups FILE] [--offline] -- UPGRADE-ARGUMENTS.."
    )?;
    Ok(print_usage(usage.as_str(), err))
}

/// The parsed arguments of an upgrade, or the exit status after the message of `clap`. The first argument
/// is `upgrade`.
pub fn upgrade_matches<'a, E: Write>(
    rt: &HostRuntime,
    args: &'a [&'a str],
    err: &mut E,
) -> CargoResult<Result<ArgMatches<'a>, u8>>
    ensures status { IfOk result (λ r. IfErr r (λ s. (s ≡ 0) ⊎ (s ≡ 2))) }
    ensures matches { IfOk result (λ r. IfOk r (HasMatchesOf edit_app (map (λ w. w.now) args.now))) }
{
    match parse_args(rt.alloc(), args) {
        Ok(matches) => Ok(Ok(matches)),
        Err(error) => Ok(Err(print_parse_error(&error, &mut rt.stdout(), err)?)),
    }
}

/// The excluded names; `None` where `--exclude` is not given.
pub fn excluded_names<'m, 'a>(matches: &'m ArgMatches<'a>) -> Option<&'m [&'a str]> {
    let (_, upgrade) = matches.subcommand()?;
    upgrade.get_strs("exclude")
}

/// The metadata file of the workspace, where one is given.
pub fn metadata_file<'a>(matches: &ArgMatches<'a>) -> Option<&'a str> {
    let (_, upgrade) = matches.subcommand()?;
    upgrade.get_str("metadata-json")
}
