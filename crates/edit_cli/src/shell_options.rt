//! The subcommand `shell-options`: the arguments of the scripts in `bin/`, parsed, as text for a shell to
//! evaluate.

use clap::ArgMatches;
use clap::error::ErrorKind;
use cli_machine::{filled_args, print_usage};
use edit_base::{CargoResult, Error};
use edit_shell::push_assignment;
use edit_steps::{RunError, RunResult, print_error};
use edit_words::command;
use std::alloc::{AllocError, Global};
use std::io;

/// The usage of `shell-options`.
const USAGE: &str = "shell-options upgrade|set-version ARGUMENTS..";

/// What a script does with its arguments.
#[derive(Clone, Copy)]
enum Action {
    /// It calls cargo, and then `cargo-edit` with the output of cargo.
    Run,
    /// It passes them to `cargo-edit` unchanged, since they give metadata or an index, or request the
    /// version.
    Program,
    /// It prints its help.
    Help,
}

impl Action {
    /// The value of the variable `action`.
    fn text(self) -> &'static str {
        match self {
            Action::Run => "run",
            Action::Program => "program",
            Action::Help => "help",
        }
    }
}

/// What a script does with parsed arguments.
fn action_of(matches: &ArgMatches<'_>) -> Action {
    let files = ["metadata-json", "index-file", "index-dir"];
    let names_file = files
        .iter()
        .any(|id| matches.get_str(id).is_some_and(|file| file != "-"));
    if names_file {
        Action::Program
    } else {
        Action::Run
    }
}

/// The first option that the script sets itself, if it is also among its arguments.
fn repeated_option(matches: &ArgMatches<'_>) -> Option<&'static str> {
    let own = [
        ("config", "--config <FILE>"),
        ("default-config", "--default-config <FILE>"),
        ("lock-file", "--lock-file <FILE>"),
    ];
    let given = own.iter().find(|(id, _)| matches.get_str(id).is_some());
    given.map(|(_, option)| *option)
}

/// A flag as the script passes it to cargo; empty if it is not given.
fn flag_text(is_given: bool, flag: &'static str) -> &'static str {
    if is_given { flag } else { "" }
}

/// The value of `--message-format`.
fn format_text<'a>(matches: &ArgMatches<'a>) -> &'a str {
    matches.get_str("message-format").unwrap_or("")
}

/// Whether the script gives the time, from which an age that is given or that the policy sets counts back.
fn needs_clock(subcommand: &str, matches: &ArgMatches<'_>) -> bool {
    subcommand == "upgrade" && matches.get_str("now").is_none()
}

/// Whether the script reads which rows to change: with `--interactive`, unless they are given.
fn asks(matches: &ArgMatches<'_>) -> bool {
    let interactive = matches
        .get_str("interactive")
        .is_some_and(|given| given == "true");
    interactive && matches.get_str("rows").is_none()
}

/// Whether requirements are raised only to versions that the lock file has.
fn reads_lock(subcommand: &str, matches: &ArgMatches<'_>) -> bool {
    subcommand == "upgrade" && matches.get_flag("to-lockfile")
}

/// The value of `--color` as cargo takes it; empty where it is not given, or has another value.
fn color_text(color: Option<&str>) -> &'static str {
    match color {
        Some("auto") => "auto",
        Some("always") => "always",
        Some("never") => "never",
        _ => "",
    }
}

/// Whether less than usual is printed: `-q` is given oftener than `-v`.
fn is_quiet(matches: &ArgMatches<'_>) -> bool {
    matches.get_count("quiet") > matches.get_count("verbose")
}

/// Appends the assignments of a subcommand's parsed arguments.
fn push_options(
    text: &mut Vec<u8>,
    subcommand: &str,
    matches: &ArgMatches<'_>,
) -> Result<(), AllocError> {
    let dry = matches.get_flag("dry-run") || matches.get_flag("check");
    push_assignment(text, "action", action_of(matches).text())?;
    push_assignment(
        text,
        "manifest",
        matches.get_str("manifest-path").unwrap_or(""),
    )?;
    push_assignment(text, "calls", matches.get_str("update-calls").unwrap_or(""))?;
    push_assignment(
        text,
        "locked",
        flag_text(matches.get_flag("locked"), "--locked"),
    )?;
    push_assignment(
        text,
        "offline",
        flag_text(matches.get_flag("offline"), "--offline"),
    )?;
    push_assignment(text, "dry", flag_text(dry, "yes"))?;
    let clock = needs_clock(subcommand, matches);
    push_assignment(text, "clock", flag_text(clock, "yes"))?;
    let to_lockfile = reads_lock(subcommand, matches);
    push_assignment(text, "to_lockfile", flag_text(to_lockfile, "yes"))?;
    push_assignment(text, "color", color_text(matches.get_str("color")))?;
    push_assignment(text, "ask", flag_text(asks(matches), "yes"))?;
    push_assignment(text, "quiet", flag_text(is_quiet(matches), "yes"))?;
    push_assignment(text, "format", format_text(matches))
}

/// The arguments of a subcommand, with metadata in place of those that the script adds.
fn with_metadata<'a>(
    alloc: Global,
    subcommand: &str,
    arguments: &[&'a str],
) -> Result<Vec<&'a str>, AllocError> {
    let mut all = Vec::new(alloc);
    let names_metadata = arguments
        .iter()
        .any(|argument| argument.starts_with("--metadata-json"));
    if subcommand == "set-version" && !names_metadata {
        all.push("--metadata-json=-")?;
    }
    for argument in arguments {
        all.push(*argument)?;
    }
    Ok(all)
}

/// Parses the arguments of a subcommand as the command of cargo has them; messages about usage name that
/// command.
fn parse_for_cargo<'a>(alloc: Global, args: &'a [&'a str]) -> Result<ArgMatches<'a>, clap::Error> {
    let command = command(alloc)?.bin_name("cargo")?;
    command.try_get_matches_from(args)
}

/// Prints the error of wrong arguments, without the option that the script adds, and returns the exit
/// status.
fn print_usage_error<E: io::Write>(
    alloc: Global,
    error: &clap::Error,
    err: &mut E,
) -> CargoResult<u8> {
    if error.kind() == ErrorKind::OutOfMemory {
        return Err(Error::Memory);
    }
    let text = format!(in alloc; "{error}")?;
    let text = text.replace(alloc, "[OPTIONS] --metadata-json <FILE>", "[OPTIONS]")?;
    let text = text.replace(alloc, "--metadata-json <FILE>", "[OPTIONS]")?;
    let _ = err.write_all(text.as_bytes());
    Ok(2)
}

/// Prints that an option needs one of those that name files, and returns the exit status.
fn print_repeated<E: io::Write>(option: &str, err: &mut E) -> u8 {
    let _ = writeln!(
        err,
        "error: the argument '{option}' needs '--metadata-json <FILE>', '--index-file <FILE>' or \
         '--index-dir <DIR>'\n\nFor more information, try '--help'."
    );
    2
}

/// Writes the assignments for the arguments of a subcommand, and returns the exit status.
fn write_options<O: io::Write, E: io::Write>(
    alloc: Global,
    subcommand: &str,
    arguments: &[&str],
    out: &mut O,
    err: &mut E,
) -> RunResult<u8> {
    let arguments = with_metadata(alloc, subcommand, arguments)?;
    let args = filled_args(alloc, subcommand, &arguments)?;
    let mut text = Vec::new(alloc);
    match parse_for_cargo(alloc, &args) {
        Ok(matches) => {
            if let Some((name, matches)) = matches.subcommand() {
                if matches!(action_of(matches), Action::Run)
                    && let Some(option) = repeated_option(matches)
                {
                    return Ok(print_repeated(option, err));
                }
                push_options(&mut text, name, matches)?;
            }
        }
        Err(error) => match error.kind() {
            ErrorKind::DisplayHelp => push_assignment(&mut text, "action", Action::Help.text())?,
            ErrorKind::DisplayVersion => {
                push_assignment(&mut text, "action", Action::Program.text())?;
            }
            _ => return Ok(print_usage_error(alloc, &error, err)?),
        },
    }
    match out.write_all(&text) {
        Ok(()) => Ok(0),
        Err(_) => Err(RunError::from(Error::Output)),
    }
}

/// Runs `shell-options` with these arguments, and returns the exit status: 0 done, 1 for an error, and 2
/// where the arguments are not valid for the subcommand that the first of them names.
pub(crate) fn shell_options<O: io::Write, E: io::Write>(
    alloc: Global,
    arguments: &[&str],
    out: &mut O,
    err: &mut E,
) -> u8 {
    let written = match arguments.split_first() {
        Some((subcommand, rest)) if *subcommand == "upgrade" || *subcommand == "set-version" => {
            write_options(alloc, subcommand, rest, out, err)
        }
        _ => {
            return print_usage(USAGE, err);
        }
    };
    match written {
        Ok(status) => status,
        Err(failure) => {
            let _ = print_error(alloc, &failure, err);
            1
        }
    }
}
