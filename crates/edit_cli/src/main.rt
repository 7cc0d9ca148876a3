//! The program `cargo-edit`.
#![tactic(auto)]

mod failures;
mod fetch_plan;
mod fetch_steps;
mod lock_plan;
mod lock_plan_json;
mod plan;
mod script_commands;
mod shell_options;
mod unpublished;

use clap::ArgMatches;
use cli_machine::{
    Folders, ReportOptions, at_listed_file, cargo_home, errors, fault_of, index_files,
    index_folder, machine_error, output, report_errors, report_output,
};
use edit_base::{CargoResult, Error};
use edit_program::{RunFolders, try_run};
use edit_store::HostStore;
use edit_words::{command, insert_defaults};
use failures::end_with;
use script_commands::{run_fileless, run_own};
use std::io::{ErrorKind, Write};
use std::process::ExitCode;
use std::{env, process};

/// The folders of a run that needs no file.
const NO_FOLDERS: Folders<'static> = Folders {
    current: "/",
    home: None,
};

/// The options of a report that were not parsed.
const NO_OPTIONS: ReportOptions<'static> = ReportOptions {
    format: None,
    color: None,
};

/// The message where there is no current folder.
const NO_CURRENT: &str = "the current folder is not there, or its path is not UTF-8";

/// The message where the home folder of cargo cannot be determined.
const NO_HOME: &str = "the environment variable CARGO_HOME or HOME is not UTF-8";

fn main(rt: HostRuntime) -> ExitCode {
    match start(&rt) {
        Ok(status) => ExitCode::from(status),
        Err(error) => {
            print_start_error(&rt, &error);
            ExitCode::from(1)
        }
    }
}

/// The place of an error outside of a subcommand, if it has one.
fn place_of(error: &Error) -> Option<&'static str> {
    match error {
        Error::Output => Some("standard output"),
        Error::Io(_) => Some("the arguments"),
        _ => None,
    }
}

/// Prints the error that ends the program, with its place; where memory runs out for that, `Error::Memory`.
fn print_start_error(rt: &HostRuntime, error: &Error) {
    match errors(rt) {
        Ok(mut err) => {
            let _ = writeln!(err, "Error: {error}");
            if let Some(place) = place_of(error) {
                let _ = writeln!(err, "  at {place}");
            }
        }
        Err(_) => {
            let _ = writeln!(rt.stderr(), "Error: {}", Error::Memory);
        }
    }
}

/// Prints what is wrong with the arguments or the environment, and returns the exit status of a usage
/// error.
fn print_usage_error(rt: &HostRuntime, fault: &str) -> CargoResult<u8> {
    let mut err = errors(rt)?;
    let _ = writeln!(err, "error: {fault}\n\nFor more information, try '--help'.");
    Ok(2)
}

/// Runs the program with its arguments, and returns the exit status. Arguments that need no file, as
/// `--help`, need no current folder and no environment.
fn start(rt: &HostRuntime) -> CargoResult<u8> {
    let args = match env::args(rt) {
        Ok(args) => args,
        Err(error) if error.kind() == ErrorKind::InvalidData => {
            return print_usage_error(rt, "invalid UTF-8 was detected in one or more arguments");
        }
        Err(error) => return Err(machine_error(error)),
    };
    let args: Vec<String> = args.skip(1).collect(rt.alloc())?;
    let texts: Vec<&str> = args.iter().map(|arg| arg.as_str()).collect(rt.alloc())?;
    let args = texts.as_slice();
    match args.first().copied() {
        Some(
            "check-curl"
            | "credential-reply"
            | "error-message"
            | "plan"
            | "shell-options"
            | "shell-words",
        ) => return run_fileless(rt, args),
        Some(
            "credential-probes"
            | "credential-request"
            | "fetch-config"
            | "fetch-plan"
            | "fetch-retry"
            | "fetch-round"
            | "fetch-store"
            | "lock-lookups"
            | "lock-plan"
            | "next-call"
            | "set-backs"
            | "update-calls",
        ) => {
            return start_in(rt, args, None);
        }
        _ => {}
    }
    let filled = insert_defaults(rt.alloc(), args)?;
    let command = command(rt.alloc())?;
    let matches = match command.try_get_matches_from(filled.as_slice()) {
        Ok(matches) => matches,
        Err(_) => return run_at(rt, args, NO_FOLDERS, NO_OPTIONS, None),
    };
    start_in(rt, args, matches.subcommand())
}

/// Runs these arguments in the current folder. `matches` are the parsed arguments of a subcommand of
/// `edit_program`.
fn start_in(
    rt: &HostRuntime,
    args: &[&str],
    matches: Option<(&str, &ArgMatches<'_>)>,
) -> CargoResult<u8> {
    let current = match env::current_dir(rt) {
        Ok(current) => current,
        Err(error) if error.kind() == ErrorKind::OutOfMemory => return Err(Error::Memory),
        Err(_) => return print_usage_error(rt, NO_CURRENT),
    };
    match current.as_path().to_str() {
        Some(current) => start_at(rt, args, current, matches),
        None => print_usage_error(rt, NO_CURRENT),
    }
}

/// Runs these arguments in a given folder.
fn start_at(
    rt: &HostRuntime,
    args: &[&str],
    current: &str,
    matches: Option<(&str, &ArgMatches<'_>)>,
) -> CargoResult<u8> {
    let home = match cargo_home(rt) {
        Ok(home) => home,
        Err(Error::NotUtf8) => return print_usage_error(rt, NO_HOME),
        Err(error) => return Err(error),
    };
    let home = home.as_deref();
    dispatch(rt, args, Folders::new(current, home), matches)
}

/// Runs these arguments in a given folder, with the home folder of cargo if it is known.
fn dispatch(
    rt: &HostRuntime,
    args: &[&str],
    folders: Folders<'_>,
    matches: Option<(&str, &ArgMatches<'_>)>,
) -> CargoResult<u8> {
    match matches {
        Some((name, matches)) => run_checked(rt, args, folders, name, matches),
        None => run_own(rt, args, folders),
    }
}

/// Runs a subcommand of `edit_program`, after its paths are checked.
fn run_checked(
    rt: &HostRuntime,
    args: &[&str],
    folders: Folders<'_>,
    name: &str,
    matches: &ArgMatches<'_>,
) -> CargoResult<u8> {
    if name == "upgrade" {
        if let Some(fault) = fault_of(rt, matches, folders)? {
            return print_usage_error(rt, fault.as_str());
        }
    }
    let options = ReportOptions {
        format: matches.get_str("message-format"),
        color: matches.get_str("color"),
    };
    let index = if name == "upgrade" {
        index_folder(matches)
    } else {
        None
    };
    run_at(rt, args, folders, options, index)
}

/// Runs a subcommand of `edit_program`, with streams for a report with these options, and with the index in
/// this folder or list.
fn run_at(
    rt: &HostRuntime,
    args: &[&str],
    folders: Folders<'_>,
    options: ReportOptions<'_>,
    index: Option<&str>,
) -> CargoResult<u8> {
    let mut files = HostStore::for_process(rt.clone()?, process::id(rt.process()));
    let index_files = index_files(rt, folders.current, index)?;
    let mut out = report_output(rt, options)?;
    let mut err = report_errors(rt, options)?;
    let place = RunFolders {
        current: folders.current,
        cargo_home: folders.home,
    };
    let result = try_run(
        rt.alloc(),
        args,
        &place,
        &mut files,
        index_files,
        &mut out,
        &mut err,
    );
    let status = match result {
        Ok(status) => status,
        Err(failure) => {
            let failure = at_listed_file(rt, folders.current, index, failure);
            end_with(rt.alloc(), failure, options.is_json(), &mut out, &mut err)
        }
    };
    let is_printed = out.flush().is_ok();
    let _ = err.flush();
    if is_printed || status != 0 {
        Ok(status)
    } else {
        Err(Error::Output)
    }
}
