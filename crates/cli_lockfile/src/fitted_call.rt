//! The subcommand `next-call`: the next call of `cargo update`, fitted to the lock file as it is now. The
//! script of `cargo upgrade` runs it before each call, since the previous call may have changed the
//! lock file.
ghost use Rattle.std.specs.Prelude.{◌≡◌, ◌⊎◌, ◌≤◌, IfOk};

use crate::words::words_text;
use clap::builder::ValueParser;
use clap::{Arg, ArgAction, ArgMatches, Command};
use cli_machine::print_parse_error;
use edit_base::Error;
use edit_lock::{Lock, adapt_calls, read_calls};
use edit_report::shell_status;
use edit_shell::{push_arguments, push_assignment};
use edit_steps::{RunError, RunResult, absolute_path, at_lock, at_path, print_error};
use edit_store::Store;
use std::alloc::{AllocError, Global};
use std::io;

/// The arguments: the file of calls, the lock files, and the number of calls made.
#[derive(Clone, Copy)]
struct Next<'a> {
    calls: &'a str,
    /// The lock file before the first call.
    before: &'a str,
    lock: &'a str,
    /// The number of the previous call, from 1; 0 before the first call.
    after: usize,
    offline: bool,
}

/// A required option with a value.
pub(crate) fn required_option<'a>(
    alloc: Global,
    id: &'a str,
    value: &'a str,
    help: &'a str,
) -> Arg<'a> {
    Arg::new(alloc, id)
        .long(id)
        .help(help)
        .value_name(value)
        .action(ArgAction::Set)
        .value_parser(ValueParser::NonEmptyString)
        .required(true)
}

/// The flag for calls that must not fetch anything.
pub(crate) fn offline_flag<'a>(alloc: Global) -> Arg<'a> {
    Arg::new(alloc, "offline")
        .long("offline")
        .help("The call fetches nothing")
        .action(ArgAction::SetTrue)
}

/// The command line of `next-call`.
fn command<'a>(alloc: Global) -> Result<Command<'a>, AllocError> {
    Command::new(alloc, "next-call")
        .about(
            "Prints the next call of `cargo update` that is right against a lock file, for a shell",
        )
        .no_binary_name(true)
        .bin_name("cargo-edit next-call")?
        .arg(required_option(
            alloc,
            "calls",
            "FILE",
            "The file that `update-calls` printed",
        ))?
        .arg(required_option(
            alloc,
            "lock-before",
            "FILE",
            "The Cargo.lock as it was before the first call",
        ))?
        .arg(required_option(alloc, "lock-file", "FILE", "The Cargo.lock as it is now"))?
        .arg(required_option(
            alloc,
            "after",
            "N",
            "The number of the call before this one, from 1; 0 before the first call",
        ))?
        .arg(offline_flag(alloc))
}

/// The parsed arguments; `None` where the number is invalid.
fn next_of<'a>(matches: &ArgMatches<'a>) -> Option<Next<'a>> {
    Some(Next {
        calls: matches.get_str("calls")?,
        before: matches.get_str("lock-before")?,
        lock: matches.get_str("lock-file")?,
        after: matches.get_str("after")?.parse::<usize>().ok()?,
        offline: matches.get_flag("offline"),
    })
}

/// Reads a lock file; without packages where there is no such file.
fn read_lock<S: Store>(
    alloc: Global,
    current: &str,
    named: &str,
    files: &mut S,
) -> RunResult<Lock> {
    let path = absolute_path(alloc, current, named)?;
    let bytes = match files.read(alloc, path.as_str()) {
        Ok(Some(bytes)) => bytes,
        Ok(None) => return Ok(Lock::empty(alloc)),
        Err(error) => return Err(at_path(alloc, error, path.as_str())),
    };
    match Lock::read(alloc, &bytes) {
        Ok(lock) => Ok(lock),
        Err(error) => Err(at_lock(alloc, error, path.as_str(), &bytes)),
    }
}

/// Reads the file of calls.
fn read_file<S: Store>(
    alloc: Global,
    current: &str,
    named: &str,
    files: &mut S,
) -> RunResult<Vec<Vec<String>>> {
    let path = absolute_path(alloc, current, named)?;
    let bytes = match files.read(alloc, path.as_str()) {
        Ok(Some(bytes)) => bytes,
        Ok(None) => return Err(at_path(alloc, Error::NoPath, path.as_str())),
        Err(error) => return Err(at_path(alloc, error, path.as_str())),
    };
    let Ok(text) = std::str::from_utf8(&bytes) else {
        return Err(at_path(alloc, Error::NotUtf8, path.as_str()));
    };
    Ok(read_calls(alloc, text)?)
}

/// Shows a call on a status line, quoted for a shell.
fn print_status<E: io::Write>(
    alloc: Global,
    status: &str,
    call: &[String],
    err: &mut E,
) -> RunResult<()> {
    let text = words_text(alloc, call)?;
    match std::str::from_utf8(&text) {
        Ok(text) => Ok(shell_status(err, status, text)?),
        Err(_) => Err(RunError::from(Error::NotUtf8)),
    }
}

/// Prints a call for a shell: its number, and the arguments for cargo. A status line shows it.
fn print_call<O: io::Write, E: io::Write>(
    alloc: Global,
    number: usize,
    call: &[String],
    out: &mut O,
    err: &mut E,
) -> RunResult<()> {
    print_status(alloc, "Run", call, err)?;
    // the first argument is `cargo` itself
    let arguments = call.get(1..).unwrap_or(&[]);
    let mut text = Vec::new(alloc);
    let number = format!(in alloc; "{number}")?;
    push_assignment(&mut text, "number", number.as_str())?;
    push_arguments(&mut text, arguments)?;
    match out.write_all(&text) {
        Ok(()) => Ok(()),
        Err(_) => Err(RunError::from(Error::Output)),
    }
}

/// Prints the first call after number `next.after` with a package that is still locked; nothing if there is
/// none. A status line shows each call that is skipped.
fn print_next<S: Store, O: io::Write, E: io::Write>(
    alloc: Global,
    next: &Next<'_>,
    current: &str,
    files: &mut S,
    out: &mut O,
    err: &mut E,
) -> RunResult<()> {
    let calls = read_file(alloc, current, next.calls, files)?;
    let before = read_lock(alloc, current, next.before, files)?;
    let now = read_lock(alloc, current, next.lock, files)?;
    for index in next.after..calls.len() {
        let call = &calls[index];
        let given = &calls[index..index + 1];
        let standing = adapt_calls(alloc, given, &before, &now, next.offline)?;
        if let Some(made) = standing.first() {
            return print_call(alloc, index + 1, made, out, err);
        }
        print_status(alloc, "Skipping", call, err)?;
    }
    Ok(())
}

/// Runs `next-call` with these arguments.
fn answer<S: Store, O: io::Write, E: io::Write>(
    alloc: Global,
    arguments: &[&str],
    current: &str,
    files: &mut S,
    out: &mut O,
    err: &mut E,
) -> RunResult<u8>
    ensures { IfOk result (λ s. (s ≡ 0) ⊎ (s ≡ 2)) }
{
    let command = command(alloc)?;
    let matches = match command.try_get_matches_from(arguments) {
        Ok(matches) => matches,
        Err(error) => return Ok(print_parse_error(&error, out, err)?),
    };
    match next_of(&matches) {
        Some(next) => {
            print_next(alloc, &next, current, files, out, err)?;
            Ok(0)
        }
        None => {
            let _ = writeln!(err, "error: `--after <N>` is a number");
            Ok(2)
        }
    }
}

/// Runs `next-call` with these arguments, and returns the exit status: 0 done; 1 for an error, which is
/// printed with its place where that is known; 2 for a usage error.
pub fn next_call<S: Store, O: io::Write, E: io::Write>(
    alloc: Global,
    arguments: &[&str],
    current: &str,
    files: &mut S,
    out: &mut O,
    err: &mut E,
) -> u8
    ensures status { result ≤ 2 }
{
    match answer(alloc, arguments, current, files, out, err) {
        Ok(status) => status,
        Err(failure) => {
            let _ = print_error(alloc, &failure, err);
            1
        }
    }
}
