//! The subcommands `lock-lookups` and `set-backs`, for upgrades with a bound (an age, a hold, a level):
//! which packages in `Cargo.lock` are beyond the bound, and to which version each is set back.
//!
//! `lock-lookups` prints which index entries are needed for that, and `set-backs` the packages with their
//! versions. With `--report` it prints an error with the packages that are still beyond the bound.
ghost use Rattle.std.specs.Prelude.{◌≤◌, IfOk};

mod addresses;
mod bounded_lock;
mod eligible_versions;
mod lock_plan;
mod publication_times;
mod report;
mod requirements;

use crate::bounds::addresses::SourceAddresses;
use crate::bounds::bounded_lock::{BoundFiles, BoundedLock};
use cli_machine::{output, print_usage};
use edit_base::CargoResult;
use edit_lock_bounds::Outcome;
use edit_steps::{RunResult, print_error};
use edit_store::HostStore;
use std::alloc::Global;
use std::io;
use std::io::Write;

/// The usage message of both subcommands.
const USAGE: &str =
    "--lock-plan FILE --metadata-json FILE --lock-before FILE --lock-file FILE --room DIR";

/// The argument after the first occurrence of an option.
fn value_of<'a>(arguments: &[&'a str], option: &str) -> Option<&'a str> {
    let place = arguments.iter().position(|argument| *argument == option)?;
    arguments.get(place + 1).copied()
}

/// The files in the arguments; `None` if one is missing.
fn bound_files<'a>(arguments: &[&'a str]) -> Option<BoundFiles<'a>> {
    Some(BoundFiles {
        plan: value_of(arguments, "--lock-plan")?,
        metadata: value_of(arguments, "--metadata-json")?,
        before: value_of(arguments, "--lock-before")?,
        lock: value_of(arguments, "--lock-file")?,
        room: value_of(arguments, "--room")?,
    })
}

/// Prints a line for each index entry that is needed: registry address, crate name and path of the entry,
/// separated by tabs.
fn print_lookups<O: Write>(
    rt: &HostRuntime,
    files: &BoundFiles<'_>,
    current: &str,
    home: Option<&str>,
    out: &mut O,
) -> RunResult<()> {
    let mut store = HostStore::new(rt.clone()?);
    let lock = BoundedLock::read(rt.alloc(), &mut store, files, current)?;
    let addresses = SourceAddresses::read(rt.alloc(), &mut store, files, current, home, &lock)?;
    let text = addresses.lookup_lines(rt.alloc(), &lock)?;
    write_text(out, text.as_str())
}

/// Writes a text to standard output.
fn write_text<O: Write>(out: &mut O, text: &str) -> RunResult<()> {
    match out.write_all(text.as_bytes()) {
        Ok(()) => Ok(()),
        Err(_) => Err(edit_steps::RunError::from(edit_base::Error::Output)),
    }
}

/// Prints a line for each package to set back: `NAME@VERSION` and the new version. With `reports` it prints
/// an error for the packages beyond the bound instead, and returns whether there is one.
fn print_set_backs<O: Write, E: Write>(
    rt: &HostRuntime,
    files: &BoundFiles<'_>,
    current: &str,
    home: Option<&str>,
    reports: bool,
    out: &mut O,
    err: &mut E,
) -> RunResult<bool> {
    let alloc = rt.alloc();
    let mut store = HostStore::new(rt.clone()?);
    let lock = BoundedLock::read(alloc, &mut store, files, current)?;
    let addresses = SourceAddresses::read(alloc, &mut store, files, current, home, &lock)?;
    let corrections = eligible_versions::read_corrections(rt, files, current, &lock, &addresses)?;
    if reports {
        return report::print(rt, files, current, &lock, &addresses, &corrections, err);
    }
    let mut text = String::new(alloc);
    for correction in &corrections {
        if let Outcome::SetBack(version) = &correction.outcome {
            let name = correction.package.name.as_str();
            let old = correction.package.version.as_str();
            text.push_str(format!(in alloc; "{name}@{old} {version}\n")?.as_str())?;
        }
    }
    write_text(out, text.as_str())?;
    Ok(false)
}

/// Runs one of the subcommands, and returns the exit status: 1 for an error, also for packages beyond the
/// bound, and 2 for a missing argument.
pub fn lock_bounds<E: Write>(
    rt: &HostRuntime,
    name: &str,
    arguments: &[&str],
    current: &str,
    home: Option<&str>,
    err: &mut E,
) -> CargoResult<u8>
    ensures status { IfOk result (λ s. s ≤ 2) }
{
    let Some(files) = bound_files(arguments) else {
        let usage = format!(in rt.alloc(); "{name} {USAGE}")?;
        return Ok(print_usage(usage.as_str(), err));
    };
    let mut out = output(rt)?;
    let reports = arguments.iter().any(|argument| *argument == "--report");
    let done = if name == "lock-lookups" {
        print_lookups(rt, &files, current, home, &mut out).map(|_| false)
    } else {
        print_set_backs(rt, &files, current, home, reports, &mut out, err)
    };
    let _ = out.flush();
    match done {
        Ok(is_left) => Ok(if is_left { 1 } else { 0 }),
        Err(error) => {
            let _ = print_error(rt.alloc(), &error, err);
            Ok(1)
        }
    }
}
