//! The subcommand `fetch-plan`: lists the index entries that are fetched.

mod registry_errors;

use clap::ArgMatches;
use cli_machine::{
    FetchArguments, all_configs, excluded_names, filled_args, git_protocol_place, index_files,
    metadata_file, network_settings, print_fetch_usage, read_arguments, upgrade_matches,
    write_configurations,
};
use edit_base::paths::join;
use edit_base::{CargoResult, DeviceCall, Error};
use edit_fetch::{FetchPlan, NetSettings};
use edit_program::run;
use edit_store::{HostStore, Store};
use registry_errors::{Definitions, unfetchable_error};
use std::io::Write;
use std::str;

/// Runs `fetch-plan`, and returns the exit status: the status of `looks` if that is not 0, else 1 if entries
/// of a registry cannot be fetched, and 2 for a usage error.
pub(crate) fn fetch_plan<E: Write>(
    rt: &HostRuntime,
    arguments: &[&str],
    current: &str,
    home: Option<&str>,
    err: &mut E,
) -> CargoResult<u8> {
    let Some(arguments) = read_arguments(arguments) else {
        return Ok(print_fetch_usage(rt.alloc(), "fetch-plan", err)?);
    };
    let args = filled_args(rt.alloc(), "upgrade", arguments.upgrade)?;
    let matches = match upgrade_matches(rt, &args, err)? {
        Ok(matches) => matches,
        Err(status) => return Ok(status),
    };
    match plan_upgrade(rt, &arguments, &matches, current, home, err) {
        Err(Error::Device(DeviceCall::Write)) => {
            let _ = writeln!(
                err,
                "Error: the cache could not be written, at {}",
                arguments.room
            );
            Ok(1)
        }
        other => other,
    }
}

/// Plans the transfers of an upgrade, and returns the exit status.
fn plan_upgrade<E: Write>(
    rt: &HostRuntime,
    arguments: &FetchArguments<'_>,
    matches: &ArgMatches<'_>,
    current: &str,
    home: Option<&str>,
    err: &mut E,
) -> CargoResult<u8> {
    let mut files = HostStore::new(rt.clone()?);
    let room = join(rt.alloc(), current, arguments.room)?;
    let all = all_configs(rt, &mut files, metadata_file(matches), current, home)?;
    let git_place = git_protocol_place(rt, &mut files, &all)?;
    let git_place = git_place.as_deref();
    let environment = write_configurations(rt, &mut files, room.as_str(), &all, git_place)?;
    let mut text = Vec::new(rt.alloc());
    let status = lookups_text(rt, arguments, current, home, &mut text, err)?;
    if status != 0 {
        return Ok(status);
    }
    let Ok(text) = str::from_utf8(&text) else {
        return Err(Error::NotUtf8);
    };
    let mut settings = network_settings(rt, &mut files, current, home)?;
    settings.offline = settings.offline || arguments.offline;
    write_retries(rt, &mut files, room.as_str(), &settings)?;
    let excluded = excluded_names(matches).unwrap_or(&[]);
    let definitions = Definitions {
        environment: &environment,
        configs: &all,
        git_place,
    };
    if !settings.offline
        && let Some(error) = unfetchable_error(rt, text, excluded, definitions)?
    {
        let _ = writeln!(err, "Error: {error}");
        return Ok(1);
    }
    let count = plan_lookups(rt, &mut files, arguments, current, &settings, text)?;
    print_count(rt, count, err)
}

/// Writes how often a failed transfer is tried again into the file `retry` in the folder of this run.
fn write_retries(
    rt: &HostRuntime,
    files: &mut HostStore<HostRuntime>,
    room: &str,
    settings: &NetSettings,
) -> CargoResult<()> {
    let path = join(rt.alloc(), room, "retry")?;
    let text = settings.retry.to_string(rt.alloc())?;
    files.write(rt.alloc(), path.as_str(), text.as_bytes())
}

/// Appends the lookups of the file of `--lookups`, if it is given, else the lookups of the upgrade, and
/// returns the exit status.
fn lookups_text<E: Write>(
    rt: &HostRuntime,
    arguments: &FetchArguments<'_>,
    current: &str,
    home: Option<&str>,
    text: &mut Vec<u8>,
    err: &mut E,
) -> CargoResult<u8> {
    let Some(named) = arguments.lookups else {
        return upgrade_lookups(rt, arguments, current, home, text, err);
    };
    let path = join(rt.alloc(), current, named)?;
    match HostStore::new(rt.clone()?).read(rt.alloc(), path.as_str())? {
        Some(bytes) => text.extend_from_slice(&bytes)?,
        None => return Err(Error::NoPath),
    }
    Ok(0)
}

/// Runs `looks` with the arguments of the upgrade, appends its output to `text`, and returns the exit
/// status.
fn upgrade_lookups<E: Write>(
    rt: &HostRuntime,
    arguments: &FetchArguments<'_>,
    current: &str,
    home: Option<&str>,
    text: &mut Vec<u8>,
    err: &mut E,
) -> CargoResult<u8> {
    let mut args = Vec::new(rt.alloc());
    args.push("looks")?;
    for argument in arguments.upgrade {
        args.push(*argument)?;
    }
    let mut files = HostStore::new(rt.clone()?);
    let index_files = index_files(rt, current, None)?;
    Ok(run(
        rt.alloc(),
        &args,
        current,
        home,
        &mut files,
        index_files,
        text,
        err,
    ))
}

/// Plans the transfers of lookups, and returns their number; `None` where the lookups cannot be parsed.
fn plan_lookups(
    rt: &HostRuntime,
    files: &mut HostStore<HostRuntime>,
    arguments: &FetchArguments<'_>,
    current: &str,
    settings: &NetSettings,
    text: &str,
) -> CargoResult<Option<usize>> {
    let cache = join(rt.alloc(), current, arguments.cache)?;
    let room = join(rt.alloc(), current, arguments.room)?;
    let plan = FetchPlan {
        cache: cache.as_str(),
        room: room.as_str(),
        settings,
        tokens: &[],
        withheld: &[],
    };
    edit_fetch::fetch_plan(rt.alloc(), files, &plan, text)
}

/// Prints the number of transfers, and returns the exit status; `None` is an error.
fn print_count<E: Write>(rt: &HostRuntime, count: Option<usize>, err: &mut E) -> CargoResult<u8> {
    match count {
        Some(count) => match writeln!(rt.stdout(), "{count}") {
            Ok(()) => Ok(0),
            Err(_) => Err(Error::Output),
        },
        None => {
            let _ = writeln!(err, "Error: the lookups cannot be read");
            Ok(1)
        }
    }
}
