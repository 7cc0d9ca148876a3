//! The subcommands `fetch-store`, which stores the index entries that curl fetched, and `check-curl`.
ghost use Rattle.std.specs.Prelude.{◌≡◌, ◌≤◌, IfOk};
ghost use Rattle.edit_answers.specs.CurlVersion.{IsNewEnough};

use cli_credentials::note_answers;
use cli_machine::{
    FetchArguments, excluded_names, filled_args, print_fetch_usage, read_arguments, upgrade_matches,
};
use edit_answers::{
    CacheFolder, CacheStore, Places, Report, StoreOptions, is_new_enough, prune, store_answers,
};
use edit_base::paths::join;
use edit_base::{CargoResult, DeviceCall, Error};
use std::io::Write;
use std::process;

/// Runs `fetch-store`, and returns the exit status: 1 if an entry is neither fetched nor cached, and 2 for
/// a usage error.
pub fn fetch_store<E: Write>(
    rt: &HostRuntime,
    arguments: &[&str],
    current: &str,
    err: &mut E,
) -> CargoResult<u8>
    ensures status { IfOk result (λ s. s ≤ 2) }
{
    let Some(arguments) = read_arguments(arguments) else {
        return Ok(print_fetch_usage(rt.alloc(), "fetch-store", err)?);
    };
    let args = filled_args(rt.alloc(), "upgrade", arguments.upgrade)?;
    let matches = match upgrade_matches(rt, &args, err)? {
        Ok(matches) => matches,
        Err(status) => return Ok(status),
    };
    let options = StoreOptions {
        offline: arguments.offline,
        excluded: excluded_names(&matches).unwrap_or(&[]),
    };
    store(rt, &arguments, &options, current, err)
}

/// Stores the answers of a run, reports missing entries, removes entries unused for long, and returns the
/// exit status.
fn store<E: Write>(
    rt: &HostRuntime,
    arguments: &FetchArguments<'_>,
    options: &StoreOptions<'_>,
    current: &str,
    err: &mut E,
) -> CargoResult<u8>
    ensures status { IfOk result (λ s. s ≤ 1) }
{
    let cache = join(rt.alloc(), current, arguments.cache)?;
    let room = join(rt.alloc(), current, arguments.room)?;
    let places = Places {
        cache: cache.as_str(),
        room: room.as_str(),
    };
    note_answers(rt, room.as_str())?;
    let mut files = CacheStore::new(rt.clone()?, process::id(rt.process()));
    match store_answers(rt.alloc(), &mut files, &places, options) {
        Ok(report) => {
            // (an entry that is not removed does no harm)
            let _ = prune(rt.alloc(), &mut CacheFolder::new(rt.clone()?, cache));
            Ok(print_report(&report, err))
        }
        Err(Error::Device(DeviceCall::Write)) => {
            let _ = writeln!(err, "Error: Failed to write an index entry below {cache}");
            Ok(1)
        }
        Err(error) => Err(error),
    }
}

/// Prints the report of a run, and returns the exit status.
fn print_report<E: Write>(report: &Report, err: &mut E) -> u8
    ensures { result ≤ 1 }
{
    let _ = err.write_all(report.warnings.as_bytes());
    match &report.error {
        Some(text) => {
            let _ = writeln!(err, "Error: {text}");
            1
        }
        None => 0,
    }
}

/// Checks the output of `curl --version`, and returns the exit status: 1, with an error, if curl is missing
/// or too old.
pub fn check_curl<E: Write>(text: &str, err: &mut E) -> u8
    ensures new { IsNewEnough text.now → result ≡ 0 }
    ensures old { (IsNewEnough text.now → ⊥) → result ≡ 1 }
{
    if is_new_enough(text) {
        return 0;
    }
    let _ = writeln!(
        err,
        "Error: curl 7.75 or later is needed to fetch index entries (or --offline, which fetches none)"
    );
    1
}
