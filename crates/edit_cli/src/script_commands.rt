//! The subcommands for the scripts of `cargo upgrade` and `cargo set-version`.

use crate::failures::print_error_message;
use crate::fetch_steps::run_step;
use crate::lock_plan::print_lock_plan;
use crate::plan;
use crate::shell_options::shell_options;
use cli_credentials::{credential_reply, credentials};
use cli_fetch::{check_curl, fetch_retry, fetch_round};
use cli_lockfile::{lock_bounds, next_call, print_update_calls, shell_words};
use cli_machine::{Folders, errors, output};
use edit_base::CargoResult;
use edit_store::HostStore;
use std::io::Write;

/// Runs a subcommand that needs no file. The first argument is its name.
pub(crate) fn run_fileless(rt: &HostRuntime, args: &[&str]) -> CargoResult<u8> {
    let Some((first, arguments)) = args.split_first() else {
        return Ok(2);
    };
    let mut err = errors(rt)?;
    match *first {
        "check-curl" => Ok(check_curl(arguments.first().copied().unwrap_or(""), &mut err)),
        "credential-reply" => credential_reply(rt, arguments, &mut err),
        "error-message" => print_error_message(rt.alloc(), arguments, &mut output(rt)?),
        "plan" => plan::plan(rt, arguments, &mut err),
        "shell-words" => shell_words(rt.alloc(), arguments, &mut output(rt)?),
        _ => {
            let mut out = output(rt)?;
            Ok(shell_options(rt.alloc(), arguments, &mut out, &mut err))
        }
    }
}

/// Runs a subcommand for the scripts that reads files. The first argument is its name.
pub(crate) fn run_own(rt: &HostRuntime, args: &[&str], folders: Folders<'_>) -> CargoResult<u8> {
    let Some((first, arguments)) = args.split_first() else {
        return Ok(2);
    };
    let current = folders.current;
    let mut err = errors(rt)?;
    match *first {
        "fetch-plan" | "fetch-store" => run_step(rt, first, arguments, folders, &mut err),
        "credential-probes" | "credential-request" | "fetch-config" => {
            credentials(rt, first, arguments, current, folders.home, &mut err)
        }
        "fetch-retry" => fetch_retry(rt, arguments, current, &mut err),
        "fetch-round" => fetch_round(rt, arguments, current, &mut err),
        "lock-lookups" | "set-backs" => {
            lock_bounds(rt, first, arguments, current, folders.home, &mut err)
        }
        "lock-plan" => print_lock_plan(rt, arguments, current, folders.home, &mut err),
        name => run_calls(rt, name, arguments, current, &mut err),
    }
}

/// Runs `next-call` or `update-calls` in a folder.
fn run_calls<E: Write>(
    rt: &HostRuntime,
    name: &str,
    arguments: &[&str],
    current: &str,
    err: &mut E,
) -> CargoResult<u8> {
    let mut files = HostStore::new(rt.clone()?);
    let mut out = output(rt)?;
    if name == "next-call" {
        return Ok(next_call(rt.alloc(), arguments, current, &mut files, &mut out, err));
    }
    Ok(print_update_calls(rt.alloc(), arguments, current, &mut files, &mut out, err))
}
