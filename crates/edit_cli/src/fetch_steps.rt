//! Runs the steps before and after curl. With JSON their errors are messages too.

use crate::failures::{asks_for_json, write_failure, write_printed};
use crate::fetch_plan::fetch_plan;
use cli_fetch::fetch_store;
use cli_machine::{Folders, output};
use edit_base::CargoResult;
use edit_steps::RunError;
use std::io::Write;

/// Runs `fetch-plan` or `fetch-store`. With `--message-format json` an error is also a message on standard
/// output.
pub(crate) fn run_step<E: Write>(
    rt: &HostRuntime,
    name: &str,
    arguments: &[&str],
    folders: Folders<'_>,
    err: &mut E,
) -> CargoResult<u8> {
    let current = folders.current;
    let mut printed = Vec::new(rt.alloc());
    let result = match name {
        "fetch-plan" => { fetch_plan(rt, arguments, current, folders.home, &mut printed) }
        _ => fetch_store(rt, arguments, current, &mut printed),
    };
    let _ = err.write_all(&printed);
    if matches!(&result, Ok(0 | 2)) || !asks_for_json(rt.alloc(), arguments)? {
        return result;
    }
    let mut out = output(rt)?;
    match result {
        Ok(status) => {
            write_printed(rt.alloc(), &printed, &mut out);
            Ok(status)
        }
        Err(error) => {
            let failure = RunError::from(error);
            write_failure(rt.alloc(), &failure, &mut out);
            Err(failure.error)
        }
    }
}
