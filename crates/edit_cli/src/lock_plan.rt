//! The subcommand `lock-plan`: what is needed of the plan of an upgrade to update `Cargo.lock`, as JSON.

use crate::lock_plan_json::lock_plan_text;
use crate::unpublished::print_unpublished;
use clap::ArgMatches;
use cli_machine::{
    ReportOptions, filled_args, index_files, index_folder, output, report_errors, upgrade_matches,
};
use edit_base::{CargoResult, Error};
use edit_program::{LockPlan, RunFolders, lock_plan};
use edit_store::HostStore;
use std::io::Write;

/// Runs `lock-plan` with the arguments of an upgrade, and returns the exit status: 1 if the plan fails
/// (nothing is printed then, since `upgrade` prints the same error), 2 if the arguments cannot be used.
pub(crate) fn print_lock_plan<E: Write>(
    rt: &HostRuntime,
    arguments: &[&str],
    current: &str,
    home: Option<&str>,
    err: &mut E,
) -> CargoResult<u8> {
    let args = filled_args(rt.alloc(), "upgrade", arguments)?;
    let matches = match upgrade_matches(rt, &args, err)? {
        Ok(matches) => matches,
        Err(status) => return Ok(status),
    };
    let Some((_, upgrade)) = matches.subcommand() else {
        return Ok(2);
    };
    let place = RunFolders {
        current,
        cargo_home: home,
    };
    let mut files = HostStore::new(rt.clone()?);
    let index_files = index_files(rt, current, index_folder(upgrade))?;
    match lock_plan(rt.alloc(), upgrade, &place, &mut files, index_files, err) {
        Ok(Some(planned)) => print_plan(rt, upgrade, current, &planned),
        Ok(None) => Ok(2),
        Err(failure) => match failure.error {
            Error::Memory => Err(Error::Memory),
            _ => Ok(1),
        },
    }
}

/// Prints a plan, and warnings about requirements that admit no published version.
fn print_plan(
    rt: &HostRuntime,
    upgrade: &ArgMatches<'_>,
    current: &str,
    planned: &LockPlan,
) -> CargoResult<u8> {
    let options = ReportOptions {
        format: None,
        color: upgrade.get_str("color"),
    };
    let mut err = report_errors(rt, options)?;
    print_unpublished(rt, upgrade.get_str("index-dir"), current, planned, &mut err)?;
    let _ = err.flush();
    let text = lock_plan_text(rt.alloc(), planned)?;
    let mut out = output(rt)?;
    if writeln!(out, "{text}").is_err() || out.flush().is_err() {
        return Err(Error::Output);
    }
    Ok(0)
}
