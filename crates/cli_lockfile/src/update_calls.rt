//! The subcommand `update-calls`: the calls of `cargo update` after an upgrade, for the packages in the
//! lock file.
ghost use Rattle.std.specs.Prelude.{◌≡◌, ◌⊎◌, ◌≤◌, IfOk};

use crate::call_plan::{CallPlan, read_call_plan};
use crate::fitted_call::{offline_flag, required_option};
use crate::locked_packages::locked_packages;
use clap::{ArgMatches, Command};
use cli_machine::print_parse_error;
use edit_base::{CargoResult, Error};
use edit_lock::{Lock, adapt_calls};
use edit_metadata::Workspace;
use edit_steps::{RunError, RunResult, absolute_path, at_lock, at_path, print_error};
use edit_store::Store;
use edit_upgrade::update::update_calls;
use edit_upgrade::{Options, UpgradePlan};
use std::alloc::{AllocError, Global};
use std::io;

/// A part of the calls. Those of a stage are found together, by the lock file before the first of them.
#[derive(Clone, Copy, PartialEq, Eq)]
enum Stage {
    /// The calls that set packages to the versions of arguments `--package NAME@REQ`.
    Precise,
    /// The call for packages from git repositories.
    Git,
    /// The call for raised crates and their dependencies.
    Recursive,
}

/// The arguments.
#[derive(Clone, Copy)]
struct Given<'a> {
    plan: &'a str,
    metadata: &'a str,
    lock: &'a str,
    stage: Stage,
    offline: bool,
}

/// The command line of `update-calls`.
fn command<'a>(alloc: Global) -> Result<Command<'a>, AllocError> {
    Command::new(alloc, "update-calls")
        .about(
            "Prints the calls of `cargo update` of a stage, as `upgrade --update-calls` writes them",
        )
        .no_binary_name(true)
        .bin_name("cargo-edit update-calls")?
        .arg(required_option(alloc, "lock-plan", "FILE", "What `lock-plan` printed"))?
        .arg(required_option(
            alloc,
            "metadata-json",
            "FILE",
            "The output of `cargo metadata`",
        ))?
        .arg(required_option(alloc, "lock-file", "FILE", "The Cargo.lock as it is now"))?
        .arg(required_option(alloc, "stage", "STAGE", "precise, git or recursive"))?
        .arg(offline_flag(alloc))
}

/// The stage of a name.
fn stage_of(name: &str) -> Option<Stage> {
    match name {
        "precise" => Some(Stage::Precise),
        "git" => Some(Stage::Git),
        "recursive" => Some(Stage::Recursive),
        _ => None,
    }
}

/// The parsed arguments; `None` for an unknown stage.
fn given_of<'a>(matches: &ArgMatches<'a>) -> Option<Given<'a>> {
    Some(Given {
        plan: matches.get_str("lock-plan")?,
        metadata: matches.get_str("metadata-json")?,
        lock: matches.get_str("lock-file")?,
        stage: stage_of(matches.get_str("stage")?)?,
        offline: matches.get_flag("offline"),
    })
}

/// Reads a file, and returns its bytes and its path; an error if there is no such file.
fn read_file<S: Store>(
    alloc: Global,
    current: &str,
    named: &str,
    files: &mut S,
) -> RunResult<(Vec<u8>, String)> {
    let path = absolute_path(alloc, current, named)?;
    match files.read(alloc, path.as_str()) {
        Ok(Some(bytes)) => Ok((bytes, path)),
        Ok(None) => Err(at_path(alloc, Error::NoPath, path.as_str())),
        Err(error) => Err(at_path(alloc, error, path.as_str())),
    }
}

/// A plan of an upgrade with the members that its calls depend on.
fn plan_of(alloc: Global, modified: Vec<String>, git_crates: Vec<String>) -> UpgradePlan {
    UpgradePlan {
        outputs: Vec::new(alloc),
        rows: Vec::new(alloc),
        looks: Vec::new(alloc),
        warnings: Vec::new(alloc),
        missing: Vec::new(alloc),
        modified,
        git_crates,
        pinned_present: false,
        incompatible_present: false,
    }
}

/// Options of an upgrade with the members that its calls depend on.
fn options_of(
    alloc: Global,
    compatible: bool,
    recursive: Option<bool>,
    package: Vec<String>,
) -> Options {
    Options {
        compatible,
        incompatible: false,
        pinned: false,
        never_lower: false,
        level: None,
        crate_levels: Vec::new(alloc),
        package,
        exclude: Vec::new(alloc),
        dry_run: false,
        locked: false,
        recursive,
        verbosity: 0,
    }
}

/// The stage of a call.
fn stage_in(call: &[String]) -> Stage {
    if call.iter().any(|argument| argument.as_str() == "--precise") {
        Stage::Precise
    } else if call
        .iter()
        .any(|argument| argument.as_str() == "--aggressive")
    {
        Stage::Recursive
    } else {
        Stage::Git
    }
}

/// The calls of one stage of a plan. Under a time of publication no git packages are updated, since commits
/// have no such time.
fn calls_of(
    alloc: Global,
    plan: CallPlan,
    workspace: &Workspace,
    stage: Stage,
) -> CargoResult<Vec<Vec<String>>> {
    let CallPlan {
        modified,
        git_crates,
        packages,
        compatible,
        recursive,
        has_time,
    } = plan;
    let git_crates = if has_time {
        Vec::new(alloc)
    } else {
        git_crates
    };
    let upgrade = plan_of(alloc, modified, git_crates);
    let options = options_of(alloc, compatible, recursive, packages);
    let mut calls = Vec::new(alloc);
    for call in update_calls(alloc, &upgrade, workspace, &options)? {
        if stage_in(&call) == stage {
            calls.push(call)?;
        }
    }
    Ok(calls)
}

/// Appends calls: one argument per line, and an empty line after each call.
fn push_calls(text: &mut Vec<u8>, calls: &[Vec<String>]) -> Result<(), AllocError> {
    for call in calls {
        for argument in call {
            text.extend_from_slice(argument.as_bytes())?;
            text.push(b'\n')?;
        }
        text.push(b'\n')?;
    }
    Ok(())
}

/// The calls of a stage as text. Calls without a locked package are left out; `--offline` stands in them
/// only if it is given.
fn calls_text<S: Store>(
    alloc: Global,
    given: &Given<'_>,
    current: &str,
    files: &mut S,
) -> RunResult<Vec<u8>> {
    let (bytes, path) = read_file(alloc, current, given.plan, files)?;
    let plan = match std::str::from_utf8(&bytes) {
        Ok(text) => read_call_plan(alloc, text),
        Err(_) => Err(Error::NotUtf8),
    };
    let plan = match plan {
        Ok(plan) => plan,
        Err(error) => return Err(at_path(alloc, error, path.as_str())),
    };
    let (bytes, path) = read_file(alloc, current, given.metadata, files)?;
    let Workspace { root, .. } = match Workspace::read(alloc, &bytes) {
        Ok(workspace) => workspace,
        Err(error) => return Err(at_path(alloc, error, path.as_str())),
    };
    let (bytes, path) = read_file(alloc, current, given.lock, files)?;
    let packages = match locked_packages(alloc, &bytes) {
        Ok(packages) => packages,
        Err(error) => return Err(at_lock(alloc, error, path.as_str(), &bytes)),
    };
    let lock = Lock::read(alloc, &bytes)?;
    let workspace = Workspace { root, packages };
    let calls = calls_of(alloc, plan, &workspace, given.stage)?;
    let calls = adapt_calls(alloc, &calls, &lock, &lock, given.offline)?;
    let mut text = Vec::new(alloc);
    push_calls(&mut text, &calls)?;
    Ok(text)
}

/// Runs `update-calls` with these arguments.
fn answer<S: Store, O: io::Write, E: io::Write>(
    alloc: Global,
    arguments: &[&str],
    current: &str,
    files: &mut S,
    out: &mut O,
    err: &mut E,
) -> RunResult<u8>
    ensures { IfOk result (λ s. (s ≡ 0) ⊎ (s ≡ 2)) }
{
    let command = command(alloc)?;
    let matches = match command.try_get_matches_from(arguments) {
        Ok(matches) => matches,
        Err(error) => return Ok(print_parse_error(&error, out, err)?),
    };
    let Some(given) = given_of(&matches) else {
        let _ = writeln!(err, "error: a stage is `precise`, `git` or `recursive`");
        return Ok(2);
    };
    let text = calls_text(alloc, &given, current, files)?;
    match out.write_all(&text) {
        Ok(()) => Ok(0),
        Err(_) => Err(RunError::from(Error::Output)),
    }
}

/// Runs `update-calls` with these arguments, and returns the exit status: 0 done; 1 for an error, which is
/// printed with its place where that is known; 2 for a usage error.
pub fn print_update_calls<S: Store, O: io::Write, E: io::Write>(
    alloc: Global,
    arguments: &[&str],
    current: &str,
    files: &mut S,
    out: &mut O,
    err: &mut E,
) -> u8
    ensures status { result ≤ 2 }
{
    match answer(alloc, arguments, current, files, out, err) {
        Ok(status) => status,
        Err(failure) => {
            let _ = print_error(alloc, &failure, err);
            1
        }
    }
}
