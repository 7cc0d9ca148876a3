//! Rows of calls that follow an upgrade: arguments that are refused, and that are not read at a dry run.
//! The program reads each argument before.
use crate::assertion_helpers::{error_number_and_text, push, text, unwrap_alloc, unwrap_ok};
use crate::rows::{LINES, check_rows};
use edit_metadata::Workspace;
use edit_upgrade::update::update_calls;
use edit_upgrade::{Options, UpgradePlan};
use std::alloc::Global;
use std::process::Abort;

/// The metadata of a workspace at `/w` with a package.
const METADATA: &str = "\
{\"workspace_root\":\"/w\",\"workspace_members\":[],\"packages\":[{\"name\":\"serde\",\"id\":\"serde\",\
\"manifest_path\":\"/c/Cargo.toml\",\"version\":\"1.2.3\",\"source\":\"\"}]}";

/// A name as a list.
fn single_argument(rt: &impl Abort, alloc: Global, arg: &str) -> Vec<String> {
    let mut args = Vec::new(alloc);
    push(rt, &mut args, text(rt, alloc, arg));
    args
}

/// A plan that modified a name.
fn plan_of(rt: &impl Abort, alloc: Global, modified: &str) -> UpgradePlan {
    UpgradePlan {
        outputs: Vec::new(alloc),
        rows: Vec::new(alloc),
        looks: Vec::new(alloc),
        warnings: Vec::new(alloc),
        missing: Vec::new(alloc),
        modified: single_argument(rt, alloc, modified),
        git_crates: Vec::new(alloc),
        pinned_present: false,
        incompatible_present: false,
    }
}

/// Options by letters, `c` compatible and `d` dry run, and a name.
fn options_of(rt: &impl Abort, alloc: Global, flags: &str, arg: &str) -> Options {
    Options {
        compatible: flags.contains('c'),
        incompatible: false,
        pinned: false,
        package: single_argument(rt, alloc, arg),
        exclude: Vec::new(alloc),
        dry_run: flags.contains('d'),
        locked: false,
        recursive: None,
        verbosity: 0,
        never_lower: false,
        level: None,
        crate_levels: Vec::new(alloc),
    }
}

/// How many calls there are for letters and a name.
fn calls(rt: &impl Abort, alloc: Global, flags: &str, arg: &str) -> String {
    let options = options_of(rt, alloc, flags, arg);
    let plan = plan_of(rt, alloc, "serde");
    let workspace = unwrap_ok(rt, Workspace::read(alloc, METADATA.as_bytes()));
    match update_calls(alloc, &plan, &workspace, &options) {
        Ok(calls) => unwrap_alloc(rt, format!(in alloc; "{} calls", calls.len())),
        Err(error) => error_number_and_text(rt, alloc, error),
    }
}

/// How many calls are wanted, or the error; letters; a name.
const CALLS: &str = "\
20 Invalid name `a/b`: /|c|a/b
14 Invalid version requirement `one`|c|serde@one
0 calls|cd|a/b";

#[test]
fn calls_that_follow(rt: HostRuntime) {
    check_rows(&rt, rt.alloc(), CALLS, LINES, calls);
}
