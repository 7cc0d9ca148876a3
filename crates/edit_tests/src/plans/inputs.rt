//! A plan of two manifests in distinct folders.
ghost use Rattle.std.specs.Prelude.{◌≡◌, string_bytes};

use crate::assertion_helpers::{check_result, push, text, unwrap_alloc, unwrap_ok};
use cargo_edit::upgrade::{Options, Origin, PlanFailure, UpgradePlan, plan_shared, plan_upgrade};
use cargo_edit::workspace::Input;
use edit_cache::IndexCache;
use edit_document::Step;
use edit_sources::{Config, FileIndex};
use std::alloc::{AllocError, Global};
use std::process::Abort;

/// The lines of an index with two crates.
const INDEX: &str = "\
{\"name\":\"x\",\"vers\":\"1.0.0\",\"yanked\":false}
{\"name\":\"x\",\"vers\":\"1.2.3\",\"yanked\":false}
{\"name\":\"x\",\"vers\":\"2.0.0\",\"yanked\":false}
{\"name\":\"y\",\"vers\":\"1.2.3\",\"yanked\":false}
";

/// A manifest at a path.
fn input_at(rt: &impl Abort, alloc: Global, path: &str, bytes: &[u8]) -> Input
    ensures path { string_bytes result.path ≡ path.now }
{
    Input {
        name: text(rt, alloc, "w"),
        path: text(rt, alloc, path),
        bytes: unwrap_alloc(rt, Vec::from_slice(alloc, bytes)),
        rust_version: None,
    }
}

/// The options of an upgrade whose command line has no arguments.
fn default_options(alloc: Global) -> Options {
    Options {
        compatible: true,
        incompatible: false,
        pinned: false,
        never_lower: false,
        level: None,
        crate_levels: Vec::new(alloc),
        package: Vec::new(alloc),
        exclude: Vec::new(alloc),
        dry_run: false,
        locked: false,
        recursive: None,
        verbosity: 0,
    }
}

/// The plan of the manifests of two folders.
fn plan_of_two_folders(
    rt: &impl Abort,
    alloc: Global,
    index: &mut IndexCache<FileIndex>,
) -> UpgradePlan {
    let first = b"[dependencies]\nx = \"1.0\"\n";
    let second = b"[dependencies]\ny = \"1.2\"\nx = \"1.1\"\n";
    let inputs = [
        input_at(rt, alloc, "/w/a/Cargo.toml", first),
        input_at(rt, alloc, "/w/b/Cargo.toml", second),
    ];
    let configs = [Vec::new(alloc), Vec::new(alloc)];
    let options = default_options(alloc);
    unwrap_ok(rt, plan_upgrade(alloc, &options, &inputs, &configs, index))
}

/// The sizes of the plan's lists.
fn outcome(rt: &impl Abort, alloc: Global) -> String {
    let lines = unwrap_ok(rt, FileIndex::read(alloc, INDEX.as_bytes()));
    let mut index = IndexCache::new(alloc, lines);
    let plan = plan_of_two_folders(rt, alloc, &mut index);
    let (outputs, rows, looks) = (plan.outputs.len(), plan.rows.len(), plan.looks.len());
    unwrap_alloc(
        rt,
        format!(in alloc; "{outputs} outputs, {rows} rows, {looks} looks"),
    )
}

#[test]
fn a_crate_that_two_manifests_have(rt: HostRuntime) {
    let seen = outcome(&rt, rt.alloc());
    check_result(
        &rt,
        "two manifests",
        seen.as_str(),
        "2 outputs, 3 rows, 2 looks",
    );
}

/// A list of one configuration, which defines this address for the registry `r`.
fn list_at(rt: &impl Abort, alloc: Global, address: &str) -> Vec<Config> {
    let mut registries = Vec::new(alloc);
    let named = (text(rt, alloc, "r"), Some(text(rt, alloc, address)));
    push(rt, &mut registries, named);
    let config = Config {
        path: text(rt, alloc, "/w/.cargo/config.toml"),
        registries,
        sources: Vec::new(alloc),
    };
    let mut list = Vec::new(alloc);
    push(rt, &mut list, config);
    list
}

/// The addresses of the lookups of two manifests; the first manifest uses the second list of
/// configurations.
fn addresses(rt: &impl Abort, alloc: Global, index: &mut IndexCache<FileIndex>) -> String {
    let manifest = b"[dependencies]\nx = { version = \"1.0\", registry = \"r\" }\n";
    let inputs = [
        input_at(rt, alloc, "/w/a/Cargo.toml", manifest),
        input_at(rt, alloc, "/w/b/Cargo.toml", manifest),
    ];
    let lists = [
        list_at(rt, alloc, "https://one.example/"),
        list_at(rt, alloc, "https://two.example/"),
    ];
    let options = default_options(alloc);
    let which = [1, 0];
    let plan = match plan_shared(alloc, &options, &inputs, &[], &lists, &which, index) {
        Ok(plan) => plan,
        Err(failure) => unwrap_ok(rt, Err(failure.error)),
    };
    let mut all = String::new(alloc);
    for lookup in &plan.looks {
        unwrap_alloc(rt, write!(all, "{} ", lookup.registry.as_str()));
    }
    all
}

#[test]
fn lists_that_two_manifests_choose(rt: HostRuntime) {
    let alloc = rt.alloc();
    let lines = unwrap_ok(&rt, FileIndex::read(alloc, INDEX.as_bytes()));
    let mut index = IndexCache::new(alloc, lines);
    let seen = addresses(&rt, alloc, &mut index);
    check_result(
        &rt,
        "two lists",
        seen.as_str(),
        "https://two.example/ https://one.example/ ",
    );
}

/// What the plan of a sound manifest and this one names as the origin of its failure: the index of the input,
/// and the last key of the entry's place.
fn origin(
    rt: &impl Abort,
    alloc: Global,
    index: &mut IndexCache<FileIndex>,
    second: &[u8],
) -> String {
    let inputs = [
        input_at(
            rt,
            alloc,
            "/w/a/Cargo.toml",
            b"[dependencies]\nx = \"1.0\"\n",
        ),
        input_at(rt, alloc, "/w/b/Cargo.toml", second),
    ];
    let options = default_options(alloc);
    let lists = [Vec::new(alloc)];
    let which = [0, 0];
    match plan_shared(alloc, &options, &inputs, &[], &lists, &which, index) {
        Ok(_plan) => text(rt, alloc, "a plan"),
        Err(failure) => unwrap_alloc(rt, origin_text(alloc, &failure)),
    }
}

/// The origin of a failure as a text.
fn origin_text(alloc: Global, failure: &PlanFailure) -> Result<String, AllocError> {
    match &failure.origin {
        Some(Origin::Input(input)) => format!(in alloc; "input {input}"),
        Some(Origin::Entry { input, place }) => match place.last() {
            Some(Step::Key(name)) => format!(in alloc; "input {input}, {name}"),
            Some(Step::Index(_)) | None => format!(in alloc; "input {input}, no key"),
        },
        None => String::from_str(alloc, "none"),
    }
}

#[test]
fn origins_of_failures(rt: HostRuntime) {
    let alloc = rt.alloc();
    let lines = unwrap_ok(&rt, FileIndex::read(alloc, INDEX.as_bytes()));
    let mut index = IndexCache::new(alloc, lines);
    let bad = origin(&rt, alloc, &mut index, b"[dependencies\n");
    check_result(&rt, "no TOML", bad.as_str(), "input 1");
    let unknown = b"[dependencies]\ny = \"1.2\"\nx = { version = \"1.0\", registry = \"r\" }\n";
    let unknown = origin(&rt, alloc, &mut index, unknown);
    check_result(
        &rt,
        "a registry that is not defined",
        unknown.as_str(),
        "input 1, x",
    );
}
