//! Tests of the exit status of a run, of the manifest after it, and of the end of standard error.
use crate::rows::{ROOM, check_result, faultless_store, field, run_args_in, unwrap_ok};
use edit_store::{FaultStore, MemoryStore, Store};
use std::alloc::Global;
use std::process::Abort;

const MANIFEST: &str = "[dependencies]\nserde = \"1.0\"\n";

const RAISED: &str = "[dependencies]\nserde = \"1.2\"\n";

const INDEX: &str = "{\"name\":\"serde\",\"vers\":\"1.2.3\"}\n";

/// Each row: what it shows, the arguments, the status, whether the manifest is raised or as it was, and how
/// standard error ends. Between two rows stands `§`.
const ROWS: &str = "\
an upgrade|upgrade --manifest-path Cargo.toml --index-file index.json|0|raised|dependencies
§a check that finds a change|upgrade --check --manifest-path Cargo.toml --index-file index.json|1|old|\
warning: aborting upgrade due to dry run
§an argument that no option has|upgrade --nothing|2|old|For more information, try '--help'.
§no index file|upgrade --manifest-path Cargo.toml --index-file other.json|1|old|\
Error: Failed to get cargo file metadata
  at /w/other.json
§a locked manifest|upgrade --locked --manifest-path Cargo.toml --index-file index.json|1|old|\
Error: cannot upgrade due to `--locked`
  at /w/Cargo.toml
  cause: manifests that would change: 1
  help: leave out `--locked` to write them
§a missing name|upgrade -p serde -p other --manifest-path Cargo.toml --index-file index.json|1|raised|\
Error: dependency other doesn't exist
§a command of cargo|add serde|1|old|- Downgrade `cargo-edit`, like with `cargo install cargo-edit --version 0.9.1`
";

/// A folder with a manifest and an index file.
fn manifest_and_index(rt: &impl Abort, alloc: Global) -> FaultStore {
    let mut files = MemoryStore::new(alloc);
    unwrap_ok(rt, files.write(alloc, "/w/Cargo.toml", MANIFEST.as_bytes()));
    unwrap_ok(rt, files.write(alloc, "/w/index.json", INDEX.as_bytes()));
    faultless_store(files)
}

/// Whether a text is the unchanged manifest, the raised one, or another one.
fn text_state(text: &[u8]) -> &'static str {
    if text == MANIFEST.as_bytes() {
        "old"
    } else if text == RAISED.as_bytes() {
        "raised"
    } else {
        "other"
    }
}

/// Whether the manifest is unchanged, raised, or another one.
fn manifest_state(alloc: Global, files: &mut FaultStore) -> &'static str {
    match files.read(alloc, "/w/Cargo.toml") {
        Ok(Some(bytes)) => text_state(bytes.as_slice()),
        _ => "other",
    }
}

/// Ends the test where a row does not give its expected result.
fn check_row(rt: &impl Abort, alloc: Global, row: &str) {
    let mut files = manifest_and_index(rt, alloc);
    let index = faultless_store(MemoryStore::new(alloc));
    let done = run_args_in(rt, alloc, field(row, 1), &mut files, index, (ROOM, ROOM));
    let status = field(row, 2).parse().expect(rt, "a number");
    assert!(rt; done.status == status, "{row}: status {}", done.status);
    check_result(rt, row, manifest_state(alloc, &mut files), field(row, 3));
    let err = done.err.as_str().trim_end();
    assert!(rt; err.ends_with(field(row, 4).trim_end()), "{row}: {err:?}");
}

#[test]
fn each_status_has_its_files_and_ends_with_its_error(rt: HostRuntime) {
    for row in ROWS.split('§') {
        check_row(&rt, rt.alloc(), row);
    }
}
