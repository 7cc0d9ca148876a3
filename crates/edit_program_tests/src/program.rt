//! Tests of the program where a call of the files fails, or where standard output is full. Other tests are
//! in tests/cases.
use crate::rows::{
    ROOM, check_result, faultless_store, field, run_args_in, unwrap_alloc, unwrap_ok,
};
use edit_store::{FaultStore, MemoryStore, Store};
use std::alloc::Global;
use std::process::Abort;

const MANIFEST: &str = "[dependencies]\nserde = { version = '1.0', optional = true } # keep\n";

const OF_A_REGISTRY: &str = "[dependencies]\nserde = { version = \"1.0\", registry = \"r\" }\n";

const REGISTRIES: &str = "[registries]\nr = { index = \"file:///r\" }\n";

const METADATA: &str = "\
{\"workspace_root\":\"/w\",\"workspace_members\":[\"a\",\"b\"],\"packages\":[\
{\"name\":\"a\",\"id\":\"a\",\"version\":\"0.1.0\",\"manifest_path\":\"/w/a/Cargo.toml\"},\
{\"name\":\"b\",\"id\":\"b\",\"version\":\"0.1.0\",\"manifest_path\":\"/w/b/Cargo.toml\"}]}";

const DEPENDENT: &str = "[dependencies]\na = { path = \"../a\", version = \"0.1\" }\n";

/// Where a file of a row stands, and what it holds; `A` is raised, `k`, `p` and `e` are cut where a write
/// failed.
fn file(letter: char) -> (&'static str, &'static str) {
    match letter {
        'm' => ("/w/Cargo.toml", MANIFEST),
        'k' => ("/w/Cargo.toml", "[dep"),
        'r' => ("/w/Cargo.toml", OF_A_REGISTRY),
        'c' => ("/w/.cargo/config.toml", REGISTRIES),
        's' => ("/w/a/b/x", ""),
        'n' => ("/w/index.json", "\n{}\n"),
        'i' => ("/w/index.json", "{\"name\":\"serde\",\"vers\":\"1.2.3\"}\n"),
        'd' => ("/w/metadata.json", METADATA),
        'w' => ("/w/Cargo.toml", "[workspace]\n"),
        'a' => ("/w/a/Cargo.toml", "[package]\nversion = \"0.1.0\" # kept\n"),
        'A' => ("/w/a/Cargo.toml", "[package]\nversion = \"0.2.0\" # kept\n"),
        'p' => ("/w/a/Cargo.toml", "[pac"),
        'b' => ("/w/b/Cargo.toml", DEPENDENT),
        _ => ("/w/b/Cargo.toml", "[dep"),
    }
}

/// The arguments of an upgrade of one manifest.
const WORDS: &str = "upgrade --manifest-path Cargo.toml --index-file index.json";

/// Each row: what it shows, the files, which call of the store fails, the arguments, the files afterwards,
/// and the status and what was printed. Between two rows stands `§`.
const ROWS: &str = "\
a configuration's read fails|rci|3|upgrade --manifest-path Cargo.toml --index-file index.json|r|\
1 Error: Failed to read a file
§the look fails|mi|0|upgrade --manifest-path Cargo.toml --index-file index.json|m|\
1 Error: Failed to look at a path
  at /w/Cargo.toml
§the look above fails|snm|1|upgrade --manifest-path a/b --index-file index.json|m|\
1 Error: Failed to look at a path
  at /w/a/b
§the manifest's read fails|mi|1|upgrade --manifest-path Cargo.toml --index-file index.json|m|\
1 Error: Failed to read a file
  at /w/Cargo.toml
§the index file's read fails|mi|8|upgrade --manifest-path Cargo.toml --index-file index.json|m|\
1 Error: Failed to read a file
  at /w/index.json
§the write fails after four bytes|mi|9|upgrade --manifest-path Cargo.toml --index-file index.json|k|\
1 name  old req compatible latest new req
====  ======= ========== ====== =======
serde 1.0     1.2.3      1.2.3  1.2    
    Checking virtual workspace's dependencies
Error: Failed to write updated Cargo.toml
  at /w/Cargo.toml
§the first write fails after four bytes|dwab|4|\
set-version --metadata-json metadata.json --bump minor -p a|dwpb|\
1    Upgrading a from 0.1.0 to 0.2.0
    Updating b's dependency from 0.1 to 0.2
Error: Failed to write updated Cargo.toml
  at /w/a/Cargo.toml
§a later write fails after four bytes|dwab|5|\
set-version --metadata-json metadata.json --bump minor -p a|dwAe|\
1    Upgrading a from 0.1.0 to 0.2.0
    Updating b's dependency from 0.1 to 0.2
Error: Failed to write updated Cargo.toml
  at /w/b/Cargo.toml
§the read of the metadata fails|dwab|0|set-version --metadata-json metadata.json 2.0.0|dwab|\
1 Error: Failed to read a file
  at /w/metadata.json
";

/// The expected result where the table cannot be printed: the manifest is unchanged.
const UNWRITTEN: &str = "\
1 manifest     Checking virtual workspace's dependencies
Error: Failed to write message
  at standard output
";

/// The files of a row.
fn store_of_letters(rt: &impl Abort, alloc: Global, letters: &str) -> MemoryStore {
    let mut files = MemoryStore::new(alloc);
    for letter in letters.chars() {
        let (path, text) = file(letter);
        unwrap_ok(rt, files.write(alloc, path, text.as_bytes()));
    }
    files
}

/// Whether a file has the contents that its letter means.
fn has_expected_contents<S: Store>(alloc: Global, letter: char, files: &mut S) -> bool {
    let (path, text) = file(letter);
    match files.read(alloc, path) {
        Ok(Some(bytes)) => bytes.as_slice() == text.as_bytes(),
        _ => false,
    }
}

/// The output of a run with these arguments, after the exit status.
fn outcome(rt: &impl Abort, alloc: Global, args: &str, files: &mut FaultStore) -> String {
    let index = faultless_store(MemoryStore::new(alloc));
    let done = run_args_in(rt, alloc, args, files, index, (ROOM, ROOM));
    unwrap_alloc(
        rt,
        format!(in alloc; "{} {}{}", done.status, done.out, done.err),
    )
}

/// Runs a row: the output, and which of its last files have other contents.
fn run_row(rt: &impl Abort, alloc: Global, row: &str) -> String {
    let at = field(row, 2).parse().expect(rt, "a number");
    let mut files = FaultStore::new(store_of_letters(rt, alloc, field(row, 1)), at, 4);
    let mut seen = outcome(rt, alloc, field(row, 3), &mut files);
    for letter in field(row, 4).chars() {
        if !has_expected_contents(alloc, letter, &mut files) {
            unwrap_alloc(rt, seen.push(letter));
        }
    }
    seen
}

/// Runs an upgrade whose standard output accepts five bytes.
fn run_without_room(rt: &impl Abort, alloc: Global) -> String {
    let mut files = faultless_store(store_of_letters(rt, alloc, "mi"));
    let index = faultless_store(MemoryStore::new(alloc));
    let done = run_args_in(rt, alloc, WORDS, &mut files, index, (5, ROOM));
    let after = if has_expected_contents(alloc, 'm', &mut files) {
        "manifest"
    } else {
        "other"
    };
    unwrap_alloc(
        rt,
        format!(in alloc; "{} {after} {}", done.status, done.err),
    )
}

#[test]
fn calls_that_fail(rt: HostRuntime) {
    for row in ROWS.split('§') {
        let seen = run_row(&rt, rt.alloc(), row);
        check_result(&rt, row, seen.as_str(), field(row, 5));
    }
}

#[test]
fn no_room(rt: HostRuntime) {
    let seen = run_without_room(&rt, rt.alloc());
    check_result(&rt, "no room", seen.as_str(), UNWRITTEN);
}
