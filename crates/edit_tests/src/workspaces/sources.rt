//! Tests of the files that an upgrade reads. Errors are in `tests/cases/upgrade/inputs_rejected.toml`.
use super::workspaces::{rust_text, with_quotation_marks};
use crate::assertion_helpers::{error_number_and_text, unfold_lines, unwrap_alloc, unwrap_ok};
use crate::rows::{TILDES, check_rows};
use edit_sources::Config;
use edit_steps::upgrade_read::{
    IndexSource, RustChoice, SourceRequest, Sources, read_index, read_sources,
};
use edit_store::{MemoryStore, Store};
use edit_version::RustVersion;
use std::alloc::Global;
use std::process::Abort;

/// The path and the contents of each file, with `'` for a quotation mark and `@` for a line end.
const FILES: &str = "\
/w/Cargo.toml [workspace]@\
~/w/a/Cargo.toml [package]@name = 'a'@rust-version = '1.70'@\
~/w/b/Cargo.toml [package]@rust-version = '1.71'@\
~/w/c/Cargo.toml = no manifest@\
~/w/.cargo/config.toml [source]@\
~/w/b/.cargo/config [source]@\
~/w/c/.cargo/config.toml [source]@\
~/h/config.toml [source]@\
~/w/near.toml [source.near]@\
~/w/far.toml [source.far]@\
~/w/index {'name':'x','vers':'1.0.0','deps':[],'cksum':'','features':{},'yanked':false}@\
~/w/bad_index {}@\
~/w/all.json {'workspace_root':'/w','workspace_members':['/w/a','/w/b','/w/c'],'packages':[\
{'name':'of/w/a','id':'/w/a','version':'1.0.0','manifest_path':'/w/a/Cargo.toml','rust_version':'1.72'},\
{'name':'of/w/b','id':'/w/b','version':'1.0.0','manifest_path':'/w/b/Cargo.toml','rust_version':'1.72'},\
{'name':'of/w/c','id':'/w/c','version':'1.0.0','manifest_path':'/w/c/Cargo.toml','rust_version':'1.72'}]}";

/// Adds the file of a row to a store: its path and its contents.
fn put_file(rt: &impl Abort, alloc: Global, store: &mut MemoryStore, row: &str) {
    let (path, held) = row.split_once(' ').unwrap_or((row, ""));
    let lines = unfold_lines(rt, alloc, held);
    let bytes = with_quotation_marks(rt, alloc, lines.as_str());
    unwrap_ok(rt, store.write(alloc, path, bytes.as_bytes()));
}

/// Puts the files of the table into a store.
fn put_files(rt: &impl Abort, alloc: Global, store: &mut MemoryStore) {
    'rows: for row in FILES.split('~') {
        put_file(rt, alloc, store, row);
    }
}

/// The inputs that were read: the name, the path and the Rust version of each, the number of its
/// configurations, and the index of their list.
fn inputs_text(rt: &impl Abort, alloc: Global, sources: &Sources) -> String {
    let mut all = String::new(alloc);
    'inputs: for (i, input) in sources.target.inputs.iter().enumerate() {
        let configs = match sources.configs.list_of(i) {
            Some(own) => own.len(),
            None => 99,
        };
        let list = sources.configs.which.get(i).copied().unwrap_or(99);
        let rust = rust_text(rt, alloc, input.rust_version);
        unwrap_alloc(
            rt,
            write!(
                all,
                "{} {} {rust} {configs} {list}; ",
                input.name, input.path
            ),
        );
    }
    all
}

/// What was read: the inputs, which index, and how many documents.
fn sources_text(rt: &impl Abort, alloc: Global, sources: &Sources, index: &IndexSource) -> String {
    let inputs = inputs_text(rt, alloc, sources);
    let index = match index {
        IndexSource::Files => "files",
        IndexSource::Lines(_) => "a file",
        IndexSource::Folder(path) => path.as_str(),
    };
    let documents = sources.target.documents.len();
    unwrap_alloc(rt, format!(in alloc; "{inputs}{index}, {documents}"))
}

/// The part of a line with a number, from 0; none where it is `-`, and where there is none.
fn nth(parts: &str, n: usize) -> Option<&str> {
    match parts.split(' ').nth(n) {
        Some("-") => None,
        part => part,
    }
}

/// The choice of a Rust version: that of the manifests for `None`, none for `!`.
fn choice(rt: &impl Abort, alloc: Global, name: Option<&str>) -> RustChoice {
    match name {
        None => RustChoice::Own,
        Some("!") => RustChoice::Ignored,
        Some(name) => RustChoice::Given(unwrap_ok(rt, RustVersion::from_str(alloc, name))),
    }
}

/// The request of a row: its parts name a manifest and metadata; and, behind an index, the choice of a Rust
/// version, and, behind a folder of registries, the configuration files that count before and after all
/// others.
fn request_of_row<'a>(
    rt: &impl Abort,
    alloc: Global,
    target: &'a str,
    more: &'a str,
) -> SourceRequest<'a> {
    SourceRequest {
        manifest_path: nth(target, 0),
        metadata_json: nth(target, 1),
        config: nth(more, 3),
        default_config: nth(more, 4),
        rust: choice(rt, alloc, nth(more, 1)),
        writes: false,
    }
}

/// Reads the requested files in `/w/a/src`, with the home folder `/h`, and then the index of a row: a file,
/// or a folder of registries.
fn read_result(
    rt: &impl Abort,
    alloc: Global,
    request: &SourceRequest,
    index: (Option<&str>, Option<&str>),
    store: &mut MemoryStore,
) -> String {
    let sources = match read_sources(alloc, request, "/w/a/src", Some("/h"), store) {
        Ok(sources) => sources,
        Err(failure) => return error_number_and_text(rt, alloc, failure.error),
    };
    match read_index(alloc, index.0, index.1, None, "/w/a/src", store) {
        Ok(index) => sources_text(rt, alloc, &sources, &index),
        Err(failure) => error_number_and_text(rt, alloc, failure.error),
    }
}

/// Reads the files of the table that a row requests.
fn read(rt: &impl Abort, alloc: Global, target: &str, more: &str) -> String {
    let mut store = MemoryStore::new(alloc);
    put_files(rt, alloc, &mut store);
    let request = request_of_row(rt, alloc, target, more);
    let index = (nth(more, 0), nth(more, 2));
    read_result(rt, alloc, &request, index, &mut store)
}

/// Rows: the result; the given manifest and metadata; the index, the Rust version, the folder, and the two
/// configuration files.
const READ: &str = "\
a /w/a/Cargo.toml 1.70.0 2 0; files, 1|- -|- -\
~virtual workspace /w/Cargo.toml - 2 0; a file, 1|/w -|../../index -\
~virtual workspace /w/b/Cargo.toml 1.71.0 3 0; files, 1|../../b/Cargo.toml -|- -\
~a /w/a/Cargo.toml - 2 0; files, 1|- -|- !\
~virtual workspace /w/b/Cargo.toml 1.2.3 3 0; files, 1|/w/b -|- 1.2.3\
~virtual workspace /w/Cargo.toml 1.72.0 2 0; of/w/a /w/a/Cargo.toml 1.72.0 2 0; \
of/w/b /w/b/Cargo.toml 1.72.0 3 1; \
of/w/c /w/c/Cargo.toml 1.72.0 3 2; a file, 0|/nowhere ../../all.json|/w/index -\
~virtual workspace /w/Cargo.toml - 2 0; of/w/a /w/a/Cargo.toml - 2 0; of/w/b /w/b/Cargo.toml - 3 1; \
of/w/c /w/c/Cargo.toml - 3 2; files, 0|- /w/all.json|- !\
~a /w/a/Cargo.toml 1.70.0 2 0; /w/a/registries, 1|- -|- - ../registries\
~a /w/a/Cargo.toml 1.70.0 2 0; /r, 1|- -|- - /r/\
~virtual workspace /w/Cargo.toml - 2 0; a file, 1|/w -|../../index - /r\
~30 Invalid index line 1|- -|/w/bad_index - /r\
~a /w/a/Cargo.toml 1.70.0 4 0; files, 1|- -|- - - /w/near.toml ../../far.toml\
~a /w/a/Cargo.toml 1.70.0 3 0; files, 1|- -|- - - - ../../far.toml\
~6 Failed to get cargo file metadata|- -|- - - /w/none.toml ../../far.toml\
~31 invalid cargo config at /w/c/Cargo.toml|- -|- - - - /w/c/Cargo.toml";

#[test]
fn reads_sources(rt: HostRuntime) {
    check_rows(&rt, rt.alloc(), READ, TILDES, read);
}
