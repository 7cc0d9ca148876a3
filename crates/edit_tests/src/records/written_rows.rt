//! Rows of records and their new entries: what is written, the folder of the manifest, and what the record
//! says, its parts between semicolons.
use super::parts::record_at;
use crate::assertion_helpers::{push, text, text_or_error, unwrap_alloc, unwrap_ok};
use crate::rows::{LINES, check_rows};
use edit_document::NewItem;
use edit_record::{Dependency, GitSource, PathSource, RegistrySource, Source, WorkspaceSource};
use std::alloc::Global;
use std::collections::BTreeMap;
use std::process::Abort;

/// Each source alone and with each part that an entry can have; where another entry is written of what is
/// read, that one comes second.
const WRITTEN: &str = "\
\"1.0\"|/|registry=1.0
\"1.0\"|/|registry=1.0;optional=false;default features=true;inherited features=a
{ version = \"1.0\", optional = true }|/|registry=1.0;optional=true
{ version = \"1.0\", default-features = false }|/|registry=1.0;default features=false
{ version = \"1.0\", package = \"dep\" }|/|registry=1.0;rename=d
{ version = \"1.0\", registry = \"alternative\" }|/|registry=1.0;registry name=alternative
{ version = \"1.0\", package = \"dep\", default-features = false }|/|\
registry=1.0;rename=d;default features=false
{ version = \"1.0\", features = [] }|/|registry=1.0;features=
{ version = \"2\", features = [\"b\", \"a\", \"b\"], optional = false }|/|\
registry=2;features=b a b;optional=false
{ git = \"https://foor/bar.git\" }|/|git=https://foor/bar.git
{ git = \"u\", branch = \"b\", version = \"0.1\" }|/|branch=b
{ git = \"u\", tag = \"t\", version = \"0.1\" }|/|tag=t
{ git = \"u\", rev = \"r\", version = \"0.1\", registry = \"n\" }|/|rev=r;registry name=n
{ path = \"sibling/crate\" }|/|path=/sibling/crate
{ path = \"../bar\" }|/foo|path=/bar
{ path = \"\" }|/foo|path=/foo/
{ path = \"bar\" }|/foo/|path=/foo/./bar
{ path = \"../../b/c\" }|/a/d|path=/a/../b//./c
{ path = \"a/b\" }|/foo|path=/foo/a\\b
{ path = \"/y\" }, then { path = \"../y\" }|/foo|path=/foo/\\y
{ version = \"3\", path = \"../p\", registry = \"n\" }|/foo|versioned path=/p;registry name=n
{ path = \"../p\", package = \"dep\" }|/foo|path=/p;registry name=n;rename=d
.workspace = true|/|workspace=
{ workspace = true, package = \"dep\", features = [\"a\"] }|/|workspace=;rename=d;features=a
{ workspace = true }, then .workspace = true|/|workspace=;registry name=n
{ version = \"1\", registry = \"n\", package = \"dep\", default-features = true, \
features = [\"a\"], optional = true }|/|\
registry=1;registry name=n;rename=d;default features=true;features=a;optional=true";

/// The parts of a text, separated by spaces; none for the empty text.
fn split_list(rt: &impl Abort, alloc: Global, line: &str) -> Vec<String> {
    let mut all = Vec::new(alloc);
    'parts: for part in line.split_terminator(' ') {
        push(rt, &mut all, text(rt, alloc, part));
    }
    all
}

/// A git source with a branch, a tag or a revision set in turn, the last of which counts; without a
/// version.
fn repository(rt: &impl Abort, alloc: Global, part: &str, text: &str) -> GitSource {
    let git = unwrap_ok(rt, GitSource::new(alloc, "u"));
    match part {
        "bare tag" => unwrap_ok(rt, git.set_tag(alloc, text)),
        "bare rev" => unwrap_ok(rt, git.set_rev(alloc, text)),
        _ => versioned_git_source(
            rt,
            alloc,
            unwrap_ok(rt, git.set_version(alloc, "0.1+c")),
            part,
            text,
        ),
    }
}

/// A git source with one part more, or with a version.
fn versioned_git_source(
    rt: &impl Abort,
    alloc: Global,
    git: GitSource,
    part: &str,
    text: &str,
) -> GitSource {
    match part {
        "branch" => {
            let git = unwrap_ok(rt, git.set_tag(alloc, "t"));
            let git = unwrap_ok(rt, git.set_rev(alloc, "r"));
            unwrap_ok(rt, git.set_branch(alloc, text))
        }
        "tag" => {
            let git = unwrap_ok(rt, git.set_rev(alloc, "r"));
            let git = unwrap_ok(rt, git.set_branch(alloc, "b"));
            unwrap_ok(rt, git.set_tag(alloc, text))
        }
        _ => {
            let git = unwrap_ok(rt, git.set_branch(alloc, "b"));
            let git = unwrap_ok(rt, git.set_tag(alloc, "t"));
            unwrap_ok(rt, git.set_rev(alloc, text))
        }
    }
}

/// The source that a part describes.
fn source(rt: &impl Abort, alloc: Global, part: &str, text: &str) -> Source {
    match part {
        "registry" => Source::from(unwrap_ok(rt, RegistrySource::new(alloc, text))),
        "git" => Source::from(unwrap_ok(rt, GitSource::new(alloc, text))),
        "workspace" => Source::from(WorkspaceSource::new()),
        "path" | "versioned path" | "path version" => path(rt, alloc, part, text),
        _ => Source::from(repository(rt, alloc, part, text)),
    }
}

/// A path source, with or without a version.
fn path(rt: &impl Abort, alloc: Global, part: &str, text: &str) -> Source {
    let folder = if part == "path version" { "/w/x" } else { text };
    let source = unwrap_ok(rt, PathSource::new(alloc, folder));
    match part {
        "path" => Source::from(source),
        "path version" => Source::from(unwrap_ok(rt, source.set_version(alloc, text))),
        _ => Source::from(unwrap_ok(rt, source.set_version(alloc, "3"))),
    }
}

/// The features that a crate has: one, which has two others.
fn features_of(rt: &impl Abort, alloc: Global, name: &str) -> BTreeMap<String, Vec<String>> {
    let mut features = BTreeMap::new(alloc);
    let others = split_list(rt, alloc, "b c");
    let name = text(rt, alloc, name);
    features.insert(name, others).ok().expect(rt, "memory");
    features
}

/// The `Dependency` with features added.
fn with_features(
    rt: &impl Abort,
    alloc: Global,
    record: Dependency,
    part: &str,
    features: Vec<String>,
) -> Dependency {
    match part {
        "features" => record.set_features(features),
        "inherited features" => record.set_inherited_features(features),
        _ => unwrap_ok(rt, record.extend_features(alloc, features)),
    }
}

/// The `Dependency` with one part more.
fn with_part(
    rt: &impl Abort,
    alloc: Global,
    record: Dependency,
    part: &str,
    text: &str,
) -> Dependency {
    match part {
        "bare" => record,
        "rename" => unwrap_ok(rt, record.set_rename(alloc, text)),
        "registry name" => unwrap_ok(rt, record.set_registry(alloc, text)),
        "default features" => record.set_default_features(text == "true"),
        "optional" => record.set_optional(text == "true"),
        _ => with_values(rt, alloc, record, part, text),
    }
}

/// The `Dependency` with one part more, which has several values or is a source.
fn with_values(
    rt: &impl Abort,
    alloc: Global,
    record: Dependency,
    part: &str,
    text: &str,
) -> Dependency {
    match part {
        "features" | "more features" | "inherited features" => {
            with_features(rt, alloc, record, part, split_list(rt, alloc, text))
        }
        "available features" => record.set_available_features(features_of(rt, alloc, text)),
        _ => record.set_source(source(rt, alloc, part, text)),
    }
}

/// The `Dependency` of this name with these parts.
pub(crate) fn record_of(rt: &impl Abort, alloc: Global, name: &str, parts: &str) -> Dependency {
    let mut record = unwrap_ok(rt, Dependency::new(alloc, name));
    'parts: for part in parts.split(';') {
        let (part, text) = part.split_once('=').unwrap_or((part, ""));
        record = with_part(rt, alloc, record, part, text);
    }
    record
}

/// The `Dependency` of the crate `dep` with these parts.
pub(crate) fn record(rt: &impl Abort, alloc: Global, parts: &str) -> Dependency {
    record_of(rt, alloc, "dep", parts)
}

/// The text of a new entry: a value, or a dotted key.
fn entry_form_text(rt: &impl Abort, alloc: Global, item: &NewItem) -> String {
    match item {
        NewItem::Inline { dotted: true, .. } => text(rt, alloc, ".workspace = true"),
        _ => text_or_error(rt, alloc, item.text(alloc)),
    }
}

/// The new entry of a `Dependency`.
fn entry(rt: &impl Abort, alloc: Global, root: &str, record: &Dependency) -> String {
    let item = unwrap_ok(rt, record.to_toml(alloc, root));
    entry_form_text(rt, alloc, &item)
}

/// The entry written from what is read of an entry.
fn rewritten_entry(rt: &impl Abort, alloc: Global, root: &str, key: &str, first: &str) -> String {
    let equals = if first.starts_with('.') { "" } else { " = " };
    let manifest = unwrap_alloc(
        rt,
        format!(in alloc; "[dependencies]\n{key}{equals}{first}"),
    );
    let record = record_at(rt, alloc, root, key, manifest.as_str());
    entry(rt, alloc, root, &record)
}

/// An entry, and, where it differs, the entry written from what is read of it.
fn entry_texts(rt: &impl Abort, alloc: Global, root: &str, key: &str, first: &str) -> String {
    let again = rewritten_entry(rt, alloc, root, key, first);
    if again.as_str() == first {
        return again;
    }
    unwrap_alloc(rt, format!(in alloc; "{first}, then {again}"))
}

/// The entry of a row, and, where it differs, the entry written from what is read of it.
fn entry_texts_of_row(rt: &impl Abort, alloc: Global, root: &str, parts: &str) -> String {
    let record = record(rt, alloc, parts);
    let first = entry(rt, alloc, root, &record);
    entry_texts(rt, alloc, root, record.toml_key(), first.as_str())
}

#[test]
fn entries_are_written(rt: HostRuntime) {
    check_rows(&rt, rt.alloc(), WRITTEN, LINES, entry_texts_of_row);
}
