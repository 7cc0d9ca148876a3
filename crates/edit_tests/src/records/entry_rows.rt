//! Tests of entries of a dependency table, each read as a `Dependency`.
use super::parts::record_at;
use crate::assertion_helpers::{text, unfold_lines, unwrap_alloc};
use crate::rows::{LINES, check_rows};
use edit_record::Dependency;
use std::alloc::Global;
use std::process::Abort;

/// What an entry says, its key, and what stands below `[dependencies]`, with `@` for a line's end. A record
/// is shown by its text, its key, its requirement, its registry, its features, its default features and
/// whether it is optional.
const ENTRIES: &str = "\
x@1.0 x 1.0 - - - -|x|x = \"1.0\"
x@1.0 x 1.0 - - - -|x|x = '1.0+build'
x@^1.0, <2 x ^1.0, <2 - - - -|x|\"x\" = \"^1.0, <2\"
x@ x  - - - -|x|x = \"\"
x@1 x 1 - - - -|x|x = { version = \"1\" }
x@1 x 1 - - - -|x|x.version = \"1\"
x@1 x 1 - - - -|x|[dependencies.x]@version = \"1\"
x@1 x 1 - - - -|x|x = { version = \"1+a+b\" }
x@/foo/../bar x - - - - -|x|x = { path = \"../bar\" }
x@/bar x - - - - -|x|x.path = \"/bar\"
x@/foo/bar x 0.2 - - - -|x|x = { version = \"0.2+c\", path = \"bar\" }
x@/foo/ x - - - - -|x|x = { path = \"\" }
x@u x - - - - -|x|x = { git = \"u\" }
x@u?branch=b x - - - - -|x|x = { git = \"u\", branch = \"b\" }
x@u?tag=t x - - - - -|x|x = { git = \"u\", tag = \"t\" }
x@u?rev=r x - - - - -|x|x = { git = \"u\", rev = \"r\" }
x@u?tag=t x - - - - -|x|x = { tag = \"t\", branch = \"b\", git = \"u\" }
x@u?rev=r x 2 - - - -|x|x = { rev = \"r\", version = \"2\", tag = \"t\", branch = \"b\", git = \"u\" }
x@u?rev=r x - - - - -|x|x = { path = \"p\", git = \"u\", rev = \"r\" }
x@workspace x - - - - -|x|x.workspace = true
x@workspace x - - - - -|x|x = { workspace = true }
x@workspace x - - - - -|x|[dependencies.x]@workspace = true
x@workspace x - - a,b - true|x|x = { workspace = true, features = [\"a\", \"b\"], optional = true }
x@1 x 1 - - - -|x|x = { workspace = false, version = \"1\" }
dep@1 x 1 - - - -|x|x = { package = \"dep\", version = \"1\" }
x@1 x 1 - - - -|x|x = { package = \"x\", version = \"1\" }
dep@workspace x - - - - -|x|x = { workspace = true, package = \"dep\" }
x@1 x 1 alternative - - -|x|x = { version = \"1\", registry = \"alternative\" }
x@/p x - alternative - - -|x|x = { registry = \"alternative\", path = \"/p\" }
x@1 x 1 - - - true|x|x = { optional = true, version = \"1\" }
x@1 x 1 - - - false|x|x = { optional = false, version = \"1\" }
x@1 x 1 - - - -|x|x = { optional = \"true\", version = \"1\" }
x@1 x 1 - - - -|x|x = { optional = 1, version = \"1\" }
x@1 x 1 - - false -|x|x = { default-features = false, version = \"1\" }
x@1 x 1 - - true -|x|x = { version = \"1\", default-features = true }
x@1 x 1 - - - -|x|x = { version = \"1\", default-features = [] }
x@1 x 1 -  - -|x|x = { version = \"1\", features = [] }
x@1 x 1 - a - -|x|x = { version = \"1\", features = [\"a\"] }
x@1 x 1 - b,a,b - -|x|x = { features = [\"b\", 'a', \"b\"], version = \"1\" }
x@1 x 1 - - - -|x|x = { version = \"1\", registry-index = 1, other = 2 }
dep@u?tag=t y 3 r f true false|y|\
[dependencies.y]@package = \"dep\"@git = \"u\"@tag = \"t\"@version = \"3\"\
@registry = \"r\"@features = [\"f\"]@default-features = true@optional = false";

/// The text of an optional boolean of an entry.
fn truth(value: Option<bool>) -> &'static str {
    match value {
        Some(true) => "true",
        Some(false) => "false",
        None => "-",
    }
}

/// Features separated by commas, `-` where the entry has none.
fn features(rt: &impl Abort, alloc: Global, texts: Option<&Vec<String>>) -> String {
    match texts {
        Some(texts) => unwrap_alloc(rt, texts.as_slice().join(alloc, ",")),
        None => text(rt, alloc, "-"),
    }
}

/// The features of a `Dependency`, its default features, and whether it is optional.
fn feature_fields(rt: &impl Abort, alloc: Global, record: &Dependency) -> String {
    let features = features(rt, alloc, record.features.as_ref());
    let default_features = truth(record.default_features());
    let optional = truth(record.optional());
    unwrap_alloc(
        rt,
        format!(in alloc; "{features} {default_features} {optional}"),
    )
}

/// The fields of a `Dependency`.
pub(crate) fn dependency_fields(rt: &impl Abort, alloc: Global, record: &Dependency) -> String {
    let rest = feature_fields(rt, alloc, record);
    let key = record.toml_key();
    let version = record.version().unwrap_or("-");
    let registry = record.registry().unwrap_or("-");
    unwrap_alloc(
        rt,
        format!(in alloc; "{record} {key} {version} {registry} {rest}"),
    )
}

/// The result of reading the entry of a row.
fn entry(rt: &impl Abort, alloc: Global, key: &str, entries: &str) -> String {
    let entries = unfold_lines(rt, alloc, entries);
    let manifest = unwrap_alloc(rt, format!(in alloc; "[dependencies]\n{entries}"));
    let record = record_at(rt, alloc, "/foo", key, manifest.as_str());
    dependency_fields(rt, alloc, &record)
}

#[test]
fn reads_entries(rt: HostRuntime) {
    check_rows(&rt, rt.alloc(), ENTRIES, LINES, entry);
}
