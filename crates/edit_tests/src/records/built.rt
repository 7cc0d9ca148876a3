//! Tests of the calls that build a `Dependency`, of its text and its order.
use super::entry_rows::dependency_fields;
use super::parts::comparison_text;
use super::written_rows::record_of;
use crate::assertion_helpers::{text, unwrap_alloc, unwrap_ok};
use crate::rows::{LINES, check_rows};
use edit_record::{Dependency, Source};
use std::alloc::Global;
use std::process::Abort;

/// What a copy of a record says that these parts gave, and which of the four its source is; the crate's
/// name, and the parts.
const BUILT: &str = "\
x@1.0 x 1.0 - - - -, registry|x|registry=1.0+a
a@1.0.0 a 1.0.0 - - - -, registry|a|registry=1.0.0+a
x@/w/x x 2 - - - -, path|x|path version=2+b
a@/w/x a 0.1 - - - -, path|a|path version=0.1
a@https://example.org/a a - - - - -, git|a|git=https://example.org/a
x@u?branch=main x 0.1 - - - -, git|x|branch=main
x@u?tag=v1 x 0.1 - - - -, git|x|tag=v1
x@u?rev=abc x 0.1 - - - -, git|x|rev=abc
x@workspace x - - - - -, workspace|x|workspace
x x - - - - -, none|x|bare
serde serde - - - - -, none|serde|bare
d d - - - - -, none|x|rename=d
x x - r - - -, none|x|registry name=r
x x - - b,a - -, none|x|features=b a
x x - - a,b,b,c - -, none|x|features=a b;more features=b c
x x - - b,c - -, none|x|more features=b c
x x - - - - true, none|x|optional=true
x x - - - - false, none|x|optional=false
x x - - - false -, none|x|default features=false
x x - - - true -, none|x|default features=true
x x - - - - -, none|x|inherited features=a
x x - - - - -, none|x|available features=a";

/// How two `Dependency` values compare: by fields in their declared order, with `None` first.
const COMPARED: &str = "\
equal, one hash|registry=1|registry=1+a
less, two hashes|registry=1|registry=2
less, two hashes|registry=9|path version=1
less, two hashes|path version=1|path version=2
less, two hashes|path version=9|branch=b
less, two hashes|tag=t|branch=b
less, two hashes|rev=r|tag=t
less, two hashes|branch=b|workspace
less, two hashes|bare|registry=1
less, two hashes|optional=false|optional=true
less, two hashes|bare|optional=false
greater, two hashes|optional=true|features=a
less, two hashes|features=a|features=b
less, two hashes|default features=-|features=a
less, two hashes|inherited features=a|default features=-
less, two hashes|available features=a|rename=d
equal, one hash|available features=a|available features=a
less, two hashes|bare|available features=a";

/// The variant of a source.
fn kind(source: &Source) -> &'static str {
    if source.as_workspace().is_some() {
        "workspace"
    } else if source.as_git().is_some() {
        "git"
    } else if source.as_path().is_some() {
        "path"
    } else if source.as_registry().is_some() {
        "registry"
    } else {
        ""
    }
}

/// The fields of a `Dependency`, and the variant of its source.
fn record_text(rt: &impl Abort, alloc: Global, record: &Dependency) -> String {
    let fields = dependency_fields(rt, alloc, record);
    let kind = record.source().map_or("none", kind);
    unwrap_alloc(rt, format!(in alloc; "{fields}, {kind}"))
}

/// The fields of the copy of a `Dependency`.
fn copied_fields(rt: &impl Abort, alloc: Global, record: &Dependency, copy: &Dependency) -> String {
    if copy == record {
        record_text(rt, alloc, copy)
    } else {
        text(rt, alloc, "another copy")
    }
}

/// The fields of a copy of the `Dependency` of a row.
fn copied_record_text(rt: &impl Abort, alloc: Global, name: &str, parts: &str) -> String {
    let record = record_of(rt, alloc, name, parts);
    let copy = unwrap_ok(rt, record.try_clone(alloc));
    copied_fields(rt, alloc, &record, &copy)
}

#[test]
fn built_records(rt: HostRuntime) {
    check_rows(&rt, rt.alloc(), BUILT, LINES, copied_record_text);
}

/// How two `Dependency` values with these parts compare.
fn compared_parts(rt: &impl Abort, alloc: Global, one: &str, other: &str) -> String {
    let one = record_of(rt, alloc, "x", one);
    let other = record_of(rt, alloc, "x", other);
    comparison_text(rt, alloc, &one, &other)
}

#[test]
fn compared_records(rt: HostRuntime) {
    check_rows(&rt, rt.alloc(), COMPARED, LINES, compared_parts);
}
