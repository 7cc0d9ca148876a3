//! Rows of entries that come to say what a record says: the manifest that is left, the manifest, and the
//! record, its parts between semicolons. Lines end with `@`; a manifest without a header is one of entries.
use super::written_rows::record;
use crate::assertion_helpers::{
    push, success_or_error, text, unfold_lines, unwrap_alloc, unwrap_ok,
};
use crate::rows::{LINES, check_rows};
use edit_base::CargoResult;
use edit_document::{Document, Place, Step};
use edit_record::Dependency;
use edit_update::DependencyExt;
use std::alloc::Global;
use std::process::Abort;

/// Strings, and tables of one member that one pair names: another entry stands there. Inline tables.
/// Features: those of the entry and then those of the record, each once. Tables with a header of their
/// own, and entries of dotted keys. Then what is neither a string nor a table, which is refused, and then
/// the manifest is as it was.
const UPDATED: &str = "\
x = \"2\"|x = \"1\"|registry=2
x = { version = \"2\", optional = true }|x = \"1\"|registry=2;optional=true
x = \"2\" # keep|x = \"1\" # keep|registry=2
\"x\" = \"2\"  # keep|\"x\"  =  '1'  # keep|registry=2
x = { path = \"../bar\" }|x = \"1\"|path=/bar
x.workspace = true|x = \"1\"|workspace=
x = { workspace = true, optional = true }|x = \"1\"|workspace=;optional=true
x = { git = \"u\", rev = \"r\" }|x = \"1\"|bare rev=r
x = { git = \"https://foor/bar.git\" }|x = \"1\"|git=https://foor/bar.git
x = { version = \"1.0\", package = \"dep\" }|x = \"1\"|registry=1.0;rename=x
x = { version = \"1.0\", registry = \"alternative\" }|x = \"1\"|registry=1.0;registry name=alternative
x = { version = \"1.0\", default-features = false }|x = \"1\"|registry=1.0;default features=false
x = { version = \"1.0\", package = \"dep\", default-features = false }|x = \"1\"|\
registry=1.0;rename=x;default features=false
x = \"2\" # c|x = { version = \"1\" } # c|registry=2
x = { version = \"2\", features = [\"a\"] }|x = { git = \"u\" }|registry=2;features=a
x = \"2\"|x.version = \"1\"|registry=2
x.workspace = true|x.version = \"1\"|workspace=
x = { version = \"2\", optional = true }@y = \"1\"|x.workspace = true@y = \"1\"|registry=2;optional=true
dependencies = { x = \"2\" }|dependencies = { x = \"1\" }|registry=2
dependencies = { x = \"2\", y = \"1\" }|dependencies = { x.version = \"1\", y = \"1\" }|registry=2
serde = { version = \"2\", features = [\"a\", \"b\"], optional = true }|\
serde = { version = \"1\", features = [\"a\"] }|registry=2;features=b a;optional=true
x = { git = \"u\", tag = \"t\" }|x = { git = \"u\", branch = \"b\" }|bare tag=t
x = { version = \"2\" }|x = {}|registry=2
x = { version = \"2\" }|x = { version = \"1\", path = \"p\" }|registry=2
x = { version = \"2\" }|x = { path = \"p\", version = \"1\" }|registry=2
x = { path = \"../bar\" }|x = { version = \"1\", registry = \"r\" }|path=/bar
x = { path = \"../bar\" }|x = { version = \"1\", registry = \"r\" }|path=/bar;registry name=n
x = { path = \"../bar\", version = \"3\", registry = \"n\" }|x = { path = \"p\", version = \"1\" }|\
versioned path=/bar;registry name=n
x = { git = \"u\", version = \"0.1\", tag = \"t\" }|x = { git = \"v\", branch = \"b\", version = \"1\" }|tag=t
x = { git = \"u\", optional = false, rev = \"r\", version = \"0.1\" }|\
x = { git = \"u\", tag = \"t\", optional = true }|rev=r;optional=false
x = { workspace = true }|\
x = { version = \"1\", registry-index = \"i\", package = \"y\", default-features = false }|workspace=
x = { package = \"dep\", workspace = true }|x = { version = \"1\", package = \"y\" }|workspace=;rename=x
x = { version = \"2\", registry-index = \"i\" }|x = { version = \"1\", registry-index = \"i\" }|registry=2
x = { version = \"2\", package = \"y\" }|x = { version = \"1\", package = \"y\" }|registry=2
x = { version = \"2\", package = \"dep\" }|x = { version = \"1\", package = \"y\" }|registry=2;rename=x
x = { version = \"2\", registry = \"n\" }|x = { version = \"1\", registry = \"m\" }|registry=2;registry name=n
x = { version = \"2\" }|x = { version = \"1\", registry = \"m\" }|registry=2
x = { version = \"2\", default-features = true }|x = { version = \"1\", default-features = false }|\
registry=2;default features=true
x = { version = \"2\" }|x = { version = \"1\", default-features = false }|registry=2
x = { version = \"2\", default_features = false }|x = { version = \"1\", default_features = false }|registry=2
x = { version = \"1\", git = \"u\", optional = true }|x = { version = \"1\", git = \"u\" }|optional=true
x = { version = \"1\", package = \"y\", registry = \"n\" }|\
x = { version = \"1\", package = \"y\" }|registry name=n
x = { git = \"u\" }|x = { git = \"u\", registry = \"m\" }|registry name=n
x = {  }|x = { optional = true, features = [\"a\"] }|inherited features=a
x   =   {version=\"2\",optional=true}|x   =   {version=\"1\",optional=false}|registry=2;optional=true
x = { version = \"2\", optional = true } # keep|x = { version = '1.0', optional = true } # keep|\
registry=2;optional=true
x = { \"version\" = \"2\", 'optional' = true }|x = { \"version\" = \"1\", 'optional' = false }|\
registry=2;optional=true
x = { version = \"2\" }@y = { path = \"p\" }|\
x = { path = \"p\", version = \"1\" }@y = { path = \"p\" }|registry=2
dependencies = { x.version = \"2\", x.optional = true }|\
dependencies = { x.version = \"1\", x.path = \"p\" }|registry=2;optional=true
x = { version = \"2\", features = [\"a\", \"b\", \"c\"] }|\
x = { version = \"1\", features = [\"a\", \"b\", \"a\"] }|registry=2;features=c b c
x = { version = \"2\", features = [\"a\"] }|x = { version = \"1\", features = [ 'a', ] }|registry=2;features=
x = { version = \"2\", features = [\"c\"] }|\
x = { version = \"1\", features = [true, \"b\"] }|registry=2;features=c
x = { version = \"2\", features = [\"c\"] }|x = { version = \"1\", features = \"a\" }|registry=2;features=c
x = { version = \"2\", optional = true, features = [\"b\", \"a\"] }|x = { version = \"1\", optional = true }|\
registry=2;features=b a;optional=true
x = { version = \"2\" }|x = { version = \"1\", features = [\"a\"] }|registry=2
[dependencies.x]@version = \"2\"@features = [\"a\", \"b\"]@|\
[dependencies.x]@version = \"1\"@features = [@  \"a\", # why@]@|registry=2;features=b
[dependencies.x]@version = \"2\"|[dependencies.x]@version = \"1\"|registry=2
[dependencies.x]@version = \"2\" # c@optional = true|[dependencies.x]@version = \"1\" # c|\
registry=2;optional=true
[dependencies.x] # c@version = \"2\"@|[dependencies.x] # c@|registry=2
[dependencies.x]@workspace = true@|[dependencies.x]@version = \"1\"@|workspace=
[dependencies.x]@# why@version = \"3\"@path = \"../bar\"@|[dependencies.x]@# why@version = \"1\"@|\
versioned path=/bar
[dependencies.x]@version = \"2\"@|[dependencies.x]@version = \"1\"@# which@git = \"u\"@|registry=2
[dependencies.x]@version = \"2\"@@[other]@|[dependencies.x]@version = \"1\"@path = \"p\"@@[other]@|registry=2
[dependencies.x]@version = \"2\"@[dependencies.x.y]@a = 1@|[dependencies.x.y]@a = 1@|registry=2
x.version = \"2\"@x.features = [\"a\", \"b\"]@x.optional = true@|x.version = \"1\"@x.features = [\"a\"]@|\
registry=2;features=b;optional=true
x.version = \"2\" # c@y = \"1\"@|x.version = \"1\" # c@x.path = \"p\"@y = \"1\"@|registry=2
y = \"1\"@|x.optional = true@x.features = [\"a\"]@y = \"1\"@|inherited features=a
x = 1, 49 Edit would change more than its place|x = 1|registry=2
x = [], 49 Edit would change more than its place|x = []|registry=2
[[dependencies.x]]@version = \"1\"@, 49 Edit would change more than its place|\
[[dependencies.x]]@version = \"1\"@|registry=2";

/// The header above a manifest that is only entries.
const HEADER: &str = "[dependencies]\n";

/// The place of the dependency of a row: `serde` where its manifest begins with that key, else `x`.
fn place_of(rt: &impl Abort, alloc: Global, lines: &str) -> Place {
    let key = if lines.starts_with("serde") {
        "serde"
    } else {
        "x"
    };
    let mut place = Vec::new(alloc);
    push(rt, &mut place, Step::Key(text(rt, alloc, "dependencies")));
    push(rt, &mut place, Step::Key(text(rt, alloc, key)));
    place
}

/// Updates the entry at a place, where there is one.
fn update(
    alloc: Global,
    document: &mut Document,
    record: &Dependency,
    place: &[Step],
) -> CargoResult<()> {
    if place.len() > 70 || document.item(place).is_none() {
        return Ok(());
    }
    record.update_toml(alloc, "/foo", document, place)
}

/// The manifest after the update, and the error where there is one.
fn manifest_and_error(
    rt: &impl Abort,
    alloc: Global,
    document: &Document,
    failure: &str,
) -> String {
    let text = document.as_str();
    let text = text.strip_prefix(HEADER).unwrap_or(text);
    let left = unwrap_alloc(rt, text.replace(alloc, '\n', "@"));
    let comma = if failure.is_empty() { "" } else { ", " };
    unwrap_alloc(rt, format!(in alloc; "{left}{comma}{failure}"))
}

/// The manifest of a row: below `[dependencies]` where it has no header.
fn manifest(rt: &impl Abort, alloc: Global, lines: &str) -> String {
    let is_whole = lines.starts_with('[') || lines.starts_with("dependencies");
    let header = if is_whole { "" } else { HEADER };
    let lines = unfold_lines(rt, alloc, lines);
    unwrap_alloc(rt, format!(in alloc; "{header}{lines}"))
}

/// The manifest of a row after an update of its dependency from a `Dependency`.
fn left_by(rt: &impl Abort, alloc: Global, lines: &str, record: &Dependency) -> String {
    let manifest = manifest(rt, alloc, lines);
    let mut document = unwrap_ok(rt, Document::read(alloc, manifest.as_str()));
    let place = place_of(rt, alloc, lines);
    let answer = update(alloc, &mut document, record, &place);
    let failure = success_or_error(rt, alloc, answer, "");
    manifest_and_error(rt, alloc, &document, failure.as_str())
}

/// The manifest of a row after an update from the `Dependency` of the row.
fn update_row(rt: &impl Abort, alloc: Global, lines: &str, parts: &str) -> String {
    let record = record(rt, alloc, parts);
    left_by(rt, alloc, lines, &record)
}

#[test]
fn entries_are_updated(rt: HostRuntime) {
    check_rows(&rt, rt.alloc(), UPDATED, LINES, update_row);
}
