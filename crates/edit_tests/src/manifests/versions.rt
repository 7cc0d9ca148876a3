//! Tests of the versions in manifests, by calls that no program makes.
use crate::assertion_helpers::{error_number_and_text, push, success_or_error, text, unwrap_ok};
use crate::rows::{TILDES, check_rows};
use edit_document::{Document, Place, Step};
use edit_manifest::{Manifest, get_dep_version, set_dep_version};
use semver::Version;
use std::alloc::Global;
use std::process::Abort;

/// The place of keys separated by slashes.
fn place_of(rt: &impl Abort, alloc: Global, names: &str) -> Place {
    let mut place = Vec::new(alloc);
    'names: for name in names.split('/') {
        push(rt, &mut place, Step::Key(text(rt, alloc, name)));
    }
    place
}

/// The requirement of the entry at a place.
fn requirement(rt: &impl Abort, alloc: Global, document: &Document, place: &[Step]) -> String {
    match document.item(place).map(|item| get_dep_version(item)) {
        Some(Ok(requirement)) => text(rt, alloc, requirement),
        Some(Err(error)) => error_number_and_text(rt, alloc, error),
        None => text(rt, alloc, "no entry"),
    }
}

/// Sets the requirement of the entry at a place; `done` where it has that requirement then.
fn require(rt: &impl Abort, alloc: Global, document: &mut Document, row_text: &str) -> String {
    let (names, new) = row_text.split_once(' ').unwrap_or((row_text, ""));
    let place = place_of(rt, alloc, names);
    let keyword = success_or_error(
        rt,
        alloc,
        set_dep_version(alloc, document, &place, new),
        "done",
    );
    if keyword.as_str() == "done" && requirement(rt, alloc, document, &place).as_str() != new {
        return text(rt, alloc, "another one");
    }
    keyword
}

/// Parses a version.
fn version_of(rt: &impl Abort, alloc: Global, row_text: &str) -> Version {
    Version::parse(alloc, row_text).expect(rt, "a version")
}

/// Sets a version, of the package or of the workspace, or a requirement, and returns the result.
fn set(
    rt: &impl Abort,
    alloc: Global,
    manifest: &mut Manifest,
    keyword: &str,
    rest: &str,
) -> String {
    if keyword == "require" {
        return require(rt, alloc, &mut manifest.document, rest);
    }
    let version = version_of(rt, alloc, rest);
    match keyword {
        "package" => success_or_error(
            rt,
            alloc,
            manifest.set_package_version(alloc, &version),
            "done",
        ),
        _ => success_or_error(
            rt,
            alloc,
            manifest.set_workspace_version(alloc, &version),
            "done",
        ),
    }
}

/// The text of a manifest after a change; or the error, where the text is unchanged then.
fn manifest_or_error(
    rt: &impl Abort,
    alloc: Global,
    manifest: &mut Manifest,
    (keyword, rest): (&str, &str),
    source: &str,
) -> String {
    let keyword = set(rt, alloc, manifest, keyword, rest);
    if keyword.as_str() == "done" {
        return text(rt, alloc, manifest.document.as_str());
    }
    if manifest.document.as_str() != source {
        return text(rt, alloc, "refused and changed");
    }
    keyword
}

/// The result for a copy of a manifest: a requirement, or its text after a change.
fn answer(rt: &impl Abort, alloc: Global, call: &str, source: &str) -> String {
    let manifest = unwrap_ok(rt, Manifest::read(alloc, source));
    let mut copy = unwrap_ok(rt, manifest.try_clone(alloc));
    let (keyword, rest) = call.split_once(' ').unwrap_or((call, ""));
    if keyword == "requirement" {
        return requirement(rt, alloc, &copy.document, &place_of(rt, alloc, rest));
    }
    manifest_or_error(rt, alloc, &mut copy, (keyword, rest), source)
}

/// What is answered, the call and the text; a row ends at `~` (Cargo reference, "The Manifest Format", The
/// version field; "Workspaces", The package table).
const VERSIONS: &str = "\
[package]\nversion = \"0.2.0\" # v\n|package 0.2.0|[package]\nversion = '0.1.0' # v\n~\
13 No version literal to set|package 0.2.0|[package]\nversion.workspace = true\n~\
package.version = \"1.0.0-rc.1+b\"\n|package 1.0.0-rc.1+b|package.version = 'x'\n~\
13 No version literal to set|package 1.0.0|[package]\nname = \"a\"\n~\
13 No version literal to set|package 1.0.0|~\
13 No version literal to set|workspace 1.0.0|[package]\nversion = \"0.1.0\"\n~\
[workspace.package]\r\nversion = \"1.0.0\"\r\n|workspace 1.0.0|\
[workspace.package]\r\nversion = \"\"\"0.1.0\"\"\"\r\n";

/// Rows of requirements of entries: the result, the call and the text (Cargo reference, "Specifying
/// Dependencies").
const REQUIREMENTS: &str = "\
1|requirement a|a = \"1\"~\
=1.2|requirement dependencies/a|[dependencies]\na = { version = '=1.2', optional = true }\n~\
2|requirement dependencies/a|[dependencies.a]\nversion = \"2\"\n~\
2|requirement a|a.version = \"2\"\n~\
10 Missing version field|requirement a|a = { path = \"../a\" }\n~\
10 Missing version field|requirement a|[a]\n~\
11 Expect version to be a string|requirement a|a = { version = 1 }\n~\
11 Expect version to be a string|requirement a|a.version.workspace = true\n~\
12 Invalid dependency type|requirement a|a = 1\n~\
12 Invalid dependency type|requirement a|a = [\"1\"]\n~\
12 Invalid dependency type|requirement a|[[a]]\nversion = \"1\"\n~\
a = \"2\" # keep\n|require a 2|a = '1' # keep\n~\
[d]\na = { version = \"2\", optional = true }\n|require d/a 2|[d]\na = { version = '1', optional = true }\n~\
a = { version = \"2\" }\n|require a 2|a = { version = [ 1, 2 ] }\n~\
[a]\nversion = \"2\"\n[a.b]\n|require a 2|[a]\nversion = 1\n[a.b]\n~\
10 Missing version field|require a 2|a = { path = \"../a\" }\n~\
12 Invalid dependency type|require a 2|a = true\n~\
12 Invalid dependency type|require b 2|a = \"1\"\n~\
13 No version literal to set|require a 2|a.version.workspace = true\n~\
13 No version literal to set|require a 2|[a.version]\nworkspace = true\n";

#[test]
fn reads_and_sets_versions(rt: HostRuntime) {
    check_rows(&rt, rt.alloc(), VERSIONS, TILDES, answer);
    check_rows(&rt, rt.alloc(), REQUIREMENTS, TILDES, answer);
}
