//! Tests of workspaces read from metadata. Errors are in `tests/cases/upgrade/metadata_rejected.toml`.
use crate::assertion_helpers::{error_number_and_text, text, unwrap_alloc, unwrap_ok};
use crate::rows::{TILDES, check_rows};
use edit_metadata::{Package, Workspace, manifest_from_pkgid};
use edit_version::RustVersion;
use std::alloc::Global;
use std::process::Abort;

/// Metadata of two members, with `'` for a quotation mark.
const METADATA: &str = "{'workspace_root':'/w','workspace_members':['A','B'],'packages':[\
{'name':'a','id':'A','manifest_path':'/w/a/Cargo.toml','version':'0.1.0','source':null,\
'rust_version':'1.70'},\
{'name':'b','id':'B','manifest_path':'/w/b/Cargo.toml','version':'1.2.3-rc.1+x'}],'target':'/t'}";

/// A text with quotation marks in place of apostrophes.
pub(crate) fn with_quotation_marks(rt: &impl Abort, alloc: Global, text: &str) -> String {
    unwrap_alloc(rt, text.replace(alloc, '\'', "\""))
}

/// The metadata with the first of one text replaced by another, and quotation marks in place of apostrophes.
fn changed_metadata(rt: &impl Abort, alloc: Global, old: &str, new: &str) -> String {
    let (before, after) = METADATA.split_once(old).unwrap_or((METADATA, ""));
    let text = unwrap_alloc(rt, format!(in alloc; "{before}{new}{after}"));
    with_quotation_marks(rt, alloc, text.as_str())
}

/// The text of a Rust version, `-` for none.
pub(crate) fn rust_text(rt: &impl Abort, alloc: Global, version: Option<RustVersion>) -> String {
    match version {
        Some(version) => {
            let (major, minor, patch) = (version.major, version.minor, version.patch);
            unwrap_alloc(rt, format!(in alloc; "{major}.{minor}.{patch}"))
        }
        None => text(rt, alloc, "-"),
    }
}

/// The source and the Rust version of a package, and whether it is a member.
fn other_package_fields(rt: &impl Abort, alloc: Global, package: &Package) -> String {
    let source = match &package.source {
        Some(source) => source.as_str(),
        None => "-",
    };
    let rust = rust_text(rt, alloc, package.rust_version);
    let member = if package.member { "member" } else { "-" };
    unwrap_alloc(rt, format!(in alloc; "{source} {rust} {member}"))
}

/// The fields of a package.
fn package_fields(rt: &impl Abort, alloc: Global, package: &Package) -> String {
    let rest = other_package_fields(rt, alloc, package);
    let Package {
        name,
        id,
        version,
        manifest_path: path,
        ..
    } = package;
    unwrap_alloc(
        rt,
        format!(in alloc; "; {name} {id} {path} {version} {rest}"),
    )
}

/// The fields of a workspace.
fn workspace_fields(rt: &impl Abort, alloc: Global, workspace: &Workspace) -> String {
    let mut all = text(rt, alloc, workspace.root.as_str());
    'packages: for package in &workspace.packages {
        let one = package_fields(rt, alloc, package);
        unwrap_alloc(rt, all.push_str(one.as_str()));
    }
    all
}

/// The workspace of the metadata with one text replaced by another.
fn workspace(rt: &impl Abort, alloc: Global, old: &str, new: &str) -> Workspace {
    let json = changed_metadata(rt, alloc, old, new);
    unwrap_ok(rt, Workspace::read(alloc, json.as_bytes()))
}

/// The result of reading the metadata with one text replaced by another.
fn read(rt: &impl Abort, alloc: Global, old: &str, new: &str) -> String {
    let workspace = workspace(rt, alloc, old, new);
    workspace_fields(rt, alloc, &workspace)
}

/// Rows: the result; a text in the metadata; its replacement.
const READ: &str = "\
/w; a A /w/a/Cargo.toml 0.1.0 - 1.70.0 member; b B /w/b/Cargo.toml 1.2.3-rc.1+x - - member|'/t'|'/u'\
~/w; a A /w/a/Cargo.toml 0.1.0 - 1.70.0 member; b B /w/b/Cargo.toml 1.2.3-rc.1+x - - member\
|['A','B']|['B','A']\
~/w; a A /w/a/Cargo.toml 0.1.0 - 1.70.0 -; b B /w/b/Cargo.toml 1.2.3-rc.1+x - - member|['A','B']|['C','B']\
~/w; a A /w/a/Cargo.toml 0.1.0 - - member; b B /w/b/Cargo.toml 1.2.3-rc.1+x - - member|'1.70'|null\
~/w; a A /w/a/Cargo.toml 0.1.0 - - member; b B /w/b/Cargo.toml 1.2.3-rc.1+x - - member|'1.70'|'>=1.70'\
~/w; a A /w/a/Cargo.toml 0.1.0 git+x 1.70.0 member; b B /w/b/Cargo.toml 1.2.3-rc.1+x - - member|null|'git+x'\
~/w; a A /w/a/Cargo.toml 0.1.0 - 1.70.0 member; b B /w/b/Cargo.toml 1.2.3-rc.1+x - - member|'source':null,|\
~/v; a A /w/a/Cargo.toml 0.1.0 - 1.70.0 member; b B /w/b/Cargo.toml 1.2.3-rc.1+x - - member|'/w'|'/v'\
~/w; a A /w/a/Cargo.toml 0.1.0 - 1.70.0 -; b B /w/a/Cargo.toml 1.2.3-rc.1+x - - -\
|['A','B'],'packages':[\
{'name':'a','id':'A','manifest_path':'/w/a/Cargo.toml','version':'0.1.0','source':null,\
'rust_version':'1.70'},{'name':'b','id':'B','manifest_path':'/w/b/\
|[],'packages':[{'name':'a','id':'A','manifest_path':'/w/a/Cargo.toml','version':'0.1.0','source':null,\
'rust_version':'1.70'},{'name':'b','id':'B','manifest_path':'/w/a/";

#[test]
fn reads_workspaces(rt: HostRuntime) {
    check_rows(&rt, rt.alloc(), READ, TILDES, read);
}

/// The path of the member with a name.
fn member_path(rt: &impl Abort, alloc: Global, name: &str, members: &str) -> String {
    let workspace = workspace(rt, alloc, "['A','B']", members);
    match manifest_from_pkgid(&workspace, name) {
        Ok(package) => text(rt, alloc, package.manifest_path.as_str()),
        Err(error) => error_number_and_text(rt, alloc, error),
    }
}

/// Rows: the path of a manifest; the requested name; the ids of members.
const NAMED: &str = "\
/w/a/Cargo.toml|a|['A','B']~/w/b/Cargo.toml|b|['A','B']\
~38 Found virtual manifest, but this command requires running against an actual package in this \
workspace. Try adding `--workspace`.|a|['B']\
~38 Found virtual manifest, but this command requires running against an actual package in this \
workspace. Try adding `--workspace`.|c|['A','B']";

#[test]
fn finds_members_by_name(rt: HostRuntime) {
    check_rows(&rt, rt.alloc(), NAMED, TILDES, member_path);
}
