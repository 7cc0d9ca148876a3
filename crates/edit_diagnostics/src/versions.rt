//! The versions and requirements that cause errors of a plan of new versions.
ghost use Rattle.std.specs.Prelude.{IfSome, string_bytes};
ghost use Rattle.edit_diagnostics.specs.FailurePlaces.{IsInManifest};

use crate::entries::{entry_position, place_of};
use crate::explanation::Explanation;
use edit_base::paths::{folder, join, normal};
use edit_document::{Document, Step, member_place};
use edit_manifest::Manifest;
use edit_metadata::{Input, Package, Workspace};
use edit_set_version::Selection;
use std::alloc::Global;

/// The help for an excluded member that inherits the version of the workspace.
const SHARED: &str = "leave out `--exclude` for them: they take their version from the workspace";

/// The help for a requirement that cannot be raised.
const RAISABLE: &str = "write a requirement that can follow, such as \"1.2.3\"";

/// The path of an input.
fn path_of(alloc: Global, input: &Input) -> Option<String>
    ensures { IfSome result (λ s. IsInManifest input.now (string_bytes s)) }
{
    String::from_str(alloc, input.path.as_str()).ok()
}

/// The package in a folder.
fn package_in<'a>(alloc: Global, wanted: &str, workspace: &'a Workspace) -> Option<&'a Package> {
    for package in &workspace.packages {
        let path = normal(alloc, package.manifest_path.as_str()).ok()?;
        if folder(path.as_str()) == wanted {
            return Some(package);
        }
    }
    None
}

/// The package that the entry at a place of a manifest names by its path.
fn package_at<'a>(
    alloc: Global,
    input: &Input,
    document: &Document,
    place: &[Step],
    workspace: &'a Workspace,
) -> Option<&'a Package> {
    let path = document.item(place)?.get("path")?.as_str()?;
    let path = join(alloc, folder(input.path.as_str()), path).ok()?;
    let path = normal(alloc, path.as_str()).ok()?;
    package_in(alloc, path.as_str(), workspace)
}

/// The help that says how a member is left out: by `--exclude`, or by no `-p` if members are named.
fn help_for(alloc: Global, selection: &Selection, package: &Package) -> Option<String> {
    let name = package.name.as_str();
    if selection.workspace || selection.packages.is_empty() {
        return format!(in alloc; "leave this package out by `--exclude {name}`").ok();
    }
    format!(in alloc; "leave out `-p {name}`").ok()
}

/// Explains an error of a manifest without a value for the new version of its package.
pub(crate) fn explain_missing(
    alloc: Global,
    input: &Input,
    selection: &Selection,
    workspace: &Workspace,
) -> Option<Explanation>
    ensures place { IfSome result
        (λ x. IfSome x.place (λ s. IsInManifest input.now (string_bytes s))) }
{
    let package = package_in(alloc, folder(input.path.as_str()), workspace)?;
    let name = package.name.as_str();
    Some(Explanation {
        place: path_of(alloc, input),
        cause: format!(in alloc; "the package `{name}` has no `package.version`").ok(),
        help: help_for(alloc, selection, package),
    })
}

/// Explains the error of an excluded member that inherits the version of the workspace with this root.
pub(crate) fn explain_excluded(alloc: Global, root: &Input) -> Option<Explanation>
    ensures place { IfSome result
        (λ x. IfSome x.place (λ s. IsInManifest root.now (string_bytes s))) }
{
    Some(Explanation {
        place: path_of(alloc, root),
        cause: None,
        help: String::from_str(alloc, SHARED).ok(),
    })
}

/// Explains an error of the version of the workspace with this root.
pub(crate) fn explain_root(alloc: Global, root: &Input) -> Option<Explanation>
    ensures place { IfSome result
        (λ x. IfSome x.place (λ s. IsInManifest root.now (string_bytes s))) }
{
    let manifest = Manifest::read_bytes(alloc, &root.bytes).ok()?;
    let version = manifest.get_workspace_version(alloc).ok()??;
    let place = place_of(alloc, &["workspace", "package", "version"])?;
    Some(Explanation {
        place: entry_position(alloc, root, &manifest.document, &place),
        cause: format!(in alloc; "`workspace.package.version` is {version}").ok(),
        help: None,
    })
}

/// Explains an error of the version of a member, whose manifest is this input. A member that inherits its
/// version has the one of the metadata if the workspace has no valid one.
pub(crate) fn explain_member(
    alloc: Global,
    package: &Package,
    input: &Input,
    selection: &Selection,
) -> Option<Explanation>
    ensures place { IfSome result
        (λ x. IfSome x.place (λ s. IsInManifest input.now (string_bytes s))) }
{
    let manifest = Manifest::read_bytes(alloc, &input.bytes).ok()?;
    let (name, version) = (package.name.as_str(), &package.version);
    if manifest.version_is_inherited() {
        let cause = format!(in alloc;
            "the package `{name}` inherits its version, which is {version} in the metadata"
        );
        return Some(Explanation {
            place: path_of(alloc, input),
            cause: cause.ok(),
            help: None,
        });
    }
    let place = place_of(alloc, &["package", "version"])?;
    Some(Explanation {
        place: entry_position(alloc, input, &manifest.document, &place),
        cause: format!(in alloc; "the package `{name}` has the version {version}").ok(),
        help: help_for(alloc, selection, package),
    })
}

/// Explains an error of the requirement of an entry on a member that gets a new version.
pub(crate) fn explain_requirement(
    alloc: Global,
    input: &Input,
    place: &[Step],
    workspace: &Workspace,
) -> Option<Explanation>
    ensures place { IfSome result
        (λ x. IfSome x.place (λ s. IsInManifest input.now (string_bytes s))) }
{
    let manifest = Manifest::read_bytes(alloc, &input.bytes).ok()?;
    let document = &manifest.document;
    let package = package_at(alloc, input, document, place, workspace)?;
    let name = package.name.as_str();
    let version = member_place(alloc, place, "version").ok()?;
    let cause = format!(in alloc;
        "the requirement of the package `{name}`, which gets a new version"
    );
    Some(Explanation {
        place: entry_position(alloc, input, document, &version),
        cause: cause.ok(),
        help: String::from_str(alloc, RAISABLE).ok(),
    })
}
