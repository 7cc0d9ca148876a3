//! Reads and writes the versions of packages, workspaces and dependencies.
ghost use Rattle.std.specs.Prelude.{◌≡◌, ◌⊎◌, Err, Ok, IfErr, IfOk, OnOk, option_map};
ghost use Rattle.edit_base.specs.Errors.{IsMemory};
ghost use Rattle.edit_base.specs.Paths.{texts};
ghost use Rattle.edit_document.specs.ItemViews.{document_of, place_of as item_place};
ghost use Rattle.edit_document.specs.Items.{place_view};
ghost use Rattle.edit_tree.specs.DocumentViews.{tree_of};
ghost use Rattle.edit_manifest.specs.Tables.{place_of_keys};
ghost use Rattle.edit_manifest.specs.Versions.{IsUnset, IsUnsetDependency, SetsDependency, SetsVersion, dep_version, is_inherited, package_version, shared_version, version_place, workspace_version};
ghost use Rattle.semver.specs.Identifiers.{parts_of, version_text};

use crate::key_places::{bool_at_keys, place_of, string_at};
use crate::manifest::Manifest;
use edit_base::errors::{CargoResult, Error};
use edit_document::{Document, Item, Place, Step, clone_place, member_place};
use edit_version::read_version;
use semver::Version;
use std::alloc::Global;

/// Replaces the value at these keys by a version; `Error::NoVersionPlace` where they lead to no value.
fn set_version_at(
    alloc: Global,
    document: &mut Document,
    names: &[&str],
    version: &Version,
) -> CargoResult<()>
    ensures set { OnOk result (SetsVersion (place_of_keys (texts names.now)) (version_text version.now)
        document.old document.new) }
    ensures err { IfErr result (λ _. document.new ≡ document.old) }
    ensures error { IfErr result (IsUnset document.old (place_of_keys (texts names.now))) }
{
    let place = place_of(alloc, names)?;
    let text = format!(in alloc; "{version}")?;
    if !document.is_value(&place) {
        return Err(Error::NoVersionPlace);
    }
    document.set_literal(alloc, &place, text.as_str())
}

impl Manifest {
    /// Whether the package inherits its version from the workspace: `package.version.workspace` is true.
    pub fn version_is_inherited(&self) -> bool
        ensures { result ≡ is_inherited (tree_of self.now.document) }
    {
        bool_at_keys(&self.document, "package", "version", "workspace").unwrap_or(false)
    }

    /// The version at `workspace.package.version`, if that is a string with a valid version.
    pub fn get_workspace_version(&self, alloc: Global) -> CargoResult<Option<Version>>
        ensures ok { IfOk result (λ o. option_map parts_of o
            ≡ workspace_version (tree_of self.now.document)) }
        ensures error { IfErr result IsMemory }
    {
        match string_at(&self.document, "workspace", "package", "version") {
            Some(text) => read_version(alloc, text),
            None => Ok(None),
        }
    }

    /// Replaces the value of `package.version`, and nothing else. `Error::NoVersionPlace` where it is no
    /// value.
    pub fn set_package_version(&mut self, alloc: Global, version: &Version) -> CargoResult<()>
        ensures set { OnOk result (SetsVersion package_version (version_text version.now)
            self.old.document self.new.document) }
        ensures err { IfErr result (λ _. self.new ≡ self.old) }
        ensures error { IfErr result (IsUnset self.old.document package_version) }
    {
        set_version_at(alloc, &mut self.document, &["package", "version"], version)
    }

    /// Replaces the value of `workspace.package.version`, and nothing else. `Error::NoVersionPlace` where it
    /// is no value.
    pub fn set_workspace_version(&mut self, alloc: Global, version: &Version) -> CargoResult<()>
        ensures set { OnOk result (SetsVersion shared_version (version_text version.now)
            self.old.document self.new.document) }
        ensures err { IfErr result (λ _. self.new ≡ self.old) }
        ensures error { IfErr result (IsUnset self.old.document shared_version) }
    {
        let names = ["workspace", "package", "version"];
        set_version_at(alloc, &mut self.document, &names, version)
    }
}

/// The version requirement of an entry: the entry itself if it is a string, else the string of its key
/// `version`. `Error::MissingVersion` where a table has no such key, `Error::VersionNotString` where that
/// holds no string, and `Error::InvalidDependency` where the entry is neither a string nor a table.
pub fn get_dep_version<'a>(item: Item<'a>) -> CargoResult<&'a str>
    ensures ok { IfOk result
        (λ s. dep_version (tree_of (document_of item.entry)) (item_place item.entry) ≡ Ok s.now) }
    ensures error { IfErr result
        (λ e. dep_version (tree_of (document_of item.entry)) (item_place item.entry) ≡ Err e) }
{
    item.lemma_exists();
    if let Some(text) = item.as_str() {
        return Ok(text);
    }
    if !item.is_table_like() {
        return Err(Error::InvalidDependency);
    }
    let Some(version) = item.get("version") else {
        return Err(Error::MissingVersion);
    };
    match version.as_str() {
        Some(text) => Ok(text),
        None => Err(Error::VersionNotString),
    }
}

/// The place of the version requirement of an entry.
fn version_place(alloc: Global, document: &Document, place: &[Step]) -> CargoResult<Place>
    ensures ok { IfOk result (λ p. version_place (tree_of document.now) (place_view place.now)
        ≡ Ok (place_view p.items)) }
    ensures error { IfErr result (λ e. IsMemory e
        ⊎ (version_place (tree_of document.now) (place_view place.now) ≡ Err e)) }
{
    let Some(item) = document.item(place) else {
        return Err(Error::InvalidDependency);
    };
    if item.is_str() {
        return clone_place(alloc, place);
    }
    if !item.is_table_like() {
        return Err(Error::InvalidDependency);
    }
    if item.get("version").is_none() {
        return Err(Error::MissingVersion);
    }
    member_place(alloc, place, "version")
}

/// Replaces the version requirement of an entry, and nothing else: `get_dep_version` then returns it.
/// `Error::MissingVersion` where the entry has no key `version`, `Error::InvalidDependency` where it is
/// neither a string nor a table, and `Error::NoVersionPlace` where its `version` is not written as a value.
pub fn set_dep_version(
    alloc: Global,
    document: &mut Document,
    place: &[Step],
    text: &str,
) -> CargoResult<()>
    ensures set { OnOk result (SetsDependency (place_view place.now) text.now document.old document.new) }
    ensures answered { OnOk result
        (dep_version (tree_of document.new) (place_view place.now) ≡ Ok text.now) }
    ensures err { IfErr result (λ _. document.new ≡ document.old) }
    ensures error { IfErr result (IsUnsetDependency document.old (place_view place.now)) }
{
    let literal = version_place(alloc, document, place)?;
    if !document.is_value(&literal) {
        return Err(Error::NoVersionPlace);
    }
    document.set_literal(alloc, &literal, text)
}
