//! Selected names that no workspace member has.
ghost use Rattle.std.specs.Prelude.{◌≡◌, ◌++◌, ◌||◌, ℕ, List, [], ◌∷◌, false, true, if◌then◌else◌, IfErr, IfOk, OnOk, map, string_bytes};
ghost use Rattle.std.specs.BTreeSet.{contains_text};
ghost use Rattle.std.specs.Str.{bytes_eq};
ghost use Rattle.edit_metadata.specs.Metadata.{members};
ghost use Rattle.edit_metadata.specs.Workspaces.{package_view, packages_view, workspace_view};
ghost use Rattle.edit_set_version.specs.Chosen.{is_among, missing};
ghost use Rattle.edit_set_version.specs.Missing.{IsMissingNamesError, names_not_among, names_of};
ghost use Rattle.edit_set_version.specs.Selections.{selection_view};

use crate::plan::Selection;
use edit_base::{CargoResult, Error, MissingKind, MissingNames};
use edit_metadata::{Package, Workspace};
use std::alloc::{AllocError, Global};
use std::collections::BTreeSet;

/// A set of names, sorted by bytes.
pub(crate) type Names = BTreeSet<String>;

/// Inserts a name, and returns whether it is new.
fn add_name(alloc: Global, names: &mut Names, name: &str) -> Result<bool, AllocError>
    ensures new { IfOk result (λ b. b ≡ (if contains_text names.old name.now then false else true)) }
    ensures ok { OnOk result ((q : List ℕ) → contains_text names.new q
        ≡ (if bytes_eq name.now q then true else contains_text names.old q)) }
{
    let name = String::from_str(alloc, name)?;
    let added = names.insert(name)?;
    Ok(added)
}

/// Inserts the name of a package, where that is a workspace member.
fn add_member(alloc: Global, names: &mut Names, found: &Package) -> Result<(), AllocError>
    ensures ok { OnOk result ((q : List ℕ) → contains_text names.new q
        ≡ (contains_text names.old q || is_among (names_of (package_view found.now ∷ [])) q)) }
{
    if !found.member {
        return Ok(());
    }
    add_name(alloc, names, found.name.as_str())?;
    Ok(())
}

/// The names of the workspace members among packages.
fn member_names(alloc: Global, packages: &[Package]) -> Result<Names, AllocError>
    ensures ok { IfOk result (λ s. (q : List ℕ)
        → contains_text s q ≡ is_among (names_of (packages_view packages.now)) q) }
{
    let mut names = BTreeSet::new(alloc);
    'packages: for package_info in packages {
        add_member(alloc, &mut names, package_info)?;
    }
    Ok(names)
}

/// The set of the names of a list.
pub(crate) fn name_set(alloc: Global, names: &[String]) -> Result<Names, AllocError>
    ensures ok { IfOk result (λ s. (q : List ℕ)
        → contains_text s q ≡ is_among (map string_bytes names.now) q) }
{
    let mut set = BTreeSet::new(alloc);
    'names: for name in names {
        add_name(alloc, &mut set, name.as_str())?;
    }
    Ok(set)
}

/// Adds a name to the missing ones, unless it is known, and adds it to the known ones.
fn push_missing(
    alloc: Global,
    known: &mut Names,
    missing: &mut Vec<String>,
    name: &str,
) -> Result<(), AllocError>
    ensures known { OnOk result ((q : List ℕ) → contains_text known.new q
        ≡ (if bytes_eq name.now q then true else contains_text known.old q)) }
    ensures missing { OnOk result (map string_bytes missing.new.items ≡ map string_bytes missing.old.items
        ++ (if contains_text known.old name.now then [] else name.now ∷ [])) }
{
    let new = add_name(alloc, known, name)?;
    if !new {
        return Ok(());
    }
    let name = String::from_str(alloc, name)?;
    missing.push(name)?;
    Ok(())
}

/// The selected names that are not known, without duplicates.
fn missing_names(
    alloc: Global,
    known: &mut Names,
    names: &[String],
) -> Result<Vec<String>, AllocError>
    ensures ok { IfOk result (λ v. (there : List (List ℕ))
        → ((q : List ℕ) → contains_text known.old q ≡ is_among there q)
        → map string_bytes v.items ≡ names_not_among there (map string_bytes names.now)) }
{
    let mut missing = Vec::new(alloc);
    'names: for name in names {
        push_missing(alloc, known, &mut missing, name.as_str())?;
    }
    Ok(missing)
}

impl Selection {
    /// Fails with `Error::PackagesMissing` where a selected name is that of no workspace member. The error
    /// has those names, without duplicates.
    pub fn check_names(&self, alloc: Global, workspace: &Workspace) -> CargoResult<()>
        ensures found { OnOk result (missing (selection_view self.now)
            (names_of (workspace_view workspace.now).packages) ≡ []) }
        ensures error { IfErr result
            (IsMissingNamesError (selection_view self.now) (workspace_view workspace.now)) }
    {
        let mut known = member_names(alloc, &workspace.packages)?;
        let names = missing_names(alloc, &mut known, &self.packages)?;
        if names.is_empty() {
            return Ok(());
        }
        let kind = MissingKind::Package;
        Err(Error::PackagesMissing(MissingNames { kind, names }))
    }
}
