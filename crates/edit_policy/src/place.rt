//! The place of a manifest's policy.
ghost use Rattle.std.specs.Prelude.{◌≡◌, [], ◌∷◌, IfErr, IfOk, codes, is_some, map};
ghost use Rattle.edit_base.specs.Errors.{IsMemory};
ghost use Rattle.edit_base.specs.Paths.{texts};
ghost use Rattle.edit_document.specs.Items.{place_view};
ghost use Rattle.edit_tree.specs.Assertions.{key};
ghost use Rattle.edit_tree.specs.DocumentViews.{tree_of};
ghost use Rattle.edit_policy.specs.Policies.{member, policy_place};

use edit_base::CargoResult;
use edit_document::{Document, Place, Step};
use std::alloc::{AllocError, Global};

/// The place that these keys lead to from the root.
fn place_of(alloc: Global, names: &[&str]) -> Result<Place, AllocError>
    ensures { IfOk result (λ p. place_view p.items ≡ map key (texts names.now)) }
{
    let mut place = Vec::with_capacity(alloc, names.len())?;
    'names: for name in names {
        let name = String::from_str(alloc, name)?;
        place.push(Step::Key(name))?;
    }
    Ok(place)
}

/// Whether a manifest has the key `workspace`.
fn has_workspace(alloc: Global, document: &Document) -> Result<bool, AllocError>
    ensures { IfOk result (λ b. b ≡ is_some (tree_of document.now (member [] (codes "workspace")))) }
{
    let place = place_of(alloc, &["workspace"])?;
    Ok(document.item(&place).is_some())
}

/// The place of a manifest's policy: `workspace.metadata.cargo-edit` where there is a workspace, else
/// `package.metadata.cargo-edit`.
pub fn policy_place(alloc: Global, document: &Document) -> CargoResult<Place>
    ensures place { IfOk result (λ p. place_view p.items ≡ policy_place (tree_of document.now)) }
    ensures error { IfErr result IsMemory }
{
    let root = if has_workspace(alloc, document)? {
        "workspace"
    } else {
        "package"
    };
    Ok(place_of(alloc, &[root, "metadata", "cargo-edit"])?)
}
