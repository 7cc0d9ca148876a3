//! The members of a workspace with their manifests, and their next versions.
ghost use Rattle.std.specs.Prelude.{◌≡◌, ◌≤◌, ◌-◌, ◌++◌, ◌∷◌, [], if◌then◌else◌, IfOk, OnOk, drop, length, map};
ghost use Rattle.std.specs.List.{AllZip};
ghost use Rattle.edit_metadata.specs.Metadata.{members};
ghost use Rattle.edit_metadata.specs.Workspaces.{package_view, packages_view, workspace_view};
ghost use Rattle.edit_set_version.specs.Crates.{IsReadOf, members_of};
ghost use Rattle.edit_set_version.specs.Projects.{AreInputsOf, IsMemberOf};

use edit_manifest::Manifest;
use edit_metadata::{Input, Package, Workspace};
use semver::Version;
use std::alloc::{AllocError, Global};

/// A member of a workspace: its package in the metadata, its input, and its parsed manifest.
#[derive(Clone, Copy)]
pub(crate) struct Crate<'a, 'm> {
    pub(crate) package_info: &'a Package,
    pub(crate) input: &'a Input,
    pub(crate) manifest: &'m Manifest,
}

/// A crate and its next version.
#[derive(Drop)]
pub(crate) struct Bump<'a, 'm> {
    pub(crate) member: Crate<'a, 'm>,
    pub(crate) next: Version,
}

/// Adds a package, where it is a workspace member.
fn push_member<'a>(found: &'a Package, members: &mut Vec<&'a Package>) -> Result<(), AllocError>
    ensures ok { OnOk result (map (λ p. package_view p.now) members.new.items
        ≡ map (λ p. package_view p.now) members.old.items
        ++ (if found.entry.now.member then package_view found.entry.now ∷ [] else [])) }
{
    if !found.member {
        return Ok(());
    }
    members.push(found)?;
    Ok(())
}

/// The workspace members among packages, in order.
pub(crate) fn members_in<'a>(
    alloc: Global,
    packages: &'a [Package],
) -> Result<Vec<&'a Package>, AllocError>
    ensures ok { IfOk result (λ v. map (λ p. package_view p.now) v.items
        ≡ members (packages_view packages.entry.now)) }
{
    let mut list = Vec::new(alloc);
    'packages: for found in packages {
        push_member(found, &mut list)?;
    }
    Ok(list)
}

/// Zips packages with their inputs and manifests, each at the same index in its list.
pub(crate) fn crates_with<'a, 'm>(
    alloc: Global,
    members: &[&'a Package],
    inputs: &'a [Input],
    manifests: &'m [Manifest],
) -> Result<Vec<Crate<'a, 'm>>, AllocError>
    requires inputs { length inputs.now ≡ length members.now }
    requires manifests { length manifests.now ≡ length members.now }
    ensures outcome { IfOk result (λ cs. map (λ c. c.package_info.now) cs.items
        ≡ map (λ p. p.now) members.entry.now) }
    ensures inputs { IfOk result (λ cs. map (λ c. c.input.now) cs.items ≡ inputs.entry.now) }
    ensures manifests { IfOk result (λ cs. map (λ c. c.manifest.now) cs.items ≡ manifests.entry.now) }
{
    let mut crates = Vec::with_capacity(alloc, members.len())?;
    'members: for i in 0..members.len() {
        let found = Crate {
            package_info: members[i],
            input: &inputs[i],
            manifest: &manifests[i],
        };
        crates.push(found)?;
    }
    Ok(crates)
}

/// Zips members with their inputs and manifests, which are at the end of these lists.
fn crates_last<'a, 'm>(
    alloc: Global,
    members: &[&'a Package],
    inputs: &'a [Input],
    manifests: &'m [Manifest],
) -> Result<Vec<Crate<'a, 'm>>, AllocError>
    requires inputs { length members.now ≤ length inputs.now }
    requires manifests { length manifests.now ≡ length inputs.now }
    ensures outcome { IfOk result (λ cs. map (λ c. c.package_info.now) cs.items
        ≡ map (λ p. p.now) members.entry.now) }
    ensures inputs { IfOk result (λ cs. map (λ c. c.input.now) cs.items
        ≡ drop (length inputs.entry.now - length members.entry.now) inputs.entry.now) }
    ensures manifests { IfOk result (λ cs. map (λ c. c.manifest.now) cs.items
        ≡ drop (length inputs.entry.now - length members.entry.now) manifests.entry.now) }
{
    let skip = inputs.len() - members.len();
    crates_with(alloc, members, &inputs[skip..], &manifests[skip..])
}

/// The members of a workspace, each with its input and manifest.
pub(crate) fn crates_of<'a, 'm>(
    alloc: Global,
    workspace: &'a Workspace,
    inputs: &'a [Input],
    manifests: &'m [Manifest],
) -> Result<Vec<Crate<'a, 'm>>, AllocError>
    requires inputs { AreInputsOf (workspace_view workspace.now) inputs.now }
    requires manifests { AllZip IsReadOf inputs.now manifests.now }
    ensures ok { IfOk result (λ cs. AllZip (IsMemberOf inputs.entry.now)
        (members (workspace_view workspace.entry.now).packages) (members_of cs.items)) }
{
    let members = members_in(alloc, &workspace.packages)?;
    let crates = crates_last(alloc, &members, inputs, manifests)?;
    Ok(crates)
}
