//! The arguments of `cargo update` calls.
ghost use Rattle.std.specs.Prelude.{◌≡◌, ◌∷◌, ◌++◌, [], codes, IfOk, OnOk, string_bytes};
ghost use Rattle.edit_metadata.specs.Workspaces.{package_view};
ghost use Rattle.edit_upgrade.specs.PinViews.{pin_view};
ghost use Rattle.edit_upgrade.specs.UpdateCalls.{package_args, precise_call};
ghost use Rattle.edit_upgrade.specs.Views.{args_view};
ghost use Rattle.semver.specs.Identifiers.{parts_of, parts_text};

use crate::update::pins::Pin;
use edit_metadata::Package;
use semver::Version;
use std::alloc::{AllocError, Global};

/// The arguments of a call.
pub(crate) type Call = Vec<String>;

/// Appends an argument.
fn add(alloc: Global, args: &mut Call, arg: &str) -> Result<(), AllocError>
    ensures { OnOk result (args_view args.new.items ≡ args_view args.old.items ++ arg.now ∷ []) }
{
    let arg = String::from_str(alloc, arg)?;
    args.push(arg)?;
    Ok(())
}

/// The arguments that each call for a manifest begins with.
pub(crate) fn begin_call(alloc: Global, manifest: &str) -> Result<Call, AllocError>
    ensures { IfOk result (λ v. args_view v.items ≡ codes "cargo" ∷ codes "update"
        ∷ codes "--manifest-path" ∷ manifest.now ∷ []) }
{
    let mut args = Vec::new(alloc);
    add(alloc, &mut args, "cargo")?;
    add(alloc, &mut args, "update")?;
    add(alloc, &mut args, "--manifest-path")?;
    add(alloc, &mut args, manifest)?;
    Ok(args)
}

/// Appends the argument that each call ends with.
pub(crate) fn end(alloc: Global, args: &mut Call) -> Result<(), AllocError>
    ensures { OnOk result (args_view args.new.items
        ≡ args_view args.old.items ++ codes "--offline" ∷ []) }
{
    add(alloc, args, "--offline")
}

/// Appends `--aggressive`, which also updates the dependencies of the packages.
pub(crate) fn add_aggressive(alloc: Global, args: &mut Call) -> Result<(), AllocError>
    ensures { OnOk result (args_view args.new.items
        ≡ args_view args.old.items ++ codes "--aggressive" ∷ []) }
{
    add(alloc, args, "--aggressive")
}

/// A package ID specification `NAME@VERSION`, as one argument.
fn package_spec_arg(alloc: Global, krate: &Package) -> Result<String, AllocError>
    ensures { IfOk result (λ s. string_bytes s ≡ (package_view krate.now).name
        ++ (codes "@" ++ parts_text (package_view krate.now).version)) }
{
    format!(in alloc; "{}@{}", krate.name, krate.version)
}

/// Appends the arguments that name a package.
pub(crate) fn add_package(alloc: Global, args: &mut Call, krate: &Package) -> Result<(), AllocError>
    ensures { OnOk result (args_view args.new.items
        ≡ args_view args.old.items ++ package_args (package_view krate.now)) }
{
    add(alloc, args, "--package")?;
    let arg = package_spec_arg(alloc, krate)?;
    args.push(arg)?;
    Ok(())
}

/// The text of a version.
fn version_text(alloc: Global, version: &Version) -> Result<String, AllocError>
    ensures { IfOk result (λ s. string_bytes s ≡ parts_text (parts_of version.now)) }
{
    format!(in alloc; "{version}")
}

/// The call that sets a package to a version with `--precise`.
pub(crate) fn precise_call(
    alloc: Global,
    manifest: &str,
    pin: &Pin,
    krate: &Package,
) -> Result<Call, AllocError>
    ensures { IfOk result (λ v. args_view v.items
        ≡ precise_call manifest.now (pin_view pin.now) (package_view krate.now)) }
{
    let mut args = begin_call(alloc, manifest)?;
    add(alloc, &mut args, "--precise")?;
    let version = version_text(alloc, &pin.version)?;
    args.push(version)?;
    add_package(alloc, &mut args, krate)?;
    end(alloc, &mut args)?;
    Ok(args)
}
