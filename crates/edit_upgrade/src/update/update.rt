//! The calls of `cargo update` that follow an upgrade.
ghost use Rattle.std.specs.Prelude.{◌≡◌, ◌⊎◌, ◌++◌, All, IfErr, IfOk, OnOk, map, string_bytes, true};
ghost use Rattle.edit_base.specs.Errors.{IsMemory};
ghost use Rattle.edit_metadata.specs.Workspaces.{packages_view, workspace_view};
ghost use Rattle.edit_upgrade.specs.ParsedOptions.{call_options, is_git_updated, is_due, is_recursive};
ghost use Rattle.edit_upgrade.specs.Groups.{package_values};
ghost use Rattle.edit_upgrade.specs.PinViews.{pins_view};
ghost use Rattle.edit_upgrade.specs.EntrySelection.{IsPackageArg};
ghost use Rattle.edit_upgrade.specs.OptionCauses.{FailsAtPackageArg};
ghost use Rattle.edit_upgrade.specs.Pins.{pins_of};
ghost use Rattle.edit_upgrade.specs.UpdateCalls.{aggressive_calls, calls_for, git_calls, packages_args, recursive_calls, unpinned_packages, update_calls};
ghost use Rattle.edit_upgrade.specs.Views.{calls_view, args_view};

use crate::update::call::{Call, add_aggressive, add_package, begin_call, end};
use crate::update::chosen::{from_git, unpinned_packages};
use crate::update::pins::{Pins, read_pins};
use crate::update::precise::precise_calls;
use crate::{Options, UpgradePlan};
use edit_base::CargoResult;
use edit_base::paths::join;
use edit_metadata::{Package, Workspace};
use std::alloc::{AllocError, Global};

/// Whether any calls are needed.
fn is_due(plan: &UpgradePlan, options: &Options) -> bool
    ensures { result ≡ is_due (call_options plan.now options.now) }
{
    !plan.modified.is_empty() && !options.dry_run && !options.locked
}

/// Whether git dependencies are updated.
fn is_git_updated(plan: &UpgradePlan, options: &Options) -> bool
    ensures { result ≡ is_git_updated (call_options plan.now options.now) }
{
    options.compatible && !plan.git_crates.is_empty()
}

/// Whether the dependencies of the modified packages are updated as well.
fn is_recursive(plan: &UpgradePlan, options: &Options) -> bool
    ensures { result ≡ is_recursive (call_options plan.now options.now) }
{
    match options.recursive {
        Some(said) => said,
        None => options.compatible,
    }
}

/// Appends the arguments that name these packages.
fn add_packages(alloc: Global, args: &mut Call, packages: &[&Package]) -> Result<(), AllocError>
    ensures { OnOk result (args_view args.new.items
        ≡ args_view args.old.items ++ packages_args (packages_view (package_values packages.now))) }
{
    'packages: for package in packages {
        add_package(alloc, args, package)?;
    }
    Ok(())
}

/// Adds the call for packages from git repositories, where these are updated.
fn add_git_call(
    alloc: Global,
    manifest: &str,
    plan: &UpgradePlan,
    options: &Options,
    packages: &[Package],
    calls: &mut Vec<Call>,
) -> Result<(), AllocError>
    ensures { OnOk result (calls_view calls.new.items ≡ calls_view calls.old.items
        ++ git_calls manifest.now (call_options plan.now options.now) (packages_view packages.now)) }
{
    if !is_git_updated(plan, options) {
        return Ok(());
    }
    let found = from_git(alloc, &plan.git_crates, packages)?;
    let mut args = begin_call(alloc, manifest)?;
    add_packages(alloc, &mut args, &found)?;
    end(alloc, &mut args)?;
    calls.push(args)?;
    Ok(())
}

/// Adds one `--aggressive` call for these packages, where there are any.
fn add_aggressive_call(
    alloc: Global,
    manifest: &str,
    packages: &[&Package],
    calls: &mut Vec<Call>,
) -> Result<(), AllocError>
    ensures { OnOk result (calls_view calls.new.items ≡ calls_view calls.old.items
        ++ aggressive_calls manifest.now (packages_view (package_values packages.now))) }
{
    if packages.is_empty() {
        return Ok(());
    }
    let mut args = begin_call(alloc, manifest)?;
    add_aggressive(alloc, &mut args)?;
    add_packages(alloc, &mut args, packages)?;
    end(alloc, &mut args)?;
    calls.push(args)?;
    Ok(())
}

/// Adds the call for modified names without a precise version, where dependencies are updated as well.
fn add_recursive_call(
    alloc: Global,
    manifest: &str,
    plan: &UpgradePlan,
    options: &Options,
    pins: &Pins,
    packages: &[Package],
    calls: &mut Vec<Call>,
) -> Result<(), AllocError>
    requires { pins_view pins.now ≡ pins_of (map string_bytes options.now.package.items) }
    ensures { OnOk result (calls_view calls.new.items ≡ calls_view calls.old.items
        ++ recursive_calls manifest.now (call_options plan.now options.now) (packages_view packages.now)) }
{
    if !is_recursive(plan, options) {
        return Ok(());
    }
    let left = unpinned_packages(alloc, pins, &plan.modified, packages)?;
    add_aggressive_call(alloc, manifest, &left, calls)
}

/// The calls for a manifest. `pins` are the precise versions that the `--package` arguments give.
fn calls_for(
    alloc: Global,
    manifest: &str,
    plan: &UpgradePlan,
    options: &Options,
    pins: &Pins,
    packages: &[Package],
) -> Result<Vec<Call>, AllocError>
    requires { pins_view pins.now ≡ pins_of (map string_bytes options.now.package.items) }
    ensures { IfOk result (λ v. calls_view v.items
        ≡ calls_for manifest.now (call_options plan.now options.now) (packages_view packages.now)) }
{
    let mut calls = precise_calls(alloc, manifest, packages, pins)?;
    add_git_call(alloc, manifest, plan, options, packages, &mut calls)?;
    add_recursive_call(alloc, manifest, plan, options, pins, packages, &mut calls)?;
    Ok(calls)
}

/// The `cargo update` calls that follow an upgrade, each as the list of its arguments, in the order in
/// which they are to be run.
///
/// Empty where nothing was modified, for a dry run, and where the lock file must not change; `--package`
/// arguments are not parsed then. Else an argument that `CrateSpec::resolve` rejects fails with
/// `Error::InvalidName` or `Error::InvalidRequirement`.
pub fn update_calls(
    alloc: Global,
    plan: &UpgradePlan,
    workspace: &Workspace,
    options: &Options,
) -> CargoResult<Vec<Vec<String>>>
    ensures calls { IfOk result (λ v. calls_view v.items
        ≡ update_calls (call_options plan.now options.now) (workspace_view workspace.now)) }
    // where calls are needed, each `--package` argument can be parsed
    ensures args { IfOk result (λ v. is_due (call_options plan.now options.now) ≡ true
        → All IsPackageArg (map string_bytes options.now.package.items)) }
    // out of memory, or calls are needed and a `--package` argument cannot be parsed
    ensures error { IfErr result (λ e. IsMemory e
        ⊎ ((is_due (call_options plan.now options.now) ≡ true)
        × FailsAtPackageArg (map string_bytes options.now.package.items) e)) }
{
    if !is_due(plan, options) {
        return Ok(Vec::new(alloc));
    }
    let pins = read_pins(alloc, &options.package)?;
    let manifest = join(alloc, workspace.root.as_str(), "Cargo.toml")?;
    let calls = calls_for(
        alloc,
        manifest.as_str(),
        plan,
        options,
        &pins,
        &workspace.packages,
    )?;
    Ok(calls)
}
