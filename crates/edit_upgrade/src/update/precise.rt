//! Calls of `cargo update --precise` for selected names with a precise version.
ghost use Rattle.std.specs.Prelude.{◌≡◌, ◌++◌, IfOk, OnOk, option_copied, option_map};
ghost use Rattle.edit_metadata.specs.Workspaces.{packages_view};
ghost use Rattle.edit_upgrade.specs.Groups.{group, package_values};
ghost use Rattle.edit_upgrade.specs.PinViews.{pin_entry_view, pin_view, pins_view};
ghost use Rattle.edit_upgrade.specs.UpdateCalls.{admitted_calls, entry_calls, precise_calls};
ghost use Rattle.edit_upgrade.specs.Views.{calls_view};

use crate::update::call::{Call, precise_call};
use crate::update::groups::{Groups, group_by_name};
use crate::update::pins::{Pin, Pins};
use edit_metadata::Package;
use edit_version::admits;
use std::alloc::{AllocError, Global};

/// Adds a call for each of these packages that the pin's requirement admits.
fn add_admitted(
    alloc: Global,
    manifest: &str,
    pin: &Pin,
    packages: &[&Package],
    calls: &mut Vec<Call>,
) -> Result<(), AllocError>
    ensures { OnOk result (calls_view calls.new.items ≡ calls_view calls.old.items
        ++ admitted_calls manifest.now (pin_view pin.now) (packages_view (package_values packages.now))) }
{
    'packages: for package in packages {
        if admits(&pin.req, &package.version) {
            let call = precise_call(alloc, manifest, pin, package)?;
            calls.push(call)?;
        }
    }
    Ok(())
}

/// Adds the calls for a name, where a precise version is given for it.
fn add_entry(
    alloc: Global,
    manifest: &str,
    groups: &Groups,
    name: &str,
    pin: Option<&Pin>,
    calls: &mut Vec<Call>,
) -> Result<(), AllocError>
    ensures { OnOk result (calls_view calls.new.items ≡ calls_view calls.old.items
        ++ entry_calls manifest.now (packages_view (group groups.now name.now))
        (option_map pin_view (option_copied pin.entry))) }
{
    let Some(pin) = pin else {
        return Ok(());
    };
    match groups.get(name) {
        Some(packages) => add_admitted(alloc, manifest, pin, packages, calls),
        None => Ok(()),
    }
}

/// The calls for the selected names, in byte order.
pub(crate) fn precise_calls(
    alloc: Global,
    manifest: &str,
    packages: &[Package],
    pins: &Pins,
) -> Result<Vec<Call>, AllocError>
    ensures { IfOk result (λ v. calls_view v.items
        ≡ precise_calls manifest.now (packages_view packages.now) (pins_view pins.now)) }
{
    let mut calls = Vec::new(alloc);
    if pins.is_empty() {
        return Ok(calls);
    }
    let groups = group_by_name(alloc, packages)?;
    'pins: for (name, pin) in pins {
        add_entry(
            alloc,
            manifest,
            &groups,
            name.as_str(),
            pin.as_ref(),
            &mut calls,
        )?;
    }
    Ok(calls)
}
