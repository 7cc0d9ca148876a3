//! Checks that each bumped version has a literal in its manifest.
ghost use Rattle.std.specs.Prelude.{◌≡◌, ◌⊎◌, All, IfErr, OnOk};
ghost use Rattle.std.specs.List.{AllZip};
ghost use Rattle.edit_base.specs.Errors.{IsMemory};
ghost use Rattle.edit_base.specs.declared.errors.Error.TheVariants.{NoVersionPlace};
ghost use Rattle.edit_set_version.specs.Apart.{AreApart};
ghost use Rattle.edit_set_version.specs.Crates.{IsReadOf, bumps_view};
ghost use Rattle.edit_set_version.specs.BumpsByFolder.{HasFirstBumps};
ghost use Rattle.edit_set_version.specs.PlanCauses.{HasLiteral, LackLiterals, LacksLiteral};

use crate::failure::{VersionFailure, at_input};
use crate::outputs::{PlannedWrites, push_own};
use edit_base::CargoResult;
use edit_manifest::Manifest;
use edit_metadata::Input;
use std::alloc::Global;

/// Fails with `Error::NoVersionPlace` where a bumped version is to be written into an input whose manifest
/// has no literal for it.
fn check_literal(
    alloc: Global,
    writing: &PlannedWrites<'_, '_>,
    input: &Input,
    manifest: &Manifest,
) -> CargoResult<()>
    requires numbers { HasFirstBumps (bumps_view writing.now.bumps.now) writing.now.numbers.now }
    requires apart { AreApart (bumps_view writing.now.bumps.now) }
    requires read { IsReadOf input.now manifest.now }
    ensures literal { OnOk result (HasLiteral (bumps_view writing.now.bumps.now) input.now) }
    ensures error { IfErr result (λ e. IsMemory e ⊎ ((e ≡ NoVersionPlace)
        × LacksLiteral (bumps_view writing.now.bumps.now) input.now)) }
{
    let path = input.path.as_str();
    let mut edits = Vec::new(alloc);
    push_own(alloc, writing, path, &manifest.document, &mut edits)?;
    Ok(())
}

/// Fails with `Error::NoVersionPlace` at the first input whose manifest has no literal for a bumped version
/// that is to be written into it.
pub(crate) fn check_literals<'i>(
    alloc: Global,
    writing: &PlannedWrites<'_, '_>,
    inputs: &'i [Input],
    manifests: &[Manifest],
) -> Result<(), VersionFailure<'i>>
    requires numbers { HasFirstBumps (bumps_view writing.now.bumps.now) writing.now.numbers.now }
    requires apart { AreApart (bumps_view writing.now.bumps.now) }
    requires read { AllZip IsReadOf inputs.now manifests.now }
    ensures literals { OnOk result (All (HasLiteral (bumps_view writing.now.bumps.now)) inputs.now) }
    ensures error { IfErr result (λ f. IsMemory f.error ⊎ ((f.error ≡ NoVersionPlace)
        × LackLiterals (bumps_view writing.now.bumps.now) inputs.now f)) }
{
    'inputs: for i in 0..inputs.len() {
        let input = &inputs[i];
        if let Err(error) = check_literal(alloc, writing, input, &manifests[i]) {
            return Err(at_input(error, input));
        }
    }
    Ok(())
}
