//! The parsed manifests that a plan is made from.
ghost use Rattle.std.specs.Prelude.{◌⊎◌, IfErr, IfOk};
ghost use Rattle.std.specs.List.{AllZip};
ghost use Rattle.edit_base.specs.Errors.{IsMemory};
ghost use Rattle.edit_set_version.specs.Crates.{IsReadOf};
ghost use Rattle.edit_base.specs.FirstCauses.{HasFirstCause};
ghost use Rattle.edit_set_version.specs.PlanRefused.{FailsAtInput, IsManifest};

use crate::failure::{VersionFailure, at_input};
use edit_manifest::Manifest;
use edit_metadata::Input;
use std::alloc::Global;

/// Parses the manifests of inputs, in order.
pub(crate) fn manifests_of<'a>(
    alloc: Global,
    inputs: &'a [Input],
) -> Result<Vec<Manifest>, VersionFailure<'a>>
    ensures ok { IfOk result (λ ms. AllZip IsReadOf inputs.now ms.items) }
    ensures error { IfErr result (λ f. IsMemory f.error
        ⊎ HasFirstCause IsManifest (FailsAtInput f) inputs.now) }
{
    let mut manifests = Vec::with_capacity(alloc, inputs.len())?;
    'inputs: for input in inputs {
        match Manifest::read_bytes(alloc, &input.bytes) {
            Ok(manifest) => manifests.push(manifest)?,
            Err(error) => return Err(at_input(error, input)),
        }
    }
    Ok(manifests)
}
