//! Inputs for another Rust version.
ghost use Rattle.std.specs.Prelude.{◌≡◌, IfOk, map};
ghost use Rattle.edit_metadata.specs.Inputs.{HaveOwnPaths};
ghost use Rattle.edit_metadata.specs.RustInputs.{all_for_rust};

use crate::input::Input;
use edit_version::RustVersion;
use std::alloc::{AllocError, Global};

/// Inputs for a Rust version, each in place of its own, in their order.
fn for_rust_version(
    alloc: Global,
    inputs: Vec<Input>,
    version: RustVersion,
) -> Result<Vec<Input>, AllocError>
    ensures { IfOk result (λ v. v.items ≡ all_for_rust version inputs.items) }
{
    let mut all = Vec::with_capacity(alloc, inputs.len())?;
    'inputs: for input in inputs {
        let rust_version = Some(version);
        all.push(Input {
            rust_version,
            ..input
        })?;
    }
    Ok(all)
}

/// Inputs for a Rust version, each in place of its own, in their order.
pub fn with_rust_version(
    alloc: Global,
    inputs: Vec<Input>,
    version: RustVersion,
) -> Result<Vec<Input>, AllocError>
    ensures inputs { IfOk result (λ v. v.items ≡ all_for_rust version inputs.items) }
    ensures paths { HaveOwnPaths inputs.items → IfOk result (λ v. HaveOwnPaths v.items) }
    ensures bytes { IfOk result (λ v. map (λ input. input.bytes.items) v.items
        ≡ map (λ input. input.bytes.items) inputs.items) }
{
    for_rust_version(alloc, inputs, version)
}
