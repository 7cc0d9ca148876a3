//! The input that caused an error of a plan.
ghost use Rattle.std.specs.Prelude.{◌≡◌, IfOk, IfSome, false, string_bytes, true};
ghost use Rattle.edit_base.specs.Errors.{number_of};
ghost use Rattle.edit_steps.specs.Places.{FailsWith, IsPlaceOfFirst, PassesWith};

use crate::run_error::{RunError, at_byte, error_alone};
use edit_base::Error;
use edit_manifest::Manifest;
use edit_metadata::Input;
use std::alloc::{AllocError, Global};

/// Whether parsing the manifest of an input fails with an error of the same number.
fn has_manifest_error(alloc: Global, input: &Input, error: &Error) -> Result<bool, AllocError>
    ensures fails { IfOk result (λ b. b ≡ true → FailsWith (number_of error.now) input.now) }
    ensures passes { IfOk result (λ b. b ≡ false → PassesWith (number_of error.now) input.now) }
{
    match Manifest::read_bytes(alloc, &input.bytes) {
        Ok(_) => Ok(false),
        Err(own) => {
            if own.number() == Error::Memory.number() {
                return Err(AllocError);
            }
            Ok(own.number() == error.number())
        }
    }
}

/// Adds to an error of a plan the place of the first input whose manifest cannot be parsed, where that is
/// the error.
pub fn at_input(alloc: Global, error: Error, inputs: &[Input]) -> RunError
    ensures error { result.error ≡ error }
    // without a place where no input is the cause, or memory ran out
    ensures place { IfSome result.place (λ s. IsPlaceOfFirst inputs.now error (string_bytes s)) }
{
    if !matches!(&error, Error::NotToml { .. } | Error::NotUtf8) {
        return error_alone(error);
    }
    'inputs: for input in inputs {
        match has_manifest_error(alloc, input, &error) {
            Ok(false) => {}
            Ok(true) => return at_byte(alloc, error, input.path.as_str(), &input.bytes),
            Err(_) => return error_alone(error),
        }
    }
    error_alone(error)
}
