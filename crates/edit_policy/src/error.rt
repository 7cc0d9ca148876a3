//! Why a table is no policy.
ghost use Rattle.std.specs.Prelude.{◌≡◌};
ghost use Rattle.edit_base.specs.declared.errors.Error.TheVariants.{Memory};
ghost use Rattle.edit_policy.specs.Errors.{error_of};
ghost use Rattle.edit_policy.specs.declared.error.PolicyError.TheVariants.{Failed};

use crate::keys::Expected;
use edit_base::Error;
use edit_document::Place;
use std::alloc::{AllocError, AllocFailed};

/// Why a table is no policy.
#[derive(Debug, Drop)]
pub enum PolicyError {
    /// The item at a place is not what is expected there.
    Unexpected { place: Place, expected: Expected },
    /// Memory ran out.
    Failed(Error),
}

impl PolicyError {
    /// The error that a run ends with: `Error::Policy` where a key is at fault.
    pub fn into_error(self) -> Error
        ensures { result ≡ error_of self }
    {
        match self {
            PolicyError::Unexpected { .. } => Error::Policy,
            PolicyError::Failed(error) => error,
        }
    }
}

impl From<Error> for PolicyError {
    ghost from_gives = { λ e failed. failed ≡ Failed e };

    fn from(error: Error) -> PolicyError {
        PolicyError::Failed(error)
    }
}

impl From<AllocError> for PolicyError {
    ghost from_gives = { λ _ failed. failed ≡ Failed Memory };

    fn from(_error: AllocError) -> PolicyError {
        PolicyError::Failed(Error::Memory)
    }
}

impl<T: Drop> From<AllocFailed<T>> for PolicyError {
    ghost from_gives = { λ _ failed. failed ≡ Failed Memory };

    fn from(_error: AllocFailed<T>) -> PolicyError {
        PolicyError::Failed(Error::Memory)
    }
}
