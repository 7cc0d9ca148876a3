//! Errors of a plan, with the input or the entry that caused them.
ghost use Rattle.std.specs.Prelude.{◌≡◌, ◌⊎◌, None, Some, option_map};
ghost use Rattle.edit_base.specs.Errors.{IsMemory};
ghost use Rattle.edit_base.specs.declared.errors.Error.TheVariants.{Memory};
ghost use Rattle.edit_document.specs.Items.{place_view};
ghost use Rattle.edit_upgrade.specs.Failures.{IsFrom};
ghost use Rattle.edit_upgrade.specs.Failures.Cause.{at_entry, at_input};

use crate::entries_with_rows::Entry;
use edit_base::Error;
use edit_document::{Place, clone_place};
use std::alloc::{AllocError, AllocFailed, Global};

/// What caused an error of a plan.
#[derive(Debug, Drop)]
pub enum Origin {
    /// An input, by its index: its bytes are no manifest.
    Input(usize),
    /// An entry of an input, by its place in the manifest.
    Entry { input: usize, place: Place },
}

/// An error of a plan.
#[derive(Debug, Drop)]
pub struct PlanFailure {
    pub error: Error,
    /// What caused it; `None` for an error of the options. If memory ran out it may be either.
    pub origin: Option<Origin>,
}

impl From<Error> for PlanFailure {
    ghost from_gives = { λ e f. (f.error ≡ e) × (f.origin ≡ None) };

    fn from(error: Error) -> PlanFailure {
        let origin = None;
        PlanFailure { error, origin }
    }
}

impl From<AllocError> for PlanFailure {
    ghost from_gives = { λ _ f. (f.error ≡ Memory) × (f.origin ≡ None) };

    fn from(_error: AllocError) -> PlanFailure {
        PlanFailure::from(Error::Memory)
    }
}

impl<T: Drop> From<AllocFailed<T>> for PlanFailure {
    ghost from_gives = { λ _ f. (f.error ≡ Memory) × (f.origin ≡ None) };

    fn from(_error: AllocFailed<T>) -> PlanFailure {
        PlanFailure::from(Error::Memory)
    }
}

impl From<PlanFailure> for Error {
    ghost from_gives = { λ f e. e ≡ f.error };

    fn from(failure: PlanFailure) -> Error {
        failure.error
    }
}

/// The failure of a plan at an input.
pub(crate) fn at_input(error: Error, input: usize) -> PlanFailure
    ensures error { result.error ≡ error }
    ensures origin { IsFrom result (at_input input) }
{
    PlanFailure {
        error,
        origin: Some(Origin::Input(input)),
    }
}

/// The failure of a plan at an entry of an input. Where memory runs out for the entry's place, that is the
/// error.
pub(crate) fn at_entry(alloc: Global, error: Error, input: usize, entry: &Entry) -> PlanFailure
    ensures { IsMemory result.error ⊎ ((result.error ≡ error)
        × IsFrom result (at_entry input (place_view entry.now.place.items))) }
{
    match clone_place(alloc, &entry.place) {
        Ok(place) => PlanFailure {
            error,
            origin: Some(Origin::Entry { input, place }),
        },
        Err(error) => PlanFailure::from(error),
    }
}
