//! Errors of a plan of new versions, with what caused them.
ghost use Rattle.std.specs.Prelude.{◌≡◌, None, string_bytes};
ghost use Rattle.edit_base.specs.declared.errors.Error.TheVariants.{Memory};
ghost use Rattle.edit_document.specs.Items.{place_view};
ghost use Rattle.edit_metadata.specs.Inputs.{path_of};
ghost use Rattle.edit_set_version.specs.Crates.{member_of};
ghost use Rattle.edit_set_version.specs.Failures.{IsFrom};
ghost use Rattle.edit_set_version.specs.Failures.Cause.{at_entry, at_input, at_member, at_root};

use crate::crates::Crate;
use edit_base::Error;
use edit_document::Place;
use edit_metadata::{Input, Package};
use std::alloc::{AllocError, AllocFailed};

/// What caused an error of a plan of new versions.
#[derive(Drop)]
pub enum VersionOrigin<'a> {
    /// An input: its bytes are no manifest, or it has no value for the new version of its package.
    Input(&'a Input),
    /// The version of the workspace, in the root manifest.
    Root(&'a Input),
    /// The version of a member.
    Member {
        package: &'a Package,
        input: &'a Input,
    },
    /// The requirement of an entry on a member that gets a new version.
    Entry {
        input: &'a Input,
        place: Place,
    },
}

/// An error of a plan of new versions.
#[derive(Drop)]
pub struct VersionFailure<'a> {
    pub error: Error,
    /// What caused it; `None` for an error of the selected names. If memory ran out it may be either.
    pub origin: Option<VersionOrigin<'a>>,
}

impl<'a> From<Error> for VersionFailure<'a> {
    ghost from_gives = { λ e f. (f.error ≡ e) × (f.origin ≡ None) };

    fn from(error: Error) -> VersionFailure<'a> {
        let origin = None;
        VersionFailure { error, origin }
    }
}

impl<'a> From<AllocError> for VersionFailure<'a> {
    ghost from_gives = { λ _ f. (f.error ≡ Memory) × (f.origin ≡ None) };

    fn from(_error: AllocError) -> VersionFailure<'a> {
        VersionFailure::from(Error::Memory)
    }
}

impl<'a, T: Drop> From<AllocFailed<T>> for VersionFailure<'a> {
    ghost from_gives = { λ _ f. (f.error ≡ Memory) × (f.origin ≡ None) };

    fn from(_error: AllocFailed<T>) -> VersionFailure<'a> {
        VersionFailure::from(Error::Memory)
    }
}

impl<'a> From<VersionFailure<'a>> for Error {
    ghost from_gives = { λ f e. e ≡ f.error };

    fn from(failure: VersionFailure<'a>) -> Error {
        failure.error
    }
}

/// The failure of a plan at an input.
pub(crate) fn at_input<'a>(error: Error, input: &'a Input) -> VersionFailure<'a>
    ensures error { result.error ≡ error }
    ensures origin { IsFrom result (at_input (path_of input.now)) }
{
    VersionFailure {
        error,
        origin: Some(VersionOrigin::Input(input)),
    }
}

/// The failure of a plan at the version of the workspace, in the root manifest.
pub(crate) fn at_root<'a>(error: Error, root: &'a Input) -> VersionFailure<'a>
    ensures error { result.error ≡ error }
    ensures origin { IsFrom result (at_root (path_of root.now)) }
{
    VersionFailure {
        error,
        origin: Some(VersionOrigin::Root(root)),
    }
}

/// The failure of a plan at the version of a member.
pub(crate) fn at_member<'a, 'm>(error: Error, member: Crate<'a, 'm>) -> VersionFailure<'a>
    ensures error { result.error ≡ error }
    ensures origin { IsFrom result (at_member (member_of member.entry).name (member_of member.entry).path) }
{
    VersionFailure {
        error,
        origin: Some(VersionOrigin::Member {
            package: member.package_info,
            input: member.input,
        }),
    }
}

/// The failure of a plan at the requirement of an entry.
pub(crate) fn at_entry<'a>(error: Error, input: &'a Input, place: Place) -> VersionFailure<'a>
    ensures error { result.error ≡ error }
    ensures origin { IsFrom result (at_entry (path_of input.now) (place_view place.items)) }
{
    VersionFailure {
        error,
        origin: Some(VersionOrigin::Entry { input, place }),
    }
}
