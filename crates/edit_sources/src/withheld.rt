//! What was held back of a crate's versions for their age.
ghost use Rattle.std.specs.Prelude.{◌≡◌};
ghost use Rattle.edit_sources.specs.Withheld as spec;

use crate::published::{PublishedBefore, is_by};

/// What an index with a bound on the time of publication held back of a crate's versions, and whether it has
/// the time of one. Yanked versions do not count as held back.
#[derive(Clone, Copy, Debug, PartialEq, Eq, Drop)]
pub struct Withheld {
    /// Whether there are versions that were published after the bound.
    pub younger: bool,
    /// Whether there are versions whose time is unknown.
    pub undated: bool,
    /// Whether the time of a version is known, also of one that is yanked or was not held back.
    pub dated: bool,
}

impl Withheld {
    /// Nothing was held back, and no time is known; so it is where an index has no bound.
    pub fn nothing() -> Withheld
        ensures { result ≡ spec.nothing }
    {
        Withheld {
            younger: false,
            undated: false,
            dated: false,
        }
    }
}

/// What either of two has.
pub(crate) fn either(one: Withheld, other: Withheld) -> Withheld
    ensures { result ≡ spec.either one other }
{
    Withheld {
        younger: one.younger || other.younger,
        undated: one.undated || other.undated,
        dated: one.dated || other.dated,
    }
}

/// What is held back of a version, from whether it is yanked and its time, if that is known.
pub(crate) fn of_version(bound: PublishedBefore, yanked: bool, time: Option<i128>) -> Withheld
    ensures { result ≡ spec.of_version bound yanked time }
{
    match time {
        Some(time) => Withheld {
            younger: !yanked && !is_by(bound, Some(time)),
            undated: false,
            dated: true,
        },
        None => Withheld {
            younger: false,
            undated: !yanked,
            dated: false,
        },
    }
}
