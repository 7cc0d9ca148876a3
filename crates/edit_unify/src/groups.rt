//! What rows have in common that are together; rows with the same group have one requirement.
ghost use Rattle.std.specs.Prelude.{◌≡◌};
ghost use Rattle.edit_version.specs.Levels.{level_of};
ghost use Rattle.edit_unify.specs.Groups.{crate_of, crate_view, group_of, group_view};
ghost use Rattle.edit_unify.specs.Stands.{stand_view};

use crate::ranges::{Numbers, kept_minor, range_of};
use crate::stands::Stand;
use edit_version::Levels;

/// A crate, and the address of its registry.
#[derive(Clone, Copy, PartialEq, Eq, PartialOrd, Ord)]
pub(crate) struct RegistryCrate<'a> {
    pub(crate) name: &'a str,
    pub(crate) address: &'a str,
}

/// A crate in a compatible range, and the minor number that a level keeps of its floors.
#[derive(Clone, Copy, PartialEq, Eq, PartialOrd, Ord)]
pub(crate) struct Group<'a> {
    pub(crate) krate: RegistryCrate<'a>,
    pub(crate) range: Numbers,
    pub(crate) minor: u64,
}

/// The crate that a row requires.
pub(crate) fn crate_of<'a>(stand: &Stand<'a>) -> RegistryCrate<'a>
    ensures { crate_view result ≡ crate_of (stand_view stand.now) }
{
    RegistryCrate {
        name: stand.name,
        address: stand.address,
    }
}

/// The group of a row.
pub(crate) fn group_of<'a>(levels: Levels<'_>, stand: &Stand<'a>) -> Group<'a>
    ensures { group_view result ≡ group_of (level_of levels.entry) (stand_view stand.now) }
{
    Group {
        krate: crate_of(stand),
        range: range_of(stand.numbers),
        minor: kept_minor(levels.for_crate(stand.name), stand.numbers),
    }
}
