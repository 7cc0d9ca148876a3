//! Levels, which bound how far a version may be from the floor of a requirement.
ghost use Rattle.std.specs.Prelude.{◌≡◌, find, option_copied, string_bytes};
ghost use Rattle.std.specs.Str.{bytes_eq};
ghost use Rattle.edit_version.specs.Levels.{is_in_bound, is_within, level_of};
ghost use Rattle.edit_version.specs.ReadRequirement.{text_in};
ghost use Rattle.semver.specs.Identifiers.{parts_of};

use crate::floors::floor;
use crate::requirement::Requirement;
use semver::{Comparator, Version};

/// Which of its three numbers a version may have other than the floor of a requirement.
#[derive(Clone, Copy, Debug, PartialEq, Eq)]
pub enum Level {
    /// The patch number.
    Patch,
    /// The minor and the patch number.
    Minor,
    /// Each number.
    Major,
}

/// The level for the entries of one crate.
#[derive(Debug, Drop)]
pub struct CrateLevel {
    pub name: String,
    pub level: Level,
}

/// How far upgrades may go: a level for all crates, and levels for single crates, which come before it.
#[derive(Clone, Copy)]
pub struct Levels<'a> {
    pub all: Option<Level>,
    pub crates: &'a [CrateLevel],
}

/// The first of these levels that is for a crate; none where there is none.
fn first_for<'a>(crates: &'a [CrateLevel], name: &str) -> Option<&'a CrateLevel>
    ensures { option_copied result ≡ find (λ c. bytes_eq (string_bytes c.name) name.now) crates.entry.now }
{
    crates.iter().find(|one| one.name.as_str() == name)
}

impl Levels<'_> {
    /// The level for a crate: the first one for its name, else the one for all crates.
    #[tactic(auto, unfolding(crate::specs::Levels::level_of))]
    pub fn for_crate(self, name: &str) -> Option<Level>
        ensures { result ≡ level_of self.entry name.now }
    {
        match first_for(self.crates, name) {
            Some(one) => Some(one.level),
            None => self.all,
        }
    }
}

/// A level, and the comparator that names the floor from which it counts.
#[derive(Clone, Copy)]
pub struct Bound<'a> {
    level: Option<Level>,
    floor: Option<&'a Comparator>,
}

impl<'a> Bound<'a> {
    /// The bound that a level sets for the versions of a requirement. Without a level, and for a requirement
    /// without a floor, every version is within it.
    pub fn new(level: Option<Level>, old: &'a Requirement<'_>) -> Bound<'a>
        ensures { is_in_bound result ≡ is_within level (text_in old.now) }
    {
        Bound {
            level,
            floor: floor(old),
        }
    }

    /// Whether a version is within the bound.
    pub fn contains(&self, version: &Version) -> bool
        ensures { result ≡ is_in_bound self.now (parts_of version.now) }
    {
        match (self.level, self.floor) {
            (Some(Level::Patch), Some(floor)) => {
                version.major == floor.major && version.minor == floor.minor.unwrap_or(0)
            }
            (Some(Level::Minor), Some(floor)) => version.major == floor.major,
            _ => true,
        }
    }
}
