//! The options of an upgrade.
ghost use Rattle.std.specs.Prelude.{◌≡◌};
ghost use Rattle.edit_version.specs.Levels.{level_of};
ghost use Rattle.edit_upgrade.specs.OptionLevels.{level_in};

use edit_version::{CrateLevel, Level, Levels};

/// The options of an upgrade.
#[derive(Debug, Drop)]
pub struct Options {
    /// Raise to the greatest version compatible with the requirement.
    pub compatible: bool,
    /// Raise to the latest version, even where the requirement does not admit it.
    pub incompatible: bool,
    /// Raise pinned entries to the latest version.
    pub pinned: bool,
    /// Never take a latest version below the floor of the requirement: the greatest version that one of its
    /// comparators other than `<` and `<=` names.
    pub never_lower: bool,
    /// Take only versions that are within this level of the old requirement.
    pub level: Option<Level>,
    /// The levels for single crates, which come before `level`.
    pub crate_levels: Vec<CrateLevel>,
    pub package: Vec<String>,
    pub exclude: Vec<String>,
    pub dry_run: bool,
    pub locked: bool,
    pub recursive: Option<bool>,
    pub verbosity: i8,
}

impl Options {
    /// The level for all crates, and those for single crates.
    #[tactic(auto, unfolding(crate::specs::OptionLevels::level_in, edit_version::specs::Levels::level_of))]
    pub fn levels(&self) -> Levels<'_>
        ensures { level_of result ≡ level_in self.now }
    {
        Levels {
            all: self.level,
            crates: &self.crate_levels,
        }
    }

    /// The level for the entries of a crate.
    pub(crate) fn level_for(&self, name: &str) -> Option<Level>
        ensures { result ≡ level_in self.now name.now }
    {
        self.levels().for_crate(name)
    }
}
