//! The target of `set-version`, and the next version that it makes of the current one.

ghost use Rattle.std.specs.Prelude.{◌≡◌, IfErr, IfOk, IfSome, option_copied};
ghost use Rattle.semver.specs.Identifiers.{parts_of};
ghost use Rattle.edit_base.specs.Errors.{IsMemory};
ghost use Rattle.edit_version.specs.Laws.{IsReadable};
ghost use Rattle.edit_set_version.specs.BumpCauses.{IsUnbumped};
ghost use Rattle.edit_set_version.specs.Bumps.{IsGreaterUnlessRelative, IsReadableTarget, bump, bumped_to, target_of};
ghost use Rattle.edit_set_version.specs.Levels.{IsLevel};
ghost use Rattle.edit_set_version.specs.declared.set_version.BumpLevel.TheVariants.{Release};
ghost use Rattle.edit_set_version.specs.declared.set_version.TargetVersion.TheVariants.{Relative};

use crate::bump::{bump_by_level, bump_to_version};
use edit_base::errors::CargoResult;
use semver::Version;
use std::alloc::Global;
use std::str::FromStr;

/// A level to raise a version by.
#[derive(Clone, Copy, Debug, PartialEq, Eq)]
pub enum BumpLevel {
    Major,
    Minor,
    Patch,
    /// The version without its pre-release.
    Release,
    Rc,
    Beta,
    Alpha,
}

/// The part of the error message that lists the levels.
const LEVELS: &str = "[valid values: major, minor, patch, rc, beta, alpha]";

impl FromStr for BumpLevel {
    type Err = &'static str;

    ghost from_str_gives = { λ text r. IsLevel text r };

    fn from_str(text: &str) -> Result<BumpLevel, &'static str> {
        match text {
            "major" => Ok(BumpLevel::Major),
            "minor" => Ok(BumpLevel::Minor),
            "patch" => Ok(BumpLevel::Patch),
            "release" => Ok(BumpLevel::Release),
            "rc" => Ok(BumpLevel::Rc),
            "beta" => Ok(BumpLevel::Beta),
            "alpha" => Ok(BumpLevel::Alpha),
            _ => Err(LEVELS),
        }
    }
}

/// The target: a level to raise the current version by, or a version to set.
#[derive(Debug, Drop)]
pub enum TargetVersion {
    Relative(BumpLevel),
    Absolute(Version),
}

impl Default for TargetVersion {
    /// `Relative(Release)`: the current version without its pre-release.
    fn default() -> TargetVersion
        ensures { result ≡ Relative Release }
    {
        TargetVersion::Relative(BumpLevel::Release)
    }
}

impl TargetVersion {
    /// Copies the target into newly allocated memory.
    pub fn try_clone(&self, _alloc: Global) -> CargoResult<TargetVersion>
        ensures same { IfOk result (λ t. target_of t ≡ target_of self.now) }
        ensures error { IfErr result IsMemory }
    {
        match self {
            TargetVersion::Relative(level) => Ok(TargetVersion::Relative(*level)),
            TargetVersion::Absolute(version) => Ok(TargetVersion::Absolute(version.clone()?)),
        }
    }

    /// The next version after the current one, or `None` where that equals the current one.
    ///
    /// A level raises the current version; `Patch` of a pre-release and `Release` only clear the
    /// pre-release. Then `metadata` is set as build metadata, where it is given. Fails with
    /// `Error::ReleaseLevel`, `Error::PrereleaseScheme`, `Error::NumberAtEnd` or `Error::InvalidMetadata`
    /// where the increment does.
    ///
    /// An absolute version is taken where it is greater, build metadata included, and fails with
    /// `Error::Downgrade` where it is lower. Where it has no build metadata, it gets `metadata`
    /// (`Error::InvalidMetadata` where that is not valid), else the build metadata of the current version.
    pub fn bump(
        &self,
        alloc: Global,
        current: &Version,
        metadata: Option<&str>,
    ) -> CargoResult<Option<Version>>
        ensures bumped { IfOk result (λ next. bump (target_of self.now) (option_copied metadata.entry)
            (parts_of current.now) ≡ bumped_to next) }
        ensures error { IfErr result (λ e. IsUnbumped (bump (target_of self.now)
            (option_copied metadata.entry) (parts_of current.now)) (parts_of current.now) e) }
        // an absolute version is never lower than the current one
        ensures greater { IfOk result (λ next. IfSome next (λ v. IsGreaterUnlessRelative
            (target_of self.now) (parts_of v) (parts_of current.now))) }
        ensures readable { IsReadable (parts_of current.now) → IsReadableTarget (target_of self.now)
            → IfOk result (λ next. IfSome next (λ v. IsReadable (parts_of v))) }
    {
        match self {
            TargetVersion::Relative(level) => bump_by_level(alloc, *level, current, metadata),
            TargetVersion::Absolute(version) => bump_to_version(alloc, version, current, metadata),
        }
    }
}
