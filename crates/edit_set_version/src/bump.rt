//! The next version of a crate: its current one raised by a level, or replaced by a requested one.

ghost use Rattle.std.specs.Prelude.{◌≡◌, IfErr, IfOk, IfSome, OnOk, option_copied};
ghost use Rattle.std.specs.declared.cmp.Ordering.TheVariants.{Greater};
ghost use Rattle.semver.specs.Identifiers.{build_text, parts_of, pre_text};
ghost use Rattle.edit_base.specs.Errors.{IsMemory};
ghost use Rattle.edit_version.specs.Changed.{IsChanged};
ghost use Rattle.edit_version.specs.Increments.{To};
ghost use Rattle.edit_version.specs.Laws.{IsReadable};
ghost use Rattle.edit_version.specs.VersionOrder.{full_order};
ghost use Rattle.edit_set_version.specs.declared.set_version.BumpLevel.TheVariants as level;
ghost use Rattle.edit_set_version.specs.BumpCauses.{IsMade, IsUnbumped};
ghost use Rattle.edit_set_version.specs.Bumps.{bump, bumped_to, by_level, exactly, with_filled_build, is_same, lower, raised_by, without_prerelease, fill_requested, with_given};

use crate::set_version::BumpLevel;
use edit_base::errors::{CargoResult, Error};
use edit_version::VersionExt;
use semver::{BuildMetadata, Prerelease, Version};
use std::alloc::{AllocError, Global};
use std::cmp::Ordering;

/// Clears the pre-release.
fn clear_prerelease(version: &mut Version)
    ensures { parts_of version.new ≡ without_prerelease (parts_of version.old) }
{
    version.pre = Prerelease::empty();
}

/// Increments the patch number, or clears the pre-release where there is one.
fn raise_patch(version: &mut Version) -> CargoResult<()>
    ensures changed { IsChanged (raised_by level.Patch (parts_of version.old)) version.old version.new
        result }
    ensures readable { OnOk result (IsReadable (parts_of version.new)) }
{
    if version.pre.is_empty() {
        return version.increment_patch();
    }
    clear_prerelease(version);
    Ok(())
}

/// Raises a version by a level.
fn raise_by(alloc: Global, version: &mut Version, level: BumpLevel) -> CargoResult<()>
    ensures changed { IsChanged (raised_by level (parts_of version.old)) version.old version.new result }
    ensures readable { OnOk result (IsReadable (parts_of version.new)) }
{
    match level {
        BumpLevel::Major => version.increment_major(),
        BumpLevel::Minor => version.increment_minor(),
        BumpLevel::Patch => raise_patch(version),
        BumpLevel::Release => {
            clear_prerelease(version);
            Ok(())
        }
        BumpLevel::Rc => version.increment_rc(alloc),
        BumpLevel::Beta => version.increment_beta(alloc),
        BumpLevel::Alpha => version.increment_alpha(alloc),
    }
}

/// Whether two versions are equal, build metadata included.
fn is_same(version: &Version, other: &Version) -> bool
    ensures { result ≡ is_same (parts_of version.now) (parts_of other.now) }
{
    version == other
}

/// The order of two versions, build metadata included.
fn order(version: &Version, other: &Version) -> Ordering
    ensures { result ≡ full_order (parts_of version.now) (parts_of other.now) }
{
    version.cmp(other)
}

/// Copies a version into newly allocated memory.
fn copy(version: &Version) -> Result<Version, AllocError>
    ensures { IfOk result (λ v. parts_of v ≡ parts_of version.now) }
{
    version.clone()
}

/// Sets the build metadata, where `metadata` is given.
fn set_build(alloc: Global, version: &mut Version, metadata: Option<&str>) -> CargoResult<()>
    ensures changed { IsChanged (with_given (option_copied metadata.entry) (To (parts_of version.old)))
        version.old version.new result }
    ensures pre { OnOk result (pre_text version.new.pre ≡ pre_text version.old.pre) }
{
    match metadata {
        Some(metadata) => version.metadata(alloc, metadata),
        None => Ok(()),
    }
}

/// The current version raised by a level, with the given build metadata.
fn raised_version(
    alloc: Global,
    level: BumpLevel,
    current: &Version,
    metadata: Option<&str>,
) -> CargoResult<Version>
    ensures made { IsMade (with_given (option_copied metadata.entry) (raised_by level (parts_of current.now)))
        (parts_of current.now) result }
    ensures readable { IfOk result (λ v. IsReadable (parts_of v)) }
{
    let mut version = copy(current)?;
    raise_by(alloc, &mut version, level)?;
    set_build(alloc, &mut version, metadata)?;
    Ok(version)
}

/// The current version raised by a level, or `None` where that equals the current one.
pub(crate) fn bump_by_level(
    alloc: Global,
    level: BumpLevel,
    current: &Version,
    metadata: Option<&str>,
) -> CargoResult<Option<Version>>
    ensures bumped { IfOk result (λ next. bump (by_level level) (option_copied metadata.entry)
        (parts_of current.now) ≡ bumped_to next) }
    ensures error { IfErr result (λ e. IsUnbumped (bump (by_level level) (option_copied metadata.entry)
        (parts_of current.now)) (parts_of current.now) e) }
    ensures readable { IfOk result (λ next. IfSome next (λ v. IsReadable (parts_of v))) }
{
    let version = raised_version(alloc, level, current, metadata)?;
    if is_same(&version, current) {
        return Ok(None);
    }
    Ok(Some(version))
}

/// `Error::Downgrade`, for a requested version that is lower than the current one.
fn downgrade(alloc: Global, current: &Version, requested: &Version) -> Result<Error, AllocError>
    ensures { IfOk result (λ e. IsUnbumped (lower (parts_of requested.now)) (parts_of current.now) e) }
{
    Ok(Error::Downgrade {
        current: format!(in alloc; "{current}")?,
        requested: format!(in alloc; "{requested}")?,
    })
}

/// Copies the build metadata of a version into newly allocated memory.
fn copy_build(version: &Version) -> Result<BuildMetadata, AllocError>
    ensures { IfOk result (λ b. build_text b ≡ build_text version.now.build) }
{
    version.build.clone()
}

/// Sets the build metadata of a version to `metadata` where that is given, else to that of the current
/// version.
fn fill_build(
    alloc: Global,
    version: &mut Version,
    current: &Version,
    metadata: Option<&str>,
) -> CargoResult<()>
    ensures changed { IsChanged (with_filled_build (option_copied metadata.entry) (parts_of current.now)
        (parts_of version.old)) version.old version.new result }
    ensures pre { OnOk result (pre_text version.new.pre ≡ pre_text version.old.pre) }
{
    match metadata {
        Some(metadata) => version.metadata(alloc, metadata),
        None => {
            version.build = copy_build(current)?;
            Ok(())
        }
    }
}

/// The requested version; where it has no build metadata, `metadata` or that of the current version is set.
fn fill_requested(
    alloc: Global,
    requested: &Version,
    current: &Version,
    metadata: Option<&str>,
) -> CargoResult<Version>
    ensures made { IsMade (fill_requested (option_copied metadata.entry) (parts_of current.now)
        (parts_of requested.now)) (parts_of current.now) result }
    ensures readable { IsReadable (parts_of requested.now) → IfOk result (λ v. IsReadable (parts_of v)) }
{
    let mut version = copy(requested)?;
    if version.build.is_empty() {
        fill_build(alloc, &mut version, current, metadata)?;
    }
    Ok(version)
}

/// The requested version in place of the current one, `None` where they are equal. A lower version is an
/// error.
pub(crate) fn bump_to_version(
    alloc: Global,
    requested: &Version,
    current: &Version,
    metadata: Option<&str>,
) -> CargoResult<Option<Version>>
    ensures bumped { IfOk result (λ next. bump (exactly (parts_of requested.now))
        (option_copied metadata.entry) (parts_of current.now) ≡ bumped_to next) }
    ensures error { IfErr result (λ e. IsUnbumped (bump (exactly (parts_of requested.now))
        (option_copied metadata.entry) (parts_of current.now)) (parts_of current.now) e) }
    ensures greater { IfOk result (λ next. IfSome next (λ v. full_order (parts_of v) (parts_of current.now)
        ≡ Greater)) }
    ensures readable { IsReadable (parts_of requested.now)
        → IfOk result (λ next. IfSome next (λ v. IsReadable (parts_of v))) }
{
    match order(requested, current) {
        Ordering::Less => Err(downgrade(alloc, current, requested)?),
        Ordering::Equal => Ok(None),
        Ordering::Greater => Ok(Some(fill_requested(alloc, requested, current, metadata)?)),
    }
}
