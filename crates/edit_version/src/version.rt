//! Versions incremented, as calls on `semver::Version`.

ghost use Rattle.std.specs.Prelude.{◌≡◌, ◌<◌, ◌+◌, ◌↔◌, IfErr, IfOk, IsTrue, MatchOption, None, OnOk, Some, length, option_map};
ghost use Rattle.edit_version.specs.Changed.{IsCause, IsChanged, IsRaisedOrAtEnd, IsInvalidBuild};
ghost use Rattle.edit_version.specs.Increments.{Major, Minor, Patch, Pre, To, is_later_phase, next_phase, number_after, number_of, phase_prerelease, step, with_build, phase_name, first_identifier};
ghost use Rattle.edit_base.specs.declared.errors.Error.TheVariants as error;
ghost use Rattle.edit_version.specs.declared.version.Phase.TheVariants as phase;
ghost use Rattle.edit_base.specs.Errors.{IsMemory};
ghost use Rattle.edit_version.specs.Laws.{IsReadable};
ghost use Rattle.edit_version.specs.ReadVersion.{version_read};
ghost use Rattle.edit_version.specs.VersionOrder.{full_order};
ghost use Rattle.std.specs.declared.cmp.Ordering.TheVariants.{Greater};
ghost use Rattle.semver.specs.Grammar.{is_build, is_pre_release};
ghost use Rattle.semver.specs.Order.{is_numeric};
ghost use Rattle.semver.specs.Identifiers.{build_text, parts_of, pre_text};

use edit_base::errors::{CargoResult, Error};
use semver::{BuildMetadata, Prerelease, Version};
use std::alloc::{AllocError, Global};

/// The version that a text is; none where it is none.
pub fn read_version(alloc: Global, text: &str) -> CargoResult<Option<Version>>
    ensures read { IfOk result (λ o. option_map parts_of o ≡ version_read text.now) }
    ensures error { IfErr result IsMemory }
{
    match Version::parse(alloc, text) {
        Ok(version) => Ok(Some(version)),
        Err(error) => {
            if error == semver::Error::from(AllocError) {
                return Err(Error::Memory);
            }
            Ok(None)
        }
    }
}

/// What this project adds to `semver::Version`.
pub trait VersionExt {
    /// The next major version: lower numbers 0, without pre-release and build metadata. Refused with 18,
    /// and unchanged, where the number is the greatest of 64 bits.
    fn increment_major(&mut self) -> CargoResult<()>;

    /// The next minor version, likewise.
    fn increment_minor(&mut self) -> CargoResult<()>;

    /// The next patch version, likewise.
    fn increment_patch(&mut self) -> CargoResult<()>;

    /// The next alpha: `alpha.1` of the next patch version, or of a pre-release the next number, or
    /// `alpha.1` in the place of another phase, with its build metadata. Refused with 17 where the
    /// pre-release is not a name or a name and a number, with 16 where it is a beta or rc, and with 18.
    fn increment_alpha(&mut self, alloc: Global) -> CargoResult<()>;

    /// The next beta, likewise; refused with 16 where the pre-release is an rc.
    fn increment_beta(&mut self, alloc: Global) -> CargoResult<()>;

    /// The next rc, likewise; never refused with 16.
    fn increment_rc(&mut self, alloc: Global) -> CargoResult<()>;

    /// Sets the build metadata; refused with 19 where the text is none.
    fn metadata(&mut self, alloc: Global, metadata: &str) -> CargoResult<()>;

    /// Whether the version has a pre-release.
    fn is_prerelease(&self) -> bool;
}

/// The phases of a pre-release, in their order.
#[derive(Clone, Copy)]
enum Phase {
    Alpha,
    Beta,
    Rc,
}

impl Phase {
    fn phase_name(self) -> &'static str
        ensures { result.now ≡ phase_name self }
    {
        match self {
            Phase::Alpha => "alpha",
            Phase::Beta => "beta",
            Phase::Rc => "rc",
        }
    }

    /// Whether a text names a phase behind this one.
    fn is_before(self, phase_name: &str) -> bool
        ensures { result ≡ is_later_phase self phase_name.now }
    {
        match self {
            Phase::Alpha => phase_name == "beta" || phase_name == "rc",
            Phase::Beta => phase_name == "rc",
            Phase::Rc => false,
        }
    }
}

/// The error at a number that can rise no further.
fn at_end(version: &Version) -> Error
    ensures { result ≡ error.NumberAtEnd version.now.major version.now.minor version.now.patch }
{
    Error::NumberAtEnd {
        major: version.major,
        minor: version.minor,
        patch: version.patch,
    }
}

impl VersionExt for Version {
    #[tactic(auto, using(crate::proofs::Steps::greater_major))]
    fn increment_major(&mut self) -> CargoResult<()>
        ensures changed { IsRaisedOrAtEnd (step Major (parts_of self.old)) self.old self.new result }
        ensures greater { OnOk result (full_order (parts_of self.new) (parts_of self.old) ≡ Greater) }
    {
        let Some(major) = self.major.checked_add(1) else {
            return Err(at_end(self));
        };
        *self = Version::new(major, 0, 0);
        Ok(())
    }

    #[tactic(auto, using(crate::proofs::Steps::greater_minor))]
    fn increment_minor(&mut self) -> CargoResult<()>
        ensures changed { IsRaisedOrAtEnd (step Minor (parts_of self.old)) self.old self.new result }
        ensures greater { OnOk result (full_order (parts_of self.new) (parts_of self.old) ≡ Greater) }
    {
        let Some(minor) = self.minor.checked_add(1) else {
            return Err(at_end(self));
        };
        *self = Version::new(self.major, minor, 0);
        Ok(())
    }

    #[tactic(auto, using(crate::proofs::Steps::greater_patch))]
    fn increment_patch(&mut self) -> CargoResult<()>
        ensures changed { IsRaisedOrAtEnd (step Patch (parts_of self.old)) self.old self.new result }
        ensures greater { OnOk result (full_order (parts_of self.new) (parts_of self.old) ≡ Greater) }
    {
        let Some(patch) = self.patch.checked_add(1) else {
            return Err(at_end(self));
        };
        *self = Version::new(self.major, self.minor, patch);
        Ok(())
    }

    fn increment_alpha(&mut self, alloc: Global) -> CargoResult<()>
        ensures changed { IsChanged (step (Pre phase.Alpha) (parts_of self.old)) self.old self.new result }
        ensures readable { OnOk result (IsReadable (parts_of self.new)) }
    {
        increment_phase(alloc, self, Phase::Alpha)
    }

    fn increment_beta(&mut self, alloc: Global) -> CargoResult<()>
        ensures changed { IsChanged (step (Pre phase.Beta) (parts_of self.old)) self.old self.new result }
        ensures readable { OnOk result (IsReadable (parts_of self.new)) }
    {
        increment_phase(alloc, self, Phase::Beta)
    }

    fn increment_rc(&mut self, alloc: Global) -> CargoResult<()>
        ensures changed { IsChanged (step (Pre phase.Rc) (parts_of self.old)) self.old self.new result }
        ensures readable { OnOk result (IsReadable (parts_of self.new)) }
    {
        increment_phase(alloc, self, Phase::Rc)
    }

    fn metadata(&mut self, alloc: Global, metadata: &str) -> CargoResult<()>
        ensures { IsChanged (with_build metadata.now (parts_of self.old)) self.old self.new result }
    {
        self.build = read_build(alloc, metadata)?;
        Ok(())
    }

    fn is_prerelease(&self) -> bool
        ensures { IsTrue result ↔ (0 < length (pre_text self.now.pre)) }
    {
        !self.pre.is_empty()
    }
}

/// Reads build metadata.
fn read_build(alloc: Global, text: &str) -> CargoResult<BuildMetadata>
    ensures ok { IfOk result (λ b. (build_text b ≡ text.now) × IsTrue (is_build text.now)) }
    ensures err { IfErr result (λ e. IsInvalidBuild text.now e) }
{
    match BuildMetadata::new(alloc, text) {
        Ok(build) => Ok(build),
        Err(error) => {
            if error == semver::Error::from(AllocError) {
                return Err(Error::Memory);
            }
            Err(Error::InvalidMetadata {
                text: String::from_str(alloc, text)?,
            })
        }
    }
}

/// A pre-release of a phase.
fn phase_prerelease(alloc: Global, phase: Phase, number: u64) -> CargoResult<Prerelease>
    ensures ok { IfOk result (λ p. (pre_text p ≡ phase_prerelease phase number)
        × IsTrue (is_pre_release (pre_text p))) }
    ensures err { IfErr result (λ e. e ≡ error.Memory) }
{
    let phase_name = phase.phase_name();
    let text = format!(in alloc; "{phase_name}.{number}")?;
    match Prerelease::new(alloc, text.as_str()) {
        Ok(pre) => Ok(pre),
        Err(_) => Err(Error::Memory),
    }
}

fn is_numeric(text: &str) -> bool
    ensures { result ≡ is_numeric text.now }
{
    text.as_bytes().iter().all(|byte| byte.is_ascii_digit())
}

/// The decimal number of 64 bits that a text is.
fn read_number(text: &str) -> Option<u64>
    ensures { result ≡ number_of text.now }
{
    if !is_numeric(text) {
        return None;
    }
    match text.parse::<u64>() {
        Ok(number) => Some(number),
        Err(_) => None,
    }
}

/// The name of a pre-release, and the number after its first dot, 0 where there is no dot.
fn identifier_and_number(pre: &str) -> Option<(&str, u64)>
    ensures { MatchOption result (number_after pre.now ≡ None)
        (λ x. (x.0.now ≡ first_identifier pre.now) × (number_after pre.now ≡ Some x.1)) }
{
    let Some((phase_name, rest)) = pre.split_once('.') else {
        return Some((pre, 0));
    };
    let number = read_number(rest)?;
    Some((phase_name, number))
}

/// The number of the next pre-release of a phase.
fn next_number(alloc: Global, version: &Version, phase: Phase) -> CargoResult<u64>
    requires { 0 < length (pre_text version.now.pre) }
    ensures ok { IfOk result (λ n. next_phase phase (parts_of version.now)
        ≡ To (
          version.now.major,
          version.now.minor,
          version.now.patch,
          phase_prerelease phase n,
          build_text version.now.build,
        )) }
    ensures err { IfErr result (λ e. IsCause (next_phase phase (parts_of version.now))
        (parts_of version.now) e) }
{
    let Some((phase_name, number)) = identifier_and_number(version.pre.as_str()) else {
        return Err(Error::PrereleaseScheme);
    };
    if phase.is_before(phase_name) {
        return Err(Error::ReleaseLevel {
            level: String::from_str(alloc, phase.phase_name())?,
            version: format!(in alloc; "{version}")?,
        });
    }
    if phase_name != phase.phase_name() {
        return Ok(1);
    }
    match number.checked_add(1) {
        Some(next) => Ok(next),
        None => Err(at_end(version)),
    }
}

/// Raises a version to the next one of a phase.
fn increment_phase(alloc: Global, version: &mut Version, phase: Phase) -> CargoResult<()>
    ensures changed { IsChanged (next_phase phase (parts_of version.old)) version.old version.new result }
    ensures readable { OnOk result (IsReadable (parts_of version.new)) }
{
    if version.pre.is_empty() {
        let Some(patch) = version.patch.checked_add(1) else {
            return Err(at_end(version));
        };
        let pre = phase_prerelease(alloc, phase, 1)?;
        version.patch = patch;
        version.pre = pre;
        version.build = BuildMetadata::empty();
        return Ok(());
    }
    let number = next_number(alloc, version, phase)?;
    version.pre = phase_prerelease(alloc, phase, number)?;
    Ok(())
}
