//! Requirements raised to a version.
ghost use Rattle.std.specs.Prelude.{◌≡◌, ◌<◌, ◌^◌, false, length, IfErr, IfOk, IfSome, IsTrue, None, Ok, option_copied, option_map, string_bytes};
ghost use Rattle.edit_version.specs.Admits.{admits};
ghost use Rattle.edit_version.specs.Laws.{Admits, AdmitsNoLower, CanReach, IsNarrower, IsPlainRequirement, IsReadable, IsRelease, IsSettled, KeepsForm, holds_dash, holds_plus, text_after};
ghost use Rattle.edit_base.specs.Errors.{IsMemory};
ghost use Rattle.edit_version.specs.RequirementErrors.{IsAnswer, IsInvalidRequirement};
ghost use Rattle.edit_version.specs.Requirement.{comparators_of, cut, upgrade_of, requirement_read};
ghost use Rattle.semver.specs.Identifiers.{parts_of};
ghost use Rattle.semver.specs.Parse.{Parts, req_of, version_parts};

use crate::requirement_text::{comparator_string, first_inequality, match_caret, upgraded_text};
use edit_base::errors::{CargoResult, Error};
use semver::{Version, VersionReq};
use std::alloc::{AllocError, Global};

/// The requirement that a text is; none where it is none.
pub fn read_requirement(alloc: Global, text: &str) -> CargoResult<Option<VersionReq>>
    ensures read { IfOk result (λ o. option_map comparators_of o ≡ requirement_read text.now) }
    ensures error { IfErr result IsMemory }
{
    match VersionReq::parse(alloc, text) {
        Ok(req) => Ok(Some(req)),
        Err(error) => {
            if error == semver::Error::from(AllocError) {
                return Err(Error::Memory);
            }
            Ok(None)
        }
    }
}

/// That a text is no requirement.
fn invalid_requirement(alloc: Global, text: &str) -> Error
    requires { requirement_read text.now ≡ None }
    ensures { IsInvalidRequirement text.now result }
{
    match String::from_str(alloc, text) {
        Ok(text) => Error::InvalidRequirement { text },
        Err(error) => Error::from(error),
    }
}

/// The requirement that a text is, refused with 14 where it is none.
pub(crate) fn parse_requirement(alloc: Global, text: &str) -> CargoResult<VersionReq>
    ensures ok { IfOk result (λ r. req_of text.now ≡ Ok (comparators_of r)) }
    ensures error { IfErr result (λ e. IsInvalidRequirement text.now e) }
{
    match read_requirement(alloc, text)? {
        Some(req) => Ok(req),
        None => Err(invalid_requirement(alloc, text)),
    }
}

/// A text with what is read of it as a requirement, once.
#[derive(Debug, Drop)]
pub struct Requirement<'a> {
    text: &'a str,
    read: Option<VersionReq>,
    ghost reading: { option_map comparators_of read ≡ requirement_read text.now },
}

impl<'a> Requirement<'a> {
    ghost use Rattle.edit_version.specs.ReadRequirement.{text_in};

    /// Reads a text; it need not be a requirement.
    pub fn read(alloc: Global, text: &'a str) -> CargoResult<Requirement<'a>>
        ensures text { IfOk result (λ r. text_in r ≡ text.now) }
        ensures error { IfErr result IsMemory }
    {
        let read = read_requirement(alloc, text)?;
        Ok(Requirement { text, read })
    }

    /// The text.
    pub fn text(&self) -> &'a str
        ensures { result.now ≡ text_in self.now }
    {
        self.text
    }

    /// The requirement; none where the text is none.
    pub fn version_req(&self) -> Option<&VersionReq>
        ensures { option_map comparators_of (option_copied result) ≡ requirement_read (text_in self.now) }
    {
        self.read.as_ref()
    }

    /// The text raised to a version, as `upgrade_requirement` gives it.
    pub fn upgrade_to(&self, alloc: Global, version: &Version) -> CargoResult<Option<String>>
        ensures { IsAnswer (upgrade_of (text_in self.now) (parts_of version.now)) (text_in self.now) result }
    {
        match &self.read {
            Some(read) => upgraded_from(alloc, self.text, read, version),
            None => Err(invalid_requirement(alloc, self.text)),
        }
    }
}

/// The requirement `req`, of which `parsed` was read, raised to `version`, where that is another text.
fn upgraded_from(
    alloc: Global,
    req: &str,
    parsed: &VersionReq,
    version: &Version,
) -> CargoResult<Option<String>>
    requires { req_of req.now ≡ Ok (comparators_of parsed.now) }
    ensures { IsAnswer (upgrade_of req.now (parts_of version.now)) req.now result }
{
    if parsed.comparators.is_empty() {
        return Ok(None);
    }
    if let Some(comparator) = first_inequality(&parsed.comparators) {
        return Err(Error::Unsupported {
            comparator: comparator_string(alloc, comparator)?,
        });
    }
    let text = upgraded_text(alloc, &parsed.comparators, version)?;
    let text = match_caret(req, text.as_str());
    if text == req {
        return Ok(None);
    }
    Ok(Some(String::from_str(alloc, text)?))
}

/// The requirement `req` raised to `version`, where that is another text.
fn upgraded_requirement(alloc: Global, req: &str, version: &Version) -> CargoResult<Option<String>>
    ensures { IsAnswer (upgrade_of req.now (parts_of version.now)) req.now result }
{
    let read = Requirement::read(alloc, req)?;
    read.upgrade_to(alloc, version)
}

/// A number of 64 bits, for proofs over the numbers of a version.
fn lemma_u64(number: u64)
    ensures { number < 2 ^ 64 }
{}

/// The requirement `req` raised to `version`, none where that is the same text: each number that stands
/// in `req` becomes the version's, and each comparator but a wildcard takes its pre-release.
///
/// Refused with 14 where `req` is no requirement, and with 15 where a comparator of it is `>`, `>=`, `<`
/// or `<=`, with the first of these.
pub fn upgrade_requirement(
    alloc: Global,
    req: &str,
    version: &Version,
) -> CargoResult<Option<String>>
    ensures answer { IsAnswer (upgrade_of req.now (parts_of version.now)) req.now result }

    // The clauses below are about the requirement after the call (the new text, or `req` where the call
    // returns `None`), for a version with no pre-release or a valid one. Upgrading again changes nothing.
    ensures settled { IsReadable (parts_of version.now)
        → IfOk result (λ o. IsSettled (text_after o req.now) (parts_of version.now)) }
    // It matches the version, if that is no pre-release or `req` has comparators, all with three numbers.
    ensures reach { IsReadable (parts_of version.now)
        → IfOk result (λ o. CanReach req.now (parts_of version.now)
        → Admits (text_after o req.now) (parts_of version.now)) }
    // It matches only what `req` matches, if `req` matches the version.
    ensures narrower { IsReadable (parts_of version.now)
        → IfOk result (λ o. Admits req.now (parts_of version.now)
        → IsNarrower req.now (text_after o req.now) (parts_of version.now)) }
    // The operators stay, and a `-` stays where the version is a pre-release.
    ensures form { IsReadable (parts_of version.now)
        → IfOk result (λ o. KeepsForm req.now (text_after o req.now) (parts_of version.now)) }
    // It matches nothing lower than the version, if that is a pre-release and `req` has a `-`.
    ensures no_lower { IsReadable (parts_of version.now)
        → IfOk result (λ o. AdmitsNoLower req.now (text_after o req.now) (parts_of version.now)) }
    // It has no `-` where the version is no pre-release.
    ensures release { IsReadable (parts_of version.now)
        → IfOk result (λ o. IsRelease (text_after o req.now) (parts_of version.now)) }
    // A new text has no `+`.
    ensures no_plus { IsReadable (parts_of version.now)
        → IfOk result (λ o. IfSome o (λ s. holds_plus (string_bytes s) ≡ false)) }
{
    lemma_u64(version.major);
    lemma_u64(version.minor);
    lemma_u64(version.patch);
    upgraded_requirement(alloc, req, version)
}

/// The text before the first `+`, or all of it.
pub fn before_plus(text: &str) -> &str
    ensures { result.now ≡ cut text.now }
{
    match text.split_once('+') {
        Some((front, _)) => front,
        None => text,
    }
}

/// The text before the first `+`, or all of it: a version without its build metadata.
pub fn cut(text: &str) -> &str
    ensures value { result.now ≡ cut text.now }
    // For the text of a version: a single caret requirement, which upgrading to the version does not change.
    ensures plain { (v : Parts) → version_parts text.now ≡ Ok v → IsPlainRequirement result.now v }
{
    before_plus(text)
}

fn has_dash(text: &str) -> bool
    ensures { result ≡ holds_dash text.now }
{
    text.as_bytes().iter().any(|byte| *byte == b'-')
}

/// Whether a requirement's text has a `-`, as each has that admits a pre-release.
pub fn allows_prerelease(req: &str) -> bool
    ensures value { result ≡ holds_dash req.now }
    ensures admits { (w : Parts) → Admits req.now w → 0 < length w.3 → IsTrue result }
{
    has_dash(req)
}

/// Whether a requirement admits a version, by the documented meaning of each operator.
pub fn admits(req: &VersionReq, version: &Version) -> bool
    ensures { result ≡ admits (comparators_of req.now) (parts_of version.now) }
{
    req.matches(version)
}
