//! The versions that may take the place of a package's.
ghost use Rattle.std.specs.Prelude.{◌≡◌, ◌&&◌, ◌++◌, ◌∷◌, [], IfErr, IfOk, OnOk, if◌then◌else◌, map, option_map, string_bytes};
ghost use Rattle.std.specs.List.{filter_map};
ghost use Rattle.edit_base.specs.Errors.{IsMemory};
ghost use Rattle.semver.specs.Identifiers.{parts_of};
ghost use Rattle.edit_lock_bounds.specs.Choices.{are_met, candidate_of, candidates, candidates_for, fits_source, is_met, met_requirements, wanted_of};
ghost use Rattle.edit_lock_bounds.specs.Views.{borrowed_text, candidate_view, known_in, package_view, requirement_view, texts_view, wanted_view};

use crate::changes::is_same_source;
use crate::facts::Facts;
use crate::inputs::Requirement;
use crate::packages::{Package, copy_of};
use edit_base::CargoResult;
use edit_version::{admits, read_requirement, read_version};
use semver::{Version, VersionReq};
use std::alloc::{AllocError, Global};

/// What is read of a requirement.
#[derive(Drop)]
pub(crate) struct ReadRequirement {
    source: Option<String>,
    /// `None` where the text is no requirement.
    req: Option<VersionReq>,
}

impl ReadRequirement {
    /// Reads a requirement.
    pub(crate) fn read(alloc: Global, requirement: &Requirement) -> CargoResult<ReadRequirement>
        ensures ok { IfOk result (λ r. wanted_view r ≡ wanted_of (requirement_view requirement.now)) }
        ensures error { IfErr result IsMemory }
    {
        let req = read_requirement(alloc, requirement.req.as_str())?;
        let source = copy_of(alloc, &requirement.source)?;
        Ok(ReadRequirement { source, req })
    }

    /// Whether a package from a source may meet the requirement.
    fn fits_source(&self, source: Option<&str>) -> bool
        ensures { result ≡ fits_source (wanted_view self.now).source (borrowed_text source.entry) }
    {
        match &self.source {
            Some(wanted) => is_same_source(Some(wanted.as_str()), source),
            None => true,
        }
    }

    /// Whether the requirement admits a version.
    fn is_met(&self, version: &Version) -> bool
        ensures { result ≡ is_met (wanted_view self.now) (parts_of version.now) }
    {
        match &self.req {
            Some(req) => admits(req, version),
            None => false,
        }
    }

    /// Whether a package from a source meets the requirement by its version.
    fn is_met_by(&self, source: Option<&str>, current: &Version) -> bool
        ensures { result ≡ (fits_source (wanted_view self.now).source (borrowed_text source.entry)
            && is_met (wanted_view self.now) (parts_of current.now)) }
    {
        self.fits_source(source) && self.is_met(current)
    }
}

/// The requirements that a package from a source meets by its version.
pub(crate) fn met_requirements<'r>(
    alloc: Global,
    requirements: &'r [ReadRequirement],
    source: Option<&str>,
    current: &Version,
) -> Result<Vec<&'r ReadRequirement>, AllocError>
    ensures { IfOk result (λ v. map (λ r. wanted_view r.now) v.items ≡ met_requirements
        (map wanted_view requirements.entry.now) (borrowed_text source.entry) (parts_of current.now)) }
{
    let mut met = Vec::new(alloc);
    'requirements: for requirement in requirements {
        if requirement.is_met_by(source, current) {
            met.push(requirement)?;
        }
    }
    Ok(met)
}

/// Whether each of some requirements admits a version.
fn are_met(requirements: &[&ReadRequirement], version: &Version) -> bool
    ensures { result ≡ are_met (map (λ r. wanted_view r.now) requirements.now) (parts_of version.now) }
{
    'requirements: for requirement in requirements {
        if !requirement.is_met(version) {
            return false;
        }
    }
    true
}

/// A version that may take the place of a package's.
#[derive(Drop)]
pub(crate) struct Candidate<'a> {
    pub(crate) text: &'a String,
    pub(crate) version: Version,
    /// Whether it was chosen for the requirements on the crate.
    pub(crate) is_chosen: bool,
}

/// The candidate that a text is: a version that each of the requirements admits.
fn candidate_of<'a>(
    alloc: Global,
    facts: &Facts<'_>,
    name: &str,
    requirements: &[&ReadRequirement],
    text: &'a String,
) -> CargoResult<Option<Candidate<'a>>>
    ensures ok { IfOk result (λ o. option_map candidate_view o ≡ candidate_of
        (map (λ r. wanted_view r.now) requirements.now) (known_in facts.now name.now).chosen
        (string_bytes text.entry.now)) }
    ensures error { IfErr result IsMemory }
{
    let Some(version) = read_version(alloc, text.as_str())? else {
        return Ok(None);
    };
    if !are_met(requirements, &version) {
        return Ok(None);
    }
    let is_chosen = facts.is_chosen(name, text.as_str());
    Ok(Some(Candidate {
        text,
        version,
        is_chosen,
    }))
}

/// Adds the candidate that a text is, where it is one.
fn add_candidate<'a>(
    alloc: Global,
    facts: &Facts<'_>,
    name: &str,
    requirements: &[&ReadRequirement],
    text: &'a String,
    candidates: &mut Vec<Candidate<'a>>,
) -> CargoResult<()>
    ensures ok { OnOk result (map candidate_view candidates.new.items ≡ map candidate_view candidates.old.items
        ++ filter_map (candidate_of (map (λ r. wanted_view r.now) requirements.now)
        (known_in facts.now name.now).chosen) (string_bytes text.entry.now ∷ [])) }
    ensures error { IfErr result IsMemory }
{
    if let Some(candidate) = candidate_of(alloc, facts, name, requirements, text)? {
        candidates.push(candidate)?;
    }
    Ok(())
}

/// The candidates among texts.
fn candidates_among<'a>(
    alloc: Global,
    facts: &Facts<'_>,
    name: &str,
    requirements: &[&ReadRequirement],
    texts: &'a [String],
) -> CargoResult<Vec<Candidate<'a>>>
    ensures ok { IfOk result (λ v. map candidate_view v.items ≡ filter_map (candidate_of
        (map (λ r. wanted_view r.now) requirements.now) (known_in facts.now name.now).chosen)
        (texts_view texts.entry.now)) }
    ensures error { IfErr result IsMemory }
{
    let mut candidates = Vec::new(alloc);
    'texts: for text in texts {
        add_candidate(alloc, facts, name, requirements, text, &mut candidates)?;
    }
    Ok(candidates)
}

/// The candidates among texts for a package at a version.
fn candidates_at<'a>(
    alloc: Global,
    facts: &Facts<'_>,
    locked: &Package,
    current: &Version,
    texts: &'a [String],
) -> CargoResult<Vec<Candidate<'a>>>
    ensures ok { IfOk result (λ v. map candidate_view v.items ≡ candidates_for
        (known_in facts.now (package_view locked.now).name) (package_view locked.now).source
        (parts_of current.now) (texts_view texts.entry.now)) }
    ensures error { IfErr result IsMemory }
{
    let met = facts.met_by(alloc, locked, current)?;
    candidates_among(alloc, facts, locked.name.as_str(), &met, texts)
}

/// The candidates among texts for a package.
pub(crate) fn candidates_for<'a>(
    alloc: Global,
    facts: &Facts<'_>,
    locked: &Package,
    texts: &'a [String],
) -> CargoResult<Vec<Candidate<'a>>>
    ensures ok { IfOk result (λ v. map candidate_view v.items ≡ candidates
        (known_in facts.now (package_view locked.now).name) (package_view locked.now)
        (texts_view texts.entry.now)) }
    ensures error { IfErr result IsMemory }
{
    match read_version(alloc, locked.version.as_str())? {
        Some(current) => candidates_at(alloc, facts, locked, &current, texts),
        None => Ok(Vec::new(alloc)),
    }
}
