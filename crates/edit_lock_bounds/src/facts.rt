//! What is known of the crates of a name.
ghost use Rattle.std.specs.Prelude.{◌≡◌, List, ℕ, IfErr, IfOk, map, option_map};
ghost use Rattle.std.specs.List.{filter};
ghost use Rattle.std.specs.Str.{bytes_eq};
ghost use Rattle.edit_base.specs.Errors.{IsMemory};
ghost use Rattle.semver.specs.Identifiers.{parts_of};
ghost use Rattle.edit_lock_bounds.specs.Changes.{is_text_of};
ghost use Rattle.edit_lock_bounds.specs.Choices.{known_of, met_requirements, wanted_of};
ghost use Rattle.edit_lock_bounds.specs.Corrections.{eligible, eligible_among};
ghost use Rattle.edit_lock_bounds.specs.Views.{borrowed_text, chosen_view, crate_view, items_at, known_in, limits_view, package_view, requirement_view, texts_view, wanted_view};

use crate::candidates::{ReadRequirement, met_requirements};
use crate::changes::is_same_source;
use crate::inputs::{Bounds, ChosenVersion, EligibleVersions, Requirement};
use crate::packages::Package;
use edit_base::CargoResult;
use semver::Version;
use std::alloc::{AllocError, Global};
use std::collections::BTreeMap;

/// What is known of crates, by their names.
#[derive(Drop)]
pub(crate) struct Facts<'a> {
    requirements: BTreeMap<&'a str, Vec<ReadRequirement>>,
    crates: BTreeMap<&'a str, Vec<&'a EligibleVersions>>,
    chosen: BTreeMap<&'a str, Vec<&'a str>>,
}

/// Reads requirements and groups them by the names of their crates.
fn requirements_by_name<'a>(
    alloc: Global,
    requirements: &'a [Requirement],
) -> CargoResult<BTreeMap<&'a str, Vec<ReadRequirement>>>
    ensures ok { IfOk result (λ m. (name : List ℕ) → items_at wanted_view m name
        ≡ map wanted_of (filter (λ r. bytes_eq name r.name) (map requirement_view requirements.entry.now))) }
    ensures error { IfErr result IsMemory }
{
    let mut groups: BTreeMap<&'a str, Vec<ReadRequirement>> = BTreeMap::new(alloc);
    'requirements: for requirement in requirements {
        let read = ReadRequirement::read(alloc, requirement)?;
        let group = groups.entry(requirement.name.as_str())?.or_default();
        group.push(read)?;
    }
    Ok(groups)
}

/// Groups the eligible versions of crates by the names of these.
fn crates_by_name<'a>(
    alloc: Global,
    crates: &'a [EligibleVersions],
) -> Result<BTreeMap<&'a str, Vec<&'a EligibleVersions>>, AllocError>
    ensures { IfOk result (λ m. (name : List ℕ) → items_at (λ c. crate_view c.now) m name
        ≡ filter (λ c. bytes_eq name c.name) (map crate_view crates.entry.now)) }
{
    let mut groups: BTreeMap<&'a str, Vec<&'a EligibleVersions>> = BTreeMap::new(alloc);
    'crates: for versions in crates {
        let group = groups.entry(versions.name.as_str())?.or_default();
        group.push(versions)?;
    }
    Ok(groups)
}

/// Groups chosen versions by the names of their crates.
fn chosen_by_name<'a>(
    alloc: Global,
    chosen: &'a [ChosenVersion],
) -> Result<BTreeMap<&'a str, Vec<&'a str>>, AllocError>
    ensures { IfOk result (λ m. (name : List ℕ) → items_at (λ t. t.now) m name
        ≡ map (λ c. c.version) (filter (λ c. bytes_eq name c.name) (map chosen_view chosen.entry.now))) }
{
    let mut groups: BTreeMap<&'a str, Vec<&'a str>> = BTreeMap::new(alloc);
    'chosen: for version in chosen {
        let group = groups.entry(version.name.as_str())?.or_default();
        group.push(version.version.as_str())?;
    }
    Ok(groups)
}

/// The eligible versions of the first of some crates that comes from a source.
fn eligible_among<'a>(crates: &[&'a EligibleVersions], source: Option<&str>) -> Option<&'a [String]>
    ensures { option_map (λ v. texts_view v.now) result ≡ eligible_among
        (map (λ c. crate_view c.now) crates.now) (borrowed_text source.entry) }
{
    'crates: for versions in crates {
        if is_same_source(source, Some(versions.source.as_str())) {
            return Some(versions.versions.as_slice());
        }
    }
    None
}

/// Whether a text is one of these.
pub(crate) fn is_one_of(texts: &[&str], text: &str) -> bool
    ensures { result ≡ is_text_of (map (λ t. t.now) texts.now) text.now }
{
    'texts: for other in texts {
        if *other == text {
            return true;
        }
    }
    false
}

impl<'a> Facts<'a> {
    /// Reads the requirements and groups everything by names.
    pub(crate) fn new(alloc: Global, bounds: &Bounds<'a>) -> CargoResult<Facts<'a>>
        ensures ok { IfOk result (λ f. (name : List ℕ)
            → known_in f name ≡ known_of (limits_view bounds.now) name) }
        ensures error { IfErr result IsMemory }
    {
        let requirements = requirements_by_name(alloc, bounds.requirements)?;
        let crates = crates_by_name(alloc, bounds.crates)?;
        let chosen = chosen_by_name(alloc, bounds.chosen)?;
        Ok(Facts {
            requirements,
            crates,
            chosen,
        })
    }

    /// The requirements on the crates of a package's name that the package meets by its version.
    pub(crate) fn met_by(
        &self,
        alloc: Global,
        locked: &Package,
        current: &Version,
    ) -> Result<Vec<&ReadRequirement>, AllocError>
        ensures { IfOk result (λ v. map (λ r. wanted_view r.now) v.items ≡ met_requirements
            (known_in self.now (package_view locked.now).name).requirements
            (package_view locked.now).source (parts_of current.now)) }
    {
        match self.requirements.get(locked.name.as_str()) {
            Some(requirements) => met_requirements(alloc, requirements, locked.source(), current),
            None => Ok(Vec::new(alloc)),
        }
    }

    /// The eligible versions of the crate of a package, `None` where nothing is known of it.
    pub(crate) fn eligible(&self, locked: &Package) -> Option<&'a [String]>
        ensures { option_map (λ v. texts_view v.now) result
            ≡ eligible (known_in self.now (package_view locked.now).name) (package_view locked.now) }
    {
        match self.crates.get(locked.name.as_str()) {
            Some(crates) => eligible_among(crates, locked.source()),
            None => None,
        }
    }

    /// Whether a version was chosen for the crates of a name.
    pub(crate) fn is_chosen(&self, name: &str, version: &str) -> bool
        ensures { result ≡ is_text_of (known_in self.now name.now).chosen version.now }
    {
        match self.chosen.get(name) {
            Some(chosen) => is_one_of(chosen, version),
            None => false,
        }
    }
}
