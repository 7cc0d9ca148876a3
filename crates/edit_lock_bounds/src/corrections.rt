//! Which packages of a lock file are set back, and to what.
ghost use Rattle.std.specs.Prelude.{◌≡◌, ◌++◌, ◌∷◌, [], All, IfErr, IfOk, OnOk, map, option_copied, option_map};
ghost use Rattle.std.specs.List.{filter_map, list_any};
ghost use Rattle.edit_base.specs.Errors.{IsMemory};
ghost use Rattle.edit_lock_bounds.specs.Changes.{is_text_of};
ghost use Rattle.edit_lock_bounds.specs.Choices.{candidates, known_of};
ghost use Rattle.edit_lock_bounds.specs.Corrections as said;
ghost use Rattle.edit_lock_bounds.specs.Corrections.{eligible, may_stay, outcome};
ghost use Rattle.edit_lock_bounds.specs.CorrectionLaws.{IsOfChange, IsRight};
ghost use Rattle.edit_lock_bounds.specs.CorrectionViews.{correction_view, corrections_view, outcome_view};
ghost use Rattle.edit_lock_bounds.specs.Views.{borrowed_package, candidate_view, change_view, known_in, limits_view, package_view, texts_view};

use crate::candidates::{Candidate, candidates_for};
use crate::changes::{LockChange, changed_packages};
use crate::facts::Facts;
use crate::greatest::best;
use crate::inputs::Bounds;
use crate::packages::Package;
use edit_base::CargoResult;
use std::alloc::{AllocError, Global};

/// What becomes of a package that may not stay at its version.
#[derive(Debug, Drop)]
pub enum Outcome {
    /// It is set back to this version.
    SetBack(String),
    /// No eligible version is admitted.
    NoneFits,
    /// Nothing is known of its crate.
    Unknown,
}

/// A package that may not stay at its version, and what becomes of it.
#[derive(Debug, Drop)]
pub struct Correction {
    pub package: Package,
    pub outcome: Outcome,
}

/// Whether one of the candidates was chosen.
fn has_chosen(candidates: &[Candidate<'_>]) -> bool
    ensures { result ≡ list_any (λ c. c.is_chosen) (map candidate_view candidates.now) }
{
    'candidates: for candidate in candidates {
        if candidate.is_chosen {
            return true;
        }
    }
    false
}

/// Whether a text is one of these.
fn contains(texts: &[String], text: &str) -> bool
    ensures { result ≡ is_text_of (texts_view texts.now) text.now }
{
    'texts: for other in texts {
        if other.as_str() == text {
            return true;
        }
    }
    false
}

/// Whether a package may stay at its version.
fn may_stay(
    facts: &Facts<'_>,
    locked: &Package,
    versions: &[String],
    candidates: &[Candidate<'_>],
) -> bool
    ensures { result ≡ may_stay (known_in facts.now (package_view locked.now).name) (package_view locked.now) (texts_view versions.now)
        (map candidate_view candidates.now) }
{
    let version = locked.version.as_str();
    contains(versions, version)
        && (facts.is_chosen(locked.name.as_str(), version) || !has_chosen(candidates))
}

/// The outcome for the best candidate.
fn outcome_of(alloc: Global, candidate: Option<&Candidate<'_>>) -> Result<Outcome, AllocError>
    ensures { IfOk result (λ o. outcome_view o
        ≡ said.outcome_of (option_map (λ c. candidate_view c.now) candidate.entry)) }
{
    match candidate {
        Some(candidate) => Ok(Outcome::SetBack(String::from_str(alloc, candidate.text.as_str())?)),
        None => Ok(Outcome::NoneFits),
    }
}

/// What becomes of a package, by the eligible versions of its crate.
fn outcome_among(
    alloc: Global,
    facts: &Facts<'_>,
    locked: &Package,
    versions: &[String],
) -> CargoResult<Option<Outcome>>
    ensures ok { IfOk result (λ o. option_map outcome_view o ≡ said.outcome_unless
        (may_stay (known_in facts.now (package_view locked.now).name) (package_view locked.now) (texts_view versions.now)
        (candidates (known_in facts.now (package_view locked.now).name) (package_view locked.now) (texts_view versions.now)))
        (candidates (known_in facts.now (package_view locked.now).name) (package_view locked.now) (texts_view versions.now))) }
    ensures error { IfErr result IsMemory }
{
    let candidates = candidates_for(alloc, facts, locked, versions)?;
    if may_stay(facts, locked, versions, &candidates) {
        return Ok(None);
    }
    let outcome = outcome_of(alloc, best(&candidates))?;
    Ok(Some(outcome))
}

/// What becomes of a package, `None` where it stays.
fn outcome_for(alloc: Global, facts: &Facts<'_>, locked: &Package) -> CargoResult<Option<Outcome>>
    ensures ok { IfOk result (λ o. option_map outcome_view o
        ≡ outcome (known_in facts.now (package_view locked.now).name) (package_view locked.now)) }
    ensures error { IfErr result IsMemory }
{
    match facts.eligible(locked) {
        Some(versions) => outcome_among(alloc, facts, locked, versions),
        None => Ok(Some(Outcome::Unknown)),
    }
}

/// Adds the correction of a package, where it does not stay.
fn add_correction(
    alloc: Global,
    facts: &Facts<'_>,
    locked: &Package,
    corrections: &mut Vec<Correction>,
) -> CargoResult<()>
    ensures ok { OnOk result (corrections_view corrections.new.items ≡ corrections_view corrections.old.items
        ++ filter_map (λ p. said.correction_by (known_in facts.now p.name) p) (package_view locked.now ∷ [])) }
    ensures error { IfErr result IsMemory }
{
    let Some(outcome) = outcome_for(alloc, facts, locked)? else {
        return Ok(());
    };
    let package = locked.try_clone(alloc)?;
    corrections.push(Correction { package, outcome })?;
    Ok(())
}

/// The corrections of packages.
fn corrections_for(
    alloc: Global,
    facts: &Facts<'_>,
    packages: &[&Package],
) -> CargoResult<Vec<Correction>>
    ensures ok { IfOk result (λ v. corrections_view v.items ≡ filter_map
        (λ p. said.correction_by (known_in facts.now p.name) p) (map borrowed_package packages.now)) }
    ensures error { IfErr result IsMemory }
{
    let mut corrections = Vec::new(alloc);
    'packages: for locked in packages {
        add_correction(alloc, facts, locked, &mut corrections)?;
    }
    Ok(corrections)
}

/// The corrections of the changed packages.
fn corrections_in(
    alloc: Global,
    change: &LockChange<'_>,
    bounds: &Bounds<'_>,
) -> CargoResult<Vec<Correction>>
    ensures ok { IfOk result (λ v. corrections_view v.items
        ≡ said.corrections (change_view change.now) (limits_view bounds.now)) }
    ensures error { IfErr result IsMemory }
{
    let changed = changed_packages(alloc, change)?;
    let facts = Facts::new(alloc, bounds)?;
    corrections_for(alloc, &facts, &changed)
}

/// The packages of a lock file that a run may not leave at the versions that it locked, and what becomes of
/// each, in the order of the lock file.
///
/// Those are, of the packages from a registry that the lock file did not have before and whose names are not
/// exempt: each whose version is not eligible, and each at a version that was not chosen, where one was
/// chosen for its name that is eligible and admitted. A version is admitted where each requirement on the
/// crate that admits the present version admits it too; two versions of a crate may be locked beside each
/// other, and the requirements on the other one do not count. Such a package is set back to the greatest of
/// the chosen versions that are eligible and admitted, else to the greatest version that is.
///
/// A text that is no version is never a candidate, and a package whose present version is none is never set
/// back. An error is returned only where memory runs out.
pub fn corrections_of(
    alloc: Global,
    change: &LockChange<'_>,
    bounds: &Bounds<'_>,
) -> CargoResult<Vec<Correction>>
    ensures corrections { IfOk result (λ v. corrections_view v.items
        ≡ said.corrections (change_view change.now) (limits_view bounds.now)) }
    // nothing that the lock file had before, that comes from elsewhere or that is exempt
    ensures change { IfOk result (λ v. All (IsOfChange (change_view change.now)) (corrections_view v.items)) }
    // each version is eligible, admitted and the best, and only where there is none does none fit
    ensures right { IfOk result (λ v. All (IsRight (limits_view bounds.now)) (corrections_view v.items)) }
    ensures error { IfErr result IsMemory }
{
    corrections_in(alloc, change, bounds)
}
