//! The entries of a crate that a restricted index has.
ghost use Rattle.std.specs.Prelude.{◌≡◌, ◌++◌, ◌∷◌, [], IfErr, IfOk, OnOk, if◌then◌else◌, map, option_map};
ghost use Rattle.edit_base.specs.Errors.{IsMemory};
ghost use Rattle.edit_sources.specs.Index.{answer_of, entries_of, shared_in};
ghost use Rattle.edit_sources.specs.Withheld.{withheld_of};
ghost use Rattle.edit_version.specs.IndexEntry.{entry_of};
ghost use Rattle.edit_restricted_index.specs.RestrictedIndex.{restricted_answer};
ghost use Rattle.edit_restricted_index.specs.Restrictions.{passes, retained_entries};
ghost use Rattle.edit_restricted_index.specs.VersionTests.{tests_of};

use crate::version_tests::VersionTests;
use edit_base::errors::CargoResult;
use edit_sources::index::IndexKrate;
use edit_version::fetch::IndexVersion;
use std::alloc::Global;
use std::rc::Rc;

/// Adds a copy of an entry, where its version passes.
fn add_passing(
    alloc: Global,
    tests: &VersionTests<'_>,
    name: &str,
    entry: &IndexVersion,
    retained: &mut Vec<IndexVersion>,
) -> CargoResult<()>
    ensures ok { OnOk result (map entry_of retained.new.items ≡ map entry_of retained.old.items
        ++ (if passes (tests_of tests.now) name.now (entry_of entry.now).version then entry_of entry.now ∷ []
        else [])) }
    ensures error { IfErr result IsMemory }
{
    if !tests.passes(alloc, name, entry.version.as_str())? {
        return Ok(());
    }
    retained.push(entry.try_clone(alloc)?)?;
    Ok(())
}

/// Copies of the entries of a crate in the versions that pass.
fn passing_entries(
    alloc: Global,
    tests: &VersionTests<'_>,
    name: &str,
    entries: &[IndexVersion],
) -> CargoResult<Vec<IndexVersion>>
    ensures ok { IfOk result (λ v. map entry_of v.items
        ≡ retained_entries (passes (tests_of tests.now) name.now) (map entry_of entries.now)) }
    ensures error { IfErr result IsMemory }
{
    let mut retained = Vec::new(alloc);
    'entries: for entry in entries {
        add_passing(alloc, tests, name, entry, &mut retained)?;
    }
    Ok(retained)
}

/// A crate with only the entries in the versions that pass.
fn passing_krate(
    alloc: Global,
    tests: &VersionTests<'_>,
    name: &str,
    krate: &IndexKrate,
) -> CargoResult<IndexKrate>
    ensures ok { IfOk result (λ k. entries_of k
        ≡ retained_entries (passes (tests_of tests.now) name.now) (entries_of krate.now)) }
    ensures withheld { IfOk result (λ k. k.withheld ≡ krate.now.withheld) }
    ensures error { IfErr result IsMemory }
{
    let versions = passing_entries(alloc, tests, name, krate.versions.as_slice())?;
    let withheld = krate.withheld;
    Ok(IndexKrate { versions, withheld })
}

/// The answer of a lookup, with only the entries in the versions that pass.
fn passing_answer(
    alloc: Global,
    tests: &VersionTests<'_>,
    name: &str,
    answer: Option<IndexKrate>,
) -> CargoResult<Option<IndexKrate>>
    ensures ok { IfOk result (λ k. answer_of k
        ≡ option_map (retained_entries (passes (tests_of tests.now) name.now)) (answer_of answer)) }
    ensures withheld { IfOk result (λ k. withheld_of k ≡ withheld_of answer) }
    ensures error { IfErr result IsMemory }
{
    if tests.passes_all(name) {
        return Ok(answer);
    }
    match answer {
        Some(krate) => Ok(Some(passing_krate(alloc, tests, name, &krate)?)),
        None => Ok(None),
    }
}

/// The shared answer of a lookup in a restricted index, from the answer of the whole index: the same answer
/// if all versions of the crate pass.
pub(crate) fn restrict_shared(
    alloc: Global,
    tests: &VersionTests<'_>,
    name: &str,
    answer: Option<Rc<IndexKrate>>,
) -> CargoResult<Option<Rc<IndexKrate>>>
    ensures ok { IfOk result (λ k. answer_of (shared_in k)
        ≡ restricted_answer (tests_of tests.now) name.now (answer_of (shared_in answer))) }
    ensures withheld { IfOk result (λ k. withheld_of (shared_in k) ≡ withheld_of (shared_in answer)) }
    ensures error { IfErr result IsMemory }
{
    if tests.passes_all(name) {
        return Ok(answer);
    }
    match answer {
        Some(krate) => {
            let passing = passing_krate(alloc, tests, name, krate.as_ref())?;
            Ok(Some(Rc::new(alloc, passing)?))
        }
        None => Ok(None),
    }
}

/// The answer of a lookup in a restricted index, from that of the whole index.
pub(crate) fn restricted_answer(
    alloc: Global,
    tests: &VersionTests<'_>,
    name: &str,
    answer: Option<IndexKrate>,
) -> CargoResult<Option<IndexKrate>>
    ensures ok { IfOk result (λ k. answer_of k
        ≡ restricted_answer (tests_of tests.now) name.now (answer_of answer)) }
    ensures withheld { IfOk result (λ k. withheld_of k ≡ withheld_of answer) }
    ensures error { IfErr result IsMemory }
{
    passing_answer(alloc, tests, name, answer)
}
