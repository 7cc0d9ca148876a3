//! The crates that an index does not have.
ghost use Rattle.std.specs.Prelude.{◌≡◌, ◌++◌, IfOk, OnOk, map, string_bytes};
ghost use Rattle.edit_metadata.specs.Reading.{holds};
ghost use Rattle.edit_upgrade.specs.Names.{HasNames};
ghost use Rattle.edit_upgrade.specs.UpdateCalls.{is_among};
ghost use Rattle.edit_program.specs.Absent as spec;

use crate::upgrade_output::name_lists::{Noun, push_list};
use edit_upgrade::{Look, Options, UpgradePlan};
use std::alloc::{AllocError, Global};
use std::collections::BTreeSet;

const ABSENT: &str = "no index entry was found";

/// Collects names into a set.
fn set_of<'a>(alloc: Global, names: &'a [String]) -> Result<BTreeSet<&'a str>, AllocError>
    ensures { IfOk result (λ s. HasNames s (map string_bytes names.now)) }
{
    let mut set = BTreeSet::new(alloc);
    'names: for name in names {
        set.insert(name.as_str())?;
    }
    Ok(set)
}

/// Whether a crate that is not excluded was not found in the index.
fn is_absent(excluded: &BTreeSet<&str>, lookup: &Look) -> bool
    ensures { result ≡ spec.is_absent (holds excluded.now) lookup.now }
{
    lookup.answer.is_none() && !excluded.contains(lookup.name.as_str())
}

/// Appends the name of a crate, where it was not found in the index and is not excluded.
fn push_absent(
    alloc: Global,
    excluded: &BTreeSet<&str>,
    lookup: &Look,
    names: &mut Vec<String>,
) -> Result<(), AllocError>
    ensures { OnOk result (map string_bytes names.new.items
        ≡ map string_bytes names.old.items ++ spec.absent_at (holds excluded.now) lookup.now) }
{
    if is_absent(excluded, lookup) {
        names.push(String::from_str(alloc, lookup.name.as_str())?)?;
    }
    Ok(())
}

/// The names of the crates that were not found in the index and are not excluded, in the order of the
/// lookups.
fn absent_names(
    alloc: Global,
    exclude: &[String],
    lookups: &[Look],
) -> Result<Vec<String>, AllocError>
    ensures { IfOk result (λ v. map string_bytes v.items
        ≡ spec.absent_names (is_among (map string_bytes exclude.now)) lookups.now) }
{
    let excluded = set_of(alloc, exclude)?;
    let mut names = Vec::new(alloc);
    for lookup in lookups {
        push_absent(alloc, &excluded, lookup, &mut names)?;
    }
    Ok(names)
}

/// Appends the note about crates that were not found in the index, if there are any. Offline nothing is
/// appended: the tool that fills the index reports the missing entries then.
pub(crate) fn push_absent_note(
    alloc: Global,
    plan: &UpgradePlan,
    options: &Options,
    offline: bool,
    text: &mut String,
) -> Result<(), AllocError>
    ensures text { OnOk result (string_bytes text.new
        ≡ string_bytes text.old ++ spec.absent_note plan.now options.now offline) }
{
    if offline {
        return Ok(());
    }
    let exclude = options.exclude.as_slice();
    let lookups = plan.looks.as_slice();
    let names = absent_names(alloc, exclude, lookups)?;
    push_list(alloc, ABSENT, Noun::Crate, names.as_slice(), text)
}
