//! The crates that rows require in more than one compatible range.
ghost use Rattle.std.specs.Prelude.{◌≡◌, ℕ, List, Some, true, if◌then◌else◌, IfErr, IfOk, OnOk, map, option_map, string_bytes};
ghost use Rattle.std.specs.BTreeSet.{contains_text};
ghost use Rattle.std.specs.Str.{bytes_eq};
ghost use Rattle.edit_base.specs.Errors.{IsMemory};
ghost use Rattle.edit_unify.specs.Apart.{AreNames, apart_names};
ghost use Rattle.edit_unify.specs.Firsts.{caret_for, first_caret, first_or, is_other, other_name};
ghost use Rattle.edit_unify.specs.Groups.{CrateAt};
ghost use Rattle.edit_unify.specs.Stands.{stand_view, stands_of};

use crate::groups::{RegistryCrate, crate_of};
use crate::ranges::{Numbers, range_of};
use crate::stands::{Stand, stands_of};
use edit_base::CargoResult;
use edit_report::Row;
use std::alloc::{AllocError, Global};
use std::collections::{BTreeMap, BTreeSet};

/// The numbers of the first row of each crate.
type FirstNumbers<'a> = BTreeMap<RegistryCrate<'a>, Numbers>;

/// Adds the numbers of a row, unless a row before it requires the crate.
fn add_first<'a>(firsts: &mut FirstNumbers<'a>, stand: &Stand<'a>) -> Result<(), AllocError>
    ensures { OnOk result ((krate : CrateAt) → caret_for firsts.new krate
        ≡ first_or krate (caret_for firsts.old krate) (Some (stand_view stand.now))) }
{
    let krate = crate_of(stand);
    if !firsts.contains_key(&krate) {
        firsts.insert(krate, stand.numbers)?;
    }
    Ok(())
}

/// The numbers of the first row of each crate.
fn first_numbers<'a>(
    alloc: Global,
    stands: &[Option<Stand<'a>>],
) -> Result<FirstNumbers<'a>, AllocError>
    ensures { IfOk result (λ firsts. (krate : CrateAt) → caret_for firsts krate
        ≡ first_caret (map (option_map stand_view) stands.now) krate) }
{
    let mut firsts = BTreeMap::new(alloc);
    'stands: for stand in stands {
        if let Some(stand) = stand {
            add_first(&mut firsts, stand)?;
        }
    }
    Ok(firsts)
}

/// Whether a row has another compatible range than the first row of its crate.
fn is_other_range<'a>(firsts: &FirstNumbers<'a>, own: &Stand<'a>) -> bool
    ensures { result ≡ is_other (caret_for firsts.now) (stand_view own.now) }
{
    match firsts.get(&crate_of(own)) {
        Some(first) => range_of(*first) != range_of(own.numbers),
        None => false,
    }
}

/// The name of a row that has another compatible range than the first row of its crate.
fn other_name<'a>(firsts: &FirstNumbers<'a>, own: Option<Stand<'a>>) -> Option<&'a str>
    ensures { option_map (λ name. name.now) result
        ≡ other_name (caret_for firsts.now) (option_map stand_view own.entry) }
{
    match own {
        Some(own) if is_other_range(firsts, &own) => Some(own.name),
        _ => None,
    }
}

/// Adds a name to a set, unless it is there.
fn add_name(alloc: Global, names: &mut BTreeSet<String>, name: &str) -> Result<(), AllocError>
    ensures ok { OnOk result ((q : List ℕ) → contains_text names.new q
        ≡ (if bytes_eq name.now q then true else contains_text names.old q)) }
{
    if !names.contains(name) {
        names.insert(String::from_str(alloc, name)?)?;
    }
    Ok(())
}

/// The names of the crates that rows require in more than one compatible range of one registry, sorted by
/// bytes, without duplicates.
pub fn apart_names(
    alloc: Global,
    rows: &[Row],
    addresses: &[Option<String>],
) -> CargoResult<Vec<String>>
    ensures names { IfOk result (λ v. AreNames
        (apart_names (stands_of (map (option_map string_bytes) addresses.now) rows.now)) v.items) }
    ensures error { IfErr result IsMemory }
{
    let stands = stands_of(alloc, rows, addresses)?;
    let firsts = first_numbers(alloc, &stands)?;
    let mut names = BTreeSet::new(alloc);
    'stands: for own in &stands {
        if let Some(name) = other_name(&firsts, *own) {
            add_name(alloc, &mut names, name)?;
        }
    }
    let names = names.into_iter().collect(alloc)?;
    Ok(names)
}
