//! The lookups of a plan.
ghost use Rattle.std.specs.Prelude.{◌≡◌, ◌⊎◌, ◌&&◌, if◌then◌else◌, ℕ, List, Some, None, Ok, true, false, IfErr, IfOk, IfSome, IsSome, OnOk, string_bytes};
ghost use Rattle.std.specs.Str.{bytes_eq};
ghost use Rattle.edit_base.specs.Errors.{IsMemory};
ghost use Rattle.edit_sources.specs.Index.{answer_of};
ghost use Rattle.edit_sources.specs.Withheld.{withheld_of};
ghost use Rattle.edit_cache.specs.IndexCache.{index_of, krate_at};
ghost use Rattle.url.specs.Parts.{serialize};
ghost use Rattle.edit_upgrade.specs.LookupSteps.{IsAt, IsLookupMade, IsLookupError, IsStep, Leaves};
ghost use Rattle.edit_upgrade.specs.Lookups.{answer_in, cached_by};
ghost use Rattle.edit_upgrade.specs.PairSets.{holds_pair};

use crate::names::{Names, add_name};
use crate::upgrade::Look;
use edit_base::CargoResult;
use edit_cache::cache::IndexCache;
use edit_sources::index::Index;
use std::alloc::{AllocError, Global};
use std::collections::BTreeMap;
use url::Url;

/// Pairs of a registry's address and a crate's name, without duplicates.
pub(crate) type PairSet = BTreeMap<String, Names>;

/// Queries the index for a crate, unless the answer is cached.
fn fetch_one<I: Index>(
    alloc: Global,
    registry: &Url,
    name: &str,
    index: &mut IndexCache<I>,
) -> CargoResult<()>
    ensures preserved { OnOk result (IsSome (cached_by index.new (serialize registry.now) name.now)) }
    ensures given { OnOk result (IfSome (cached_by index.new (serialize registry.now) name.now)
        (λ a. (cached_by index.old (serialize registry.now) name.now ≡ Some a)
        ⊎ (I.view (index_of index.old)).gives registry.now name.now (Ok a))) }
    ensures others { (a n : List ℕ) → (bytes_eq (serialize registry.now) a && bytes_eq name.now n) ≡ false
        → cached_by index.new a n ≡ cached_by index.old a n }
    ensures left { Leaves (IsAt (serialize registry.now) name.now)
        (I.view (index_of index.old)).gives (I.view (index_of index.new)).gives
        (I.view (index_of index.old)).faults (I.view (index_of index.new)).faults
        (cached_by index.old) (cached_by index.new) }
    ensures error { IfErr result
        (λ e. IsMemory e ⊎ ((cached_by index.old (serialize registry.now) name.now ≡ None)
        × IsLookupError (I.view (index_of index.old)).gives registry.now name.now
        (I.view (index_of index.old)).faults (I.view (index_of index.new)).faults e)) }
{
    index.fetch(alloc, registry, name)
}

/// The record of a lookup, which shares the cached answer.
fn record_lookup<I: Index>(
    alloc: Global,
    registry: &Url,
    name: &str,
    index: &IndexCache<I>,
) -> CargoResult<Look>
    requires { IsSome (cached_by index.now (serialize registry.now) name.now) }
    ensures at { IfOk result (λ l. serialize l.registry ≡ serialize registry.now) }
    ensures same { IfOk result (λ l. l.registry ≡ registry.now) }
    ensures name { IfOk result (λ l. string_bytes l.name ≡ name.now) }
    ensures preserved { IfOk result
        (λ l. cached_by index.now (serialize registry.now) name.now ≡ Some (answer_of (answer_in l))) }
    ensures withheld { IfOk result (λ l. withheld_of (answer_in l)
        ≡ withheld_of (krate_at index.now (serialize registry.now) name.now)) }
    ensures error { IfErr result IsMemory }
{
    let answer = index.shared_krate(registry, name)?;
    Ok(Look {
        registry: registry.clone()?,
        name: String::from_str(alloc, name)?,
        answer,
    })
}

/// Looks up a crate at a registry, and returns the record of the lookup.
fn perform_lookup<I: Index>(
    alloc: Global,
    registry: &Url,
    name: &str,
    index: &mut IndexCache<I>,
) -> CargoResult<Look>
    ensures lookup { IfOk result (IsLookupMade (serialize registry.now) name.now
        (I.view (index_of index.old)).gives
        (cached_by index.old) (cached_by index.new)) }
    ensures left { Leaves (IsAt (serialize registry.now) name.now)
        (I.view (index_of index.old)).gives (I.view (index_of index.new)).gives
        (I.view (index_of index.old)).faults (I.view (index_of index.new)).faults
        (cached_by index.old) (cached_by index.new) }
    ensures error { IfErr result
        (λ e. IsMemory e ⊎ ((cached_by index.old (serialize registry.now) name.now ≡ None)
        × IsLookupError (I.view (index_of index.old)).gives registry.now name.now
        (I.view (index_of index.old)).faults (I.view (index_of index.new)).faults e)) }
{
    fetch_one(alloc, registry, name, index)?;
    record_lookup(alloc, registry, name, index)
}

/// Inserts a pair of address and name, and returns whether the pair was present before.
fn add_pair(
    alloc: Global,
    pairs: &mut PairSet,
    address: &str,
    name: &str,
) -> Result<bool, AllocError>
    ensures had { IfOk result (λ b. b ≡ holds_pair pairs.old address.now name.now) }
    ensures ok { OnOk result ((a n : List ℕ) → holds_pair pairs.new a n
        ≡ (if bytes_eq address.now a && bytes_eq name.now n then true else holds_pair pairs.old a n)) }
{
    if let Some(names) = pairs.get_mut(address) {
        let had = add_name(alloc, names, name)?;
        return Ok(had);
    }
    let address = String::from_str(alloc, address)?;
    let mut names = Names::new(alloc);
    add_name(alloc, &mut names, name)?;
    pairs.insert(address, names)?;
    Ok(false)
}

/// Looks up a crate at a registry and records the lookup, unless this plan has done so before.
pub(crate) fn lookup_once<I: Index>(
    alloc: Global,
    registry: &Url,
    name: &str,
    pairs: &mut PairSet,
    lookups: &mut Vec<Look>,
    index: &mut IndexCache<I>,
) -> CargoResult<()>
    ensures step { OnOk result (IsStep (serialize registry.now) name.now (I.view (index_of index.old)).gives
        (cached_by index.old) (cached_by index.new) lookups.old.items lookups.new.items
        (holds_pair pairs.old) (holds_pair pairs.new)) }
    ensures left { Leaves (IsAt (serialize registry.now) name.now)
        (I.view (index_of index.old)).gives (I.view (index_of index.new)).gives
        (I.view (index_of index.old)).faults (I.view (index_of index.new)).faults
        (cached_by index.old) (cached_by index.new) }
    ensures error { IfErr result
        (λ e. IsMemory e ⊎ ((cached_by index.old (serialize registry.now) name.now ≡ None)
        × IsLookupError (I.view (index_of index.old)).gives registry.now name.now
        (I.view (index_of index.old)).faults (I.view (index_of index.new)).faults e)) }
{
    let had = add_pair(alloc, pairs, registry.as_str(), name)?;
    if had {
        return Ok(());
    }
    let lookup = perform_lookup(alloc, registry, name, index)?;
    lookups.push(lookup)?;
    Ok(())
}
