//! The items of a choice, arranged for lookups.
ghost use Rattle.std.specs.Prelude.{◌≡◌, ◌||◌, ℕ, IfOk, OnOk, nat_le};
ghost use Rattle.edit_report.specs.NameSets.{has_name};
ghost use Rattle.edit_choice.specs.ItemLookup.{AreEnds, AreNames, IsLookupOf, begins_at, end_at};
ghost use Rattle.edit_choice.specs.declared.items.RowItem.TheVariants as item;

use crate::items::RowItem;
use std::alloc::{AllocError, Global};
use std::collections::{BTreeMap, BTreeSet};

/// The items of a choice, arranged for lookups.
#[derive(Drop)]
pub(crate) struct ItemLookup<'a> {
    /// The greatest last number of the ranges that begin at each number.
    ends: BTreeMap<u64, u64>,
    names: BTreeSet<&'a str>,
}

/// The last number of the ranges that begin at a number; 0 if there are none.
fn end_at(ends: &BTreeMap<u64, u64>, first: u64) -> u64
    ensures { result ≡ end_at ends.now first }
{
    ends.get(&first).copied().unwrap_or(0)
}

/// Adds a range, unless one that begins at the same number ends at the same number or later.
fn add_range(ends: &mut BTreeMap<u64, u64>, first: u64, last: u64) -> Result<(), AllocError>
    ensures { OnOk result ((number end : ℕ) → nat_le end (end_at ends.new number)
        ≡ (nat_le end (end_at ends.old number) || begins_at number end (item.Numbers first last))) }
{
    if end_at(ends, first) < last {
        ends.insert(first, last)?;
    }
    Ok(())
}

/// The greatest last number of the ranges that begin at each number.
fn ends_of(alloc: Global, items: &[RowItem<'_>]) -> Result<BTreeMap<u64, u64>, AllocError>
    ensures { IfOk result (AreEnds items.now) }
{
    let mut ends = BTreeMap::new(alloc);
    'items: for item in items {
        if let RowItem::Numbers(first, last) = item {
            add_range(&mut ends, *first, *last)?;
        }
    }
    Ok(ends)
}

/// The names among items.
fn names_of<'a>(alloc: Global, items: &[RowItem<'a>]) -> Result<BTreeSet<&'a str>, AllocError>
    ensures { IfOk result (AreNames items.now) }
{
    let mut names = BTreeSet::new(alloc);
    'items: for item in items {
        if let RowItem::Name(name) = item {
            names.insert(*name)?;
        }
    }
    Ok(names)
}

impl<'a> ItemLookup<'a> {
    /// Arranges items for lookups.
    pub(crate) fn new(alloc: Global, items: &[RowItem<'a>]) -> Result<ItemLookup<'a>, AllocError>
        ensures { IfOk result (IsLookupOf items.now) }
    {
        let ends = ends_of(alloc, items)?;
        let names = names_of(alloc, items)?;
        Ok(ItemLookup { ends, names })
    }

    /// The greater of a number and the last number of the ranges that begin at another one.
    pub(crate) fn reach(&self, before: u64, number: u64) -> u64
        ensures { (end : ℕ) → nat_le end result
            ≡ (nat_le end before || nat_le end (end_at self.now.ends number)) }
    {
        let end = end_at(&self.ends, number);
        if before < end { end } else { before }
    }

    /// Whether an item chooses the row with this number and name, where `reach` is the greatest last number
    /// of the ranges that begin at this number or before.
    pub(crate) fn is_chosen(&self, number: u64, reach: u64, name: &str) -> bool
        ensures { result ≡ (nat_le number reach || has_name self.now.names name.now) }
    {
        number <= reach || self.names.contains(name)
    }
}
