//! Rows of which only the chosen ones change.
ghost use Rattle.std.specs.Prelude.{◌≡◌, ℕ, IfErr, IfOk, List, map, option_map, string_bytes};
ghost use Rattle.std.specs.List.{filter_map};
ghost use Rattle.edit_base.specs.Errors.{IsMemory};
ghost use Rattle.edit_report.specs.NameSets.{has_name};
ghost use Rattle.edit_choice.specs.ChosenRows.{AreChosen, IsUnchanged, count_changes, has_change, missing_texts};
ghost use Rattle.edit_choice.specs.ItemLookup.{missing_by};

use crate::item_lookup::ItemLookup;
use crate::items::{RowChoice, RowItem};
use edit_base::CargoResult;
use edit_report::Row;
use std::alloc::{AllocError, Global};
use std::collections::BTreeSet;

/// The row without a change: its old requirement stays.
fn unchanged(alloc: Global, row: Row) -> Result<Row, AllocError>
    ensures { IfOk result (IsUnchanged row) }
{
    let new = match &row.old {
        Some(old) => Some(String::from_str(alloc, old.as_str())?),
        None => None,
    };
    Ok(Row {
        new,
        change: None,
        ..row
    })
}

/// The rows of which only the chosen ones change; those that change are numbered from 1, in order.
pub fn chosen_rows(alloc: Global, choice: &RowChoice<'_>, rows: Vec<Row>) -> CargoResult<Vec<Row>>
    ensures rows { IfOk result (λ v. AreChosen choice.now rows.items v.items) }
    ensures error { IfErr result IsMemory }
{
    let items = match choice {
        RowChoice::All => return Ok(rows),
        RowChoice::Items(items) => items.as_slice(),
    };
    let lookup = ItemLookup::new(alloc, items)?;
    let mut chosen = Vec::new(alloc);
    let mut number: u64 = 0;
    let mut reach = lookup.reach(0, 0);
    'rows: for row in rows {
        if row.change.is_none() {
            chosen.push(row)?;
        } else {
            number = number.saturating_add(1);
            reach = lookup.reach(reach, number);
            if lookup.is_chosen(number, reach, row.name.as_str()) {
                chosen.push(row)?;
            } else {
                chosen.push(unchanged(alloc, row)?)?;
            }
        }
    }
    Ok(chosen)
}

/// How many rows change.
fn count_changes(rows: &[Row]) -> u64
    ensures { result ≡ count_changes rows.now }
{
    let mut count: u64 = 0;
    'rows: for row in rows {
        if row.change.is_some() {
            count = count.saturating_add(1);
        }
    }
    count
}

/// The names of the crates of which a row changes.
fn changed_names<'a>(alloc: Global, rows: &'a [Row]) -> Result<BTreeSet<&'a str>, AllocError>
    ensures { IfOk result (λ s. (name : List ℕ) → has_name s name ≡ has_change name rows.now) }
{
    let mut names = BTreeSet::new(alloc);
    'rows: for row in rows {
        if row.change.is_some() {
            names.insert(row.name.as_str())?;
        }
    }
    Ok(names)
}

/// The text of an item that chooses a row which is not there, by how many rows change and the names of these;
/// `None` if each row is there.
fn missing_text(
    alloc: Global,
    item: RowItem<'_>,
    count: u64,
    names: &BTreeSet<&str>,
) -> Result<Option<String>, AllocError>
    ensures { IfOk result (λ o. option_map string_bytes o
        ≡ missing_by count (has_name names.now) item.entry) }
{
    match item {
        RowItem::Numbers(_, last) => {
            if last <= count {
                return Ok(None);
            }
            Ok(Some(format!(in alloc; "{last}")?))
        }
        RowItem::Name(name) => {
            if names.contains(name) {
                return Ok(None);
            }
            Ok(Some(String::from_str(alloc, name)?))
        }
    }
}

/// The texts of the items that choose a row which is not there, by how many rows change and the names of
/// these.
fn missing_texts(
    alloc: Global,
    items: &[RowItem<'_>],
    count: u64,
    names: &BTreeSet<&str>,
) -> Result<Vec<String>, AllocError>
    ensures { IfOk result (λ v. map string_bytes v.items
        ≡ filter_map (missing_by count (has_name names.now)) items.now) }
{
    let mut missing = Vec::new(alloc);
    'items: for item in items {
        if let Some(text) = missing_text(alloc, *item, count, names)? {
            missing.push(text)?;
        }
    }
    Ok(missing)
}

/// The texts of the items that choose a row which is not there, in order: numbers beyond those of the rows
/// that change, and names of which no row changes.
pub fn missing_items(
    alloc: Global,
    choice: &RowChoice<'_>,
    rows: &[Row],
) -> CargoResult<Vec<String>>
    ensures texts { IfOk result (λ v. map string_bytes v.items ≡ missing_texts choice.now rows.now) }
    ensures error { IfErr result IsMemory }
{
    let items = match choice {
        RowChoice::All => return Ok(Vec::new(alloc)),
        RowChoice::Items(items) => items.as_slice(),
    };
    let count = count_changes(rows);
    let names = changed_names(alloc, rows)?;
    let missing = missing_texts(alloc, items, count, &names)?;
    Ok(missing)
}
