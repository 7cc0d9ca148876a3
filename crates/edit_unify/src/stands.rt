//! The rows that take part: each stands for a crate at a registry, with a requirement of a compatible range.
ghost use Rattle.std.specs.Prelude.{◌≡◌, IfErr, IfOk, map, option_map, string_bytes};
ghost use Rattle.edit_base.specs.Errors.{IsMemory};
ghost use Rattle.edit_unify.specs.Stands.{is_left_out, stand_of, stand_view, stands_of};

use crate::ranges::{Numbers, caret_of};
use edit_base::CargoResult;
use edit_report::{Reason, Row};
use std::alloc::Global;

/// What a row requires: a crate, the address of its registry, and the numbers of its caret requirement.
#[derive(Clone, Copy)]
pub(crate) struct Stand<'a> {
    pub(crate) address: &'a str,
    pub(crate) name: &'a str,
    pub(crate) numbers: Numbers,
    pub(crate) text: &'a str,
}

/// Whether the options leave the crate of a row out.
fn is_left_out(row: &Row) -> bool
    ensures { result ≡ is_left_out row.now.reason }
{
    matches!(row.reason, Some(Reason::Excluded))
}

/// What a row requires after the plan, from the address of its registry; `None` where it takes no part: it
/// has no registry or no requirement, is left out, or its requirement is not one caret comparator without a
/// pre-release.
pub(crate) fn stand_of<'a>(
    alloc: Global,
    row: &'a Row,
    address: Option<&'a str>,
) -> CargoResult<Option<Stand<'a>>>
    ensures stand { IfOk result (λ o. option_map stand_view o
        ≡ stand_of (option_map (λ s. s.now) address.entry) row.entry.now) }
    ensures error { IfErr result IsMemory }
{
    let (Some(address), Some(text)) = (address, row.new.as_deref()) else {
        return Ok(None);
    };
    if is_left_out(row) {
        return Ok(None);
    }
    let Some(numbers) = caret_of(alloc, text)? else {
        return Ok(None);
    };
    Ok(Some(Stand {
        address,
        name: row.name.as_str(),
        numbers,
        text,
    }))
}

/// What each row requires, from the addresses of their registries.
pub(crate) fn stands_of<'a>(
    alloc: Global,
    rows: &'a [Row],
    addresses: &'a [Option<String>],
) -> CargoResult<Vec<Option<Stand<'a>>>>
    ensures stands { IfOk result (λ v. map (option_map stand_view) v.items
        ≡ stands_of (map (option_map string_bytes) addresses.now) rows.now) }
    ensures error { IfErr result IsMemory }
{
    let mut stands = Vec::new(alloc);
    'rows: for (row, address) in rows.iter().zip(addresses.iter()) {
        let stand = stand_of(alloc, row, address.as_deref())?;
        stands.push(stand)?;
    }
    Ok(stands)
}
