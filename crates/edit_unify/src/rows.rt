//! Rows with one requirement for each crate and range.
ghost use Rattle.std.specs.Prelude.{◌≡◌, IfErr, IfOk, length, map, option_map, string_bytes};
ghost use Rattle.edit_base.specs.Errors.{IsMemory};
ghost use Rattle.edit_version.specs.Levels.{level_of};
ghost use Rattle.edit_unify.specs.Groups.{text_from};
ghost use Rattle.edit_unify.specs.Stands.{stand_view, stands_of};
ghost use Rattle.edit_unify.specs.Unified.{AreUnified, HasOneText, IsWithText, taken_texts};

use crate::leaders::{Leaders, leader, leaders_of};
use crate::stands::{Stand, stands_of};
use edit_base::CargoResult;
use edit_report::{Change, Row};
use edit_version::Levels;
use std::alloc::{AllocError, Global};

/// The text that a row takes from another one; `None` where it keeps its own.
fn taken_text<'a>(
    alloc: Global,
    levels: Levels<'_>,
    own: Option<Stand<'a>>,
    leaders: &Leaders<'a>,
) -> Result<Option<String>, AllocError>
    ensures { IfOk result (λ o. option_map string_bytes o
        ≡ text_from (level_of levels.entry) leaders.now (option_map stand_view own.entry)) }
{
    let Some(own) = own else {
        return Ok(None);
    };
    match leader(levels, leaders, &own) {
        Some(leader) => {
            if leader.text == own.text {
                return Ok(None);
            }
            Ok(Some(String::from_str(alloc, leader.text)?))
        }
        None => Ok(None),
    }
}

/// The text that each row takes from another one.
fn taken_texts(
    alloc: Global,
    levels: Levels<'_>,
    rows: &[Row],
    addresses: &[Option<String>],
) -> CargoResult<Vec<Option<String>>>
    ensures texts { IfOk result (λ v. map (option_map string_bytes) v.items
        ≡ taken_texts (level_of levels.entry)
        (stands_of (map (option_map string_bytes) addresses.now) rows.now)) }
    ensures error { IfErr result IsMemory }
{
    let stands = stands_of(alloc, rows, addresses)?;
    let leaders = leaders_of(alloc, levels, &stands)?;
    let mut texts = Vec::new(alloc);
    'stands: for own in &stands {
        let text = taken_text(alloc, levels, *own, &leaders)?;
        texts.push(text)?;
    }
    Ok(texts)
}

/// The row with this new requirement; it has no change where that is the old one.
fn with_text(row: Row, text: String) -> Row
    ensures { IsWithText (string_bytes text) row result }
{
    let same = match &row.old {
        Some(old) => *old == text,
        None => false,
    };
    let change = if same { None } else { Some(Change::Unified) };
    Row {
        new: Some(text),
        change,
        ..row
    }
}

/// The rows of a plan with one requirement for each crate of a registry in each compatible range: the
/// highest of those that stand after the plan, of several with one floor the first. With a level for its
/// crate a row takes only a requirement whose floor has the numbers that the level keeps of its own.
///
/// `addresses` has for each row the address of its entry's registry, `None` for a git or path dependency.
/// Rows that take no part stay: those without a requirement or an address, those that the options leave out,
/// and those whose requirement is not one caret comparator without a pre-release.
pub fn unify_rows(
    alloc: Global,
    levels: Levels<'_>,
    rows: Vec<Row>,
    addresses: &[Option<String>],
) -> CargoResult<Vec<Row>>
    requires { length addresses.now ≡ length rows.items }
    ensures rows { IfOk result (λ v. AreUnified (level_of levels.entry)
        (map (option_map string_bytes) addresses.now) rows.items v.items) }
    // rows that require one crate in one range have one text
    ensures one { IfOk result (λ v. HasOneText (level_of levels.entry)
        (map (option_map string_bytes) addresses.now) v.items) }
    ensures error { IfErr result IsMemory }
{
    let texts = taken_texts(alloc, levels, &rows, addresses)?;
    let mut unified = Vec::new(alloc);
    'rows: for (row, text) in rows.into_iter().zip(texts.into_iter()) {
        let row = match text {
            Some(text) => with_text(row, text),
            None => row,
        };
        unified.push(row)?;
    }
    Ok(unified)
}
