//! The text of a choice.
ghost use Rattle.std.specs.Prelude.{◌≡◌, ◌≤◌, ◌∷◌, [], ◌↔◌, ℕ, List, IfOk, IfSome, IsTrue, MatchOption, map};
ghost use Rattle.std.specs.Char.{is_ascii_digit};
ghost use Rattle.std.specs.List.{AllZip, list_all};
ghost use Rattle.edit_choice.specs.ChoiceTexts.{AreNumbers, IsChoiceText, IsItem, IsNoChoice, IsRowNumber, begins_name, is_name, is_name_byte, is_separator, parts_from};
ghost use Rattle.edit_choice.specs.declared.items.RowItem.{RowItem};

use crate::items::{RowChoice, RowItem};
use std::alloc::{AllocError, Global};

/// Whether a byte parts the items of a choice: a comma or ASCII white space.
fn is_separator(b: u8) -> bool
    ensures { result ≡ is_separator b }
{
    matches!(b, b',' | b' ' | b'\t' | b'\r' | b'\n')
}

/// The parts of a text between separators, those that are not empty.
fn parts_of(alloc: Global, text: &str) -> Result<Vec<&str>, AllocError>
    ensures { IfOk result (λ v. map (λ part. part.now) v.items ≡ parts_from [] text.entry.now) }
{
    let mut parts = Vec::new(alloc);
    let mut start: usize = 0;
    'bytes: for (i, b) in text.as_bytes().iter().enumerate() {
        if is_separator(*b) {
            if start < i {
                parts.push(&text[start..i])?;
            }
            start = i + 1;
        }
    }
    if start < text.len() {
        parts.push(&text[start..])?;
    }
    Ok(parts)
}

/// Whether a text has no characters other than decimal digits.
fn is_numeric(text: &str) -> bool
    ensures { result ≡ list_all is_ascii_digit text.now }
{
    text.as_bytes().iter().all(|byte| byte.is_ascii_digit())
}

/// The number of a row; `None` for a text that is none. Rows are numbered from 1.
fn row_number(text: &str) -> Option<u64>
    ensures { MatchOption result ((n : ℕ) → IsRowNumber text.now n → ⊥) (IsRowNumber text.now) }
{
    if !is_numeric(text) {
        return None;
    }
    let Ok(number) = text.parse::<u64>() else {
        return None;
    };
    if number == 0 { None } else { Some(number) }
}

/// The first and the last number of a range; `None` where these texts are no numbers of rows in order.
fn range_of(first: &str, last: &str) -> Option<(u64, u64)>
    ensures { MatchOption result
        ((m n : ℕ) → IsRowNumber first.now m → IsRowNumber last.now n → m ≤ n → ⊥)
        (λ r. IsRowNumber first.now r.0 × IsRowNumber last.now r.1 × (r.0 ≤ r.1)) }
{
    let first = row_number(first)?;
    let last = row_number(last)?;
    if first > last {
        None
    } else {
        Some((first, last))
    }
}

/// The first and the last number of a text that is the number of a row, or a range as `3-5`.
fn row_numbers(text: &str) -> Option<(u64, u64)>
    ensures { MatchOption result ((m n : ℕ) → AreNumbers text.now m n → ⊥)
        (λ r. AreNumbers text.now r.0 r.1) }
{
    match text.split_once('-') {
        Some((first, last)) => range_of(first, last),
        None => {
            let number = row_number(text)?;
            Some((number, number))
        }
    }
}

/// Whether a byte may begin a crate's name in a choice: a letter or `_`.
fn begins_name(b: u8) -> bool
    ensures { result ≡ begins_name b }
{
    b.is_ascii_alphabetic() || b == b'_'
}

/// Whether a byte may stand in a crate's name.
fn is_name_byte(b: u8) -> bool
    ensures { result ≡ is_name_byte b }
{
    b.is_ascii_alphanumeric() || b == b'-' || b == b'_'
}

/// Whether a text may be the name of a crate.
fn is_name(text: &str) -> bool
    ensures { result ≡ is_name text.now }
{
    match text.as_bytes().split_first() {
        Some((first, rest)) => begins_name(*first) && rest.iter().all(|b| is_name_byte(*b)),
        None => false,
    }
}

/// The item of a text: the number of a row, a range, or a crate's name. `None` for other texts.
fn row_item(text: &str) -> Option<RowItem<'_>>
    ensures { MatchOption result ((item : RowItem) → IsItem text.entry.now item → ⊥)
        (IsItem text.entry.now) }
{
    if let Some((first, last)) = row_numbers(text) {
        return Some(RowItem::Numbers(first, last));
    }
    if is_name(text) {
        Some(RowItem::Name(text))
    } else {
        None
    }
}

/// The items that parts of a text are; `None` where one of them is no item.
fn items_of<'a>(alloc: Global, parts: &[&'a str]) -> Result<Option<Vec<RowItem<'a>>>, AllocError>
    ensures { IfOk result (λ o. MatchOption o
        ((items : List RowItem) → AllZip IsItem (map (λ part. part.now) parts.now) items → ⊥)
        (λ v. AllZip IsItem (map (λ part. part.now) parts.now) v.items)) }
{
    let mut items = Vec::new(alloc);
    'parts: for part in parts {
        match row_item(part) {
            Some(item) => items.push(item)?,
            None => return Ok(None),
        }
    }
    Ok(Some(items))
}

/// Whether the parts of a text are this word alone.
fn is_only(parts: &[&str], word: &str) -> bool
    ensures { IsTrue result ↔ (map (λ part. part.now) parts.now ≡ word.now ∷ []) }
{
    parts.len() == 1 && parts[0] == word
}

impl<'a> RowChoice<'a> {
    /// The choice that a text is: `all`, `none`, or numbers, ranges and names. No text is no row; `None`
    /// for a text that is no choice.
    pub fn parse(alloc: Global, text: &'a str) -> Result<Option<RowChoice<'a>>, AllocError>
        ensures choice { IfOk result (λ o. IfSome o (IsChoiceText text.entry.now)) }
        ensures none { IfOk result (IsNoChoice text.entry.now) }
    {
        let parts = parts_of(alloc, text)?;
        if is_only(&parts, "all") {
            return Ok(Some(RowChoice::All));
        }
        if is_only(&parts, "none") {
            return Ok(Some(RowChoice::Items(Vec::new(alloc))));
        }
        match items_of(alloc, &parts)? {
            Some(items) => Ok(Some(RowChoice::Items(items))),
            None => Ok(None),
        }
    }
}
