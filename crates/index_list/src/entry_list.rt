//! The list of the index entries that are available to an upgrade, as a text.
ghost use Rattle.std.specs.Prelude.{◌≡◌, ◌++◌, Bool, List, IfOk, MatchOption, OnOk, map};
ghost use Rattle.index_list.specs.EntryLists.{EntryText, HasEntries, IsListable, entry_fields, entry_record, entry_text, kind_text};
ghost use Rattle.edit_lookups.specs.Lookups.{HasNo};

use std::alloc::{AllocError, Global};

/// An index entry that is available to an upgrade: the path of the entry below the folder of an index, and
/// the file that holds it.
#[derive(Clone, Copy, Debug)]
pub struct ListedEntry<'a> {
    /// The folder of the registry, a slash and the path in the layout of an index, as `se/rd/serde`.
    pub below: &'a str,
    /// Whether the file is one of the cache, which begins with a line of its own.
    pub is_cached: bool,
    /// The path of the file.
    pub file: &'a str,
}

/// The word for the kind of an entry's file.
fn kind_text(is_cached: bool) -> &'static str
    ensures { result.now ≡ kind_text is_cached }
{
    if is_cached { "cached" } else { "local" }
}

/// Appends the record of an entry to a list.
pub fn push_entry(text: &mut Vec<u8>, entry: &ListedEntry<'_>) -> Result<(), AllocError>
    ensures { OnOk result (text.new.items ≡ text.old.items ++ entry_record (entry_text entry.now)) }
{
    text.extend_from_slice(kind_text(entry.is_cached).as_bytes())?;
    text.push(b'\t')?;
    text.extend_from_slice(entry.below.as_bytes())?;
    text.push(b'\t')?;
    text.extend_from_slice(entry.file.as_bytes())?;
    text.push(0)?;
    Ok(())
}

/// Whether a kind of file is that of cached ones; `None` where the text is no kind.
fn read_kind(kind: &str) -> Option<bool>
    ensures { MatchOption result ((is_cached : Bool) → kind.now ≡ kind_text is_cached → ⊥)
        (λ is_cached. kind.now ≡ kind_text is_cached) }
{
    match kind {
        "cached" => Some(true),
        "local" => Some(false),
        _ => None,
    }
}

/// Parses the fields of an entry; `None` where they are not three, separated by tabs, or where the first is
/// no kind of file.
fn read_fields<'a>(fields: &'a str) -> Option<ListedEntry<'a>>
    requires { HasNo 0 fields.now }
    ensures { MatchOption result ((e : EntryText) → IsListable e → fields.now ≡ entry_fields e → ⊥)
        (λ e. IsListable (entry_text e) × (fields.now ≡ entry_fields (entry_text e))) }
{
    let Some((kind, rest)) = fields.split_once('\t') else {
        return None;
    };
    let Some((below, file)) = rest.split_once('\t') else {
        return None;
    };
    let Some(is_cached) = read_kind(kind) else {
        return None;
    };
    Some(ListedEntry {
        below,
        is_cached,
        file,
    })
}

/// Parses a list of entries, in order; `None` where the text is not a sequence of records.
pub fn read_list<'a>(
    alloc: Global,
    text: &'a str,
) -> Result<Option<Vec<ListedEntry<'a>>>, AllocError>
    ensures { IfOk result (λ o. MatchOption o ((es : List EntryText) → HasEntries text.now es → ⊥)
        (λ v. HasEntries text.now (map entry_text v.items))) }
{
    let mut entries = Vec::new(alloc);
    let mut rest = text;
    while let Some((fields, after)) = rest.split_once('\0') {
        let Some(entry) = read_fields(fields) else {
            return Ok(None);
        };
        entries.push(entry)?;
        rest = after;
    }
    if rest.is_empty() {
        Ok(Some(entries))
    } else {
        Ok(None)
    }
}
