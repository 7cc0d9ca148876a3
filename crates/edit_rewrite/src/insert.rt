//! Inserts a member into a table.
ghost use Rattle.std.specs.Prelude.{◌≡◌, ◌&&◌, not, is_some, ◌⊎◌, ◌++◌, [], ℕ, List, None, Some, IfOk, IfErr, codes, string_bytes, length, ◌≤◌, ◌+◌};
ghost use Rattle.edit_base.specs.Errors.{IsMemory};
ghost use Rattle.edit_base.specs.declared.errors.Error.TheVariants.{EditRefused};
ghost use Rattle.edit_syntax.specs.Grammar.{Text};
ghost use Rattle.edit_syntax.specs.Strings.{◌·◌};
ghost use Rattle.edit_tree.specs.Assertions.{IsDocument, Place, at, key as key_step};
ghost use Rattle.edit_tree.specs.EditBytes.{first_result, last_result, put_before, new_line, at_start, with_splice, in_inline, inserted_text};
ghost use Rattle.edit_document.specs.Forms.{Becomes, IfDocument};
ghost use Rattle.edit_rewrite.specs.Entries.{entry_of, front_of};
ghost use Rattle.edit_rewrite.specs.Inner.{inner_of};
ghost use Rattle.edit_document.specs.Items.{place_view};
ghost use Rattle.edit_tree.specs.IntendedTrees.{Inserted, InsertFails};
ghost use Rattle.edit_tree.specs.NewItems.{NewValue as IntendedTrees, new_pair};
ghost use Rattle.edit_document.specs.NewItemViews.{new_value_view};
ghost use Rattle.edit_tree.specs.DocumentViews.{tree_of};
ghost use Rattle.edit_rewrite.specs.StatementOffsets.{HasOffsets, key_to, section_text, own_entry, dotted_entry, through_entry};
ghost use Rattle.edit_tree.specs.Statements.{PlacedStatement, inner_pairs};

use crate::inline::with_inline_member;
use crate::inner::{Inner, last_inner_of, with_inner};
use crate::locate::{Entry, entries};
use crate::splices::{with_line, with_section, with_text};
use edit_base::errors::CargoResult;
use edit_document::new_item::push_member;
use edit_document::{Document, NewValue, Step};
use edit_syntax::skip_byte_order_mark;
use edit_tree::cut::between;
use std::alloc::Global;

/// The last statement that is the place's own header or a pair below it.
fn last_own(found: &[Entry]) -> Option<Entry>
    ensures { result ≡ last_result own_entry found.now }
{
    let mut last = None;
    'entries: for entry in found {
        if entry.is_own {
            last = Some(*entry);
        }
    }
    last
}

/// Whether a statement is a pair whose dotted key passes through the place.
fn is_dotted(entry: Entry) -> bool
    ensures { result ≡ (not entry.is_header && is_some entry.front) }
{
    !entry.is_header && entry.front.is_some()
}

/// Whether a statement is a header whose key passes through the place.
fn is_passing_header(entry: Entry) -> bool
    ensures { result ≡ (entry.is_header && is_some entry.front) }
{
    entry.is_header && entry.front.is_some()
}

/// The last pair whose dotted key passes through the place.
fn last_dotted(found: &[Entry]) -> Option<Entry>
    ensures { result ≡ last_result dotted_entry found.now }
{
    let mut last = None;
    'entries: for entry in found {
        if is_dotted(*entry) {
            last = Some(*entry);
        }
    }
    last
}

/// The first header whose key passes through the place.
fn first_through(found: &[Entry]) -> Option<Entry>
    ensures { result ≡ first_result through_entry found.now }
{
    'entries: for entry in found {
        if is_passing_header(*entry) {
            return Some(*entry);
        }
    }
    None
}

/// The part of a statement's key that names the place, as written.
fn name_of(text: &str, entry: Entry) -> &str
    ensures { (place : Place) (s : PlacedStatement) (suffix : List ℕ) → HasOffsets text.now s
        → entry ≡ entry_of place s
        → front_of place s ≡ Some suffix → result.now ≡ key_to s suffix }
{
    between(text, entry.key, entry.front.unwrap_or(0))
}

/// The text with a dotted pair inserted on a new line behind one whose key passes through the place.
fn with_dotted(alloc: Global, text: &str, entry: Entry, pair: &str) -> CargoResult<String>
    ensures text { (place : Place) (s : PlacedStatement) (suffix : List ℕ) → HasOffsets text.now s
        → entry ≡ entry_of place s → front_of place s ≡ Some suffix
        → IfOk result (λ t. string_bytes t
        ≡ with_splice text.now (new_line s.after (key_to s suffix · codes "." · pair.now))) }
    ensures error { IfErr result IsMemory }
{
    let mut line = String::from_str(alloc, name_of(text, entry))?;
    line.push_str(".")?;
    line.push_str(pair)?;
    with_line(alloc, text, entry.after, line.as_str())
}

/// The text with a header of the place and a pair inserted before a header whose key passes through the
/// place.
fn with_header(alloc: Global, text: &str, entry: Entry, pair: &str) -> CargoResult<String>
    ensures text { (place : Place) (s : PlacedStatement) (suffix : List ℕ) → HasOffsets text.now s
        → entry ≡ entry_of place s → front_of place s ≡ Some suffix
        → IfOk result (λ t. string_bytes t
        ≡ with_splice text.now (put_before s.line (section_text (key_to s suffix) pair.now))) }
    ensures error { IfErr result IsMemory }
{
    with_section(alloc, text, entry.line, name_of(text, entry), pair)
}

/// The text with a new first line.
fn with_first(alloc: Global, text: &str, pair: &str) -> CargoResult<String>
    ensures text { IfDocument text.now (λ form. IfOk result (λ t. string_bytes t ≡ with_splice text.now
        (at_start pair.now form))) }
    ensures error { IfErr result IsMemory }
{
    let mut line = String::from_str(alloc, pair)?;
    line.push_str("\n")?;
    with_text(
        alloc,
        text,
        skip_byte_order_mark(text.as_bytes()).len(),
        line.as_str(),
    )
}

/// The text with a new pair in a table that is not written as a value; `inner` is the last pair of an inline
/// table whose key passes through the place.
fn with_pair(
    alloc: Global,
    text: &str,
    place: &[Step],
    inner: Option<Inner>,
    pair: &str,
) -> CargoResult<String>
    ensures text { (form : Text) (name : List ℕ) (v : IntendedTrees) → IsDocument text.now form
        → in_inline (place_view place.now) pair.now form ≡ None
        → inner ≡ last_result (inner_of (place_view place.now)) (inner_pairs form)
        → pair.now ≡ new_pair name v []
        → IfOk result (λ t. string_bytes t ≡ inserted_text (place_view place.now) name v form) }
    ensures error { IfErr result IsMemory }
{
    let all = entries(alloc, text, place)?;
    let found = all.as_slice();
    if let Some(entry) = last_own(found) {
        return with_line(alloc, text, entry.after, pair);
    }
    if let Some(entry) = last_dotted(found) {
        return with_dotted(alloc, text, entry, pair);
    }
    if let Some(inner) = inner {
        return with_inner(alloc, text, inner, pair);
    }
    if let Some(entry) = first_through(found) {
        return with_header(alloc, text, entry, pair);
    }
    with_first(alloc, text, pair)
}

/// The pair `name = literal`.
fn pair_text(alloc: Global, name: &str, value: &NewValue) -> CargoResult<String>
    ensures text { IfOk result (λ t. string_bytes t ≡ new_pair name.now (new_value_view value.now) []) }
    ensures error { IfErr result IsMemory }
{
    let mut out = String::new(alloc);
    push_member(&mut out, name, value)?;
    Ok(out)
}

/// The document's text with a new member in the table at a place.
pub fn with_member(
    document: &Document,
    alloc: Global,
    place: &[Step],
    key: &str,
    value: &NewValue,
) -> CargoResult<String>
    ensures text { IfOk result (λ t. Becomes document.now.bytes (inserted_text (place_view place.now) key.now
        (new_value_view value.now)) (string_bytes t)) }
    ensures error { IfErr result IsMemory }
{
    let written = pair_text(alloc, key, value)?;
    let pair = written.as_str();
    let inline = with_inline_member(document, alloc, place, pair)?;
    if let Some(text) = inline {
        return Ok(text);
    }
    let inner = last_inner_of(document, alloc, place)?;
    with_pair(alloc, document.as_str(), place, inner, pair)
}
