//! Replaces the entry at a place by another one.
ghost use Rattle.std.specs.Prelude.{◌≡◌, ◌&&◌, not, true, ◌⊎◌, ◌++◌, ◌≤◌, length, IfOk, IfErr, string_bytes, ◌+◌};
ghost use Rattle.std.specs.List.{Contains};
ghost use Rattle.edit_base.specs.Errors.{IsMemory};
ghost use Rattle.edit_base.specs.declared.errors.Error.TheVariants.{EditRefused};
ghost use Rattle.edit_syntax.specs.Grammar.{Text};
ghost use Rattle.edit_tree.specs.Assertions.{IsDocument, Place};
ghost use Rattle.edit_tree.specs.EditBytes.{Splice, first_result, with_splice, replaced_text, is_one_statement};
ghost use Rattle.edit_document.specs.Forms.{Becomes, IfDocument};
ghost use Rattle.edit_rewrite.specs.Entries.{entry_of};
ghost use Rattle.edit_rewrite.specs.PairOffsets.{within_entry, last_end, IsAround, HasPairOffsets, HasPairOffsetsIn};
ghost use Rattle.edit_document.specs.Items.{place_view};
ghost use Rattle.edit_tree.specs.IntendedTrees.{HasReplaced, ReplaceFails};
ghost use Rattle.edit_tree.specs.NewItems.{IsEntry};
ghost use Rattle.edit_document.specs.NewItemViews.{new_item_view};
ghost use Rattle.edit_tree.specs.DocumentViews.{tree_of};
ghost use Rattle.edit_rewrite.specs.StatementOffsets.{IsSuffix};
ghost use Rattle.edit_tree.specs.Statements.{PlacedStatement, placed_statements, line_pairs, inner_pairs};

use crate::locate::{Entry, entries};
use crate::members::table_offsets;
use crate::path_matching::{PathMatch, key_end};
use edit_base::errors::{CargoResult, Error};
use edit_document::new_item::push_entry;
use edit_document::{Document, NewItem, Step};
use edit_syntax::{SyntaxToken, first_line};
use edit_tree::cut::between;
use std::alloc::Global;

/// Whether a statement is a pair that names the place or one below it.
fn is_pair_within(entry: Entry) -> bool
    ensures { result ≡ (not entry.is_header && entry.is_within) }
{
    !entry.is_header && entry.is_within
}

/// The first pair that names the place or one below it.
fn first_within(found: &[Entry]) -> Option<Entry>
    ensures { result ≡ first_result within_entry found.now }
{
    'entries: for entry in found {
        if is_pair_within(*entry) {
            return Some(*entry);
        }
    }
    None
}

/// The offset behind the last token of a list, counted from the end of the text.
fn last_to(tokens: &[SyntaxToken]) -> usize
    ensures { result ≡ last_end 0 tokens.now }
{
    let mut end = 0;
    'tokens: for token in tokens {
        end = token.to as usize;
    }
    end
}

/// The offsets of a pair that names the place: behind the part of its key that does, and behind its value.
fn pair_offsets(alloc: Global, text: &str, entry: Entry) -> CargoResult<(usize, usize)>
    ensures around { (form : Text) (place : Place) (s : PlacedStatement) → IsDocument text.now form
        → is_one_statement form place ≡ true → Contains (placed_statements form) s → entry ≡ entry_of place s
        → within_entry entry ≡ Some entry → IfOk result (IsAround place (line_pairs form)) }
    ensures error { IfErr result IsMemory }
{
    let mut tokens = Vec::new(alloc);
    let Ok(_) = first_line(&mut tokens, between(text, entry.line, 0).as_bytes()) else {
        return Err(Error::Memory);
    };
    let seen = tokens.as_slice();
    Ok((entry.front.unwrap_or(key_end(seen)), last_to(seen)))
}

/// The offsets of the pair, written as a statement, that names the place, if there is one.
fn line_offsets(alloc: Global, text: &str, place: &[Step]) -> CargoResult<Option<(usize, usize)>>
    ensures outcome { IfDocument text.now (λ form. is_one_statement form (place_view place.now) ≡ true
        → IfOk result (HasPairOffsets (place_view place.now) (line_pairs form))) }
    ensures error { IfErr result IsMemory }
{
    let all = entries(alloc, text, place)?;
    match first_within(all.as_slice()) {
        Some(entry) => Ok(Some(pair_offsets(alloc, text, entry)?)),
        None => Ok(None),
    }
}

/// The text with the range between two offsets, counted from its end, replaced by `now`.
fn splice_text(alloc: Global, text: &str, from: usize, to: usize, now: &str) -> CargoResult<String>
    ensures text { (s : Splice) → IsSuffix text.now s.from → IsSuffix text.now s.to → from ≡ length s.from
        → to ≡ length s.to → now.now ≡ s.now → IfOk result (λ r. string_bytes r ≡ with_splice text.now s) }
    ensures error { IfErr result IsMemory }
{
    let mut out = String::new(alloc);
    out.push_str(between(text, text.len(), from))?;
    out.push_str(now)?;
    out.push_str(between(text, to, 0))?;
    Ok(out)
}

/// The offsets of the pair that names the place, in the inline table at the first `end` steps of the place,
/// if there is one.
fn inline_pair_offsets(
    document: &Document,
    alloc: Global,
    place: &[Step],
    end: usize,
) -> CargoResult<Option<(usize, usize)>>
    requires { end ≤ length place.now }
    ensures outcome { IfDocument document.now.bytes (λ form. IfOk result (HasPairOffsetsIn form
        (place_view place.now) end)) }
    ensures error { IfErr result IsMemory }
{
    document.lemma_form();
    let text = document.as_str();
    match document.value_range(&place[..end]) {
        Some((start, _)) => {
            let table = &text.as_bytes()[start..];
            table_offsets(alloc, text, table, place, PathMatch::On(end))
        }
        None => Ok(None),
    }
}

/// The offsets of the pair that names the place, in any inline table around it.
fn inline_offsets(
    document: &Document,
    alloc: Global,
    place: &[Step],
) -> CargoResult<Option<(usize, usize)>>
    ensures outcome { IfDocument document.now.bytes (λ form. IfOk result (HasPairOffsets
        (place_view place.now)
        (inner_pairs form))) }
    ensures error { IfErr result IsMemory }
{
    'ends: for end in 0..place.len() + 1 {
        let offsets = inline_pair_offsets(document, alloc, place, end)?;
        if offsets.is_some() {
            return Ok(offsets);
        }
    }
    Ok(None)
}

/// The offsets of the only pair that names a place.
fn entry_offsets(document: &Document, alloc: Global, place: &[Step]) -> CargoResult<(usize, usize)>
    requires one { IfDocument document.now.bytes (λ form. is_one_statement form (place_view place.now)
        ≡ true) }
    ensures around { IfDocument document.now.bytes (λ form. IfOk result (IsAround (place_view place.now)
        (line_pairs form ++ inner_pairs form))) }
    ensures error { IfErr result IsMemory }
{
    document.lemma_form();
    if let Some(offsets) = line_offsets(alloc, document.as_str(), place)? {
        return Ok(offsets);
    }
    match inline_offsets(document, alloc, place)? {
        Some(offsets) => Ok(offsets),
        None => unreachable!(),
    }
}

/// The document's text with the entry at a place replaced.
pub fn with_entry(
    document: &Document,
    alloc: Global,
    place: &[Step],
    item: &NewItem,
) -> CargoResult<String>
    requires one { IfDocument document.now.bytes (λ form. is_one_statement form (place_view place.now)
        ≡ true) }
    ensures text { IfOk result (λ t. Becomes document.now.bytes (replaced_text (place_view place.now)
        (new_item_view item.now)) (string_bytes t)) }
    ensures error { IfErr result IsMemory }
{
    let (from, to) = entry_offsets(document, alloc, place)?;
    let mut now = String::new(alloc);
    push_entry(&mut now, item)?;
    splice_text(alloc, document.as_str(), from, to, now.as_str())
}
