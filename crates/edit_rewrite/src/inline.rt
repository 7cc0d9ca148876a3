//! Inserts a member into an inline table.
ghost use Rattle.std.specs.Prelude.{◌≡◌, ◌≤◌, ℕ, List, [], ◌++◌, ◌∷◌, MatchResult, MatchOption, IfOk, IfErr, None, Some, codes, drop, length, string_bytes};
ghost use Rattle.edit_base.specs.Errors.{IsMemory};
ghost use Rattle.edit_syntax.specs.Characters.{right_brace};
ghost use Rattle.edit_syntax.specs.Grammar.{Between, inline, Members, no_members, Text};
ghost use Rattle.edit_tree.specs.EditBytes.{Splice, put_before, with_splice, behind_last, inline_grown, in_inline, inserted_text};
ghost use Rattle.edit_document.specs.Forms.{IfDocument};
ghost use Rattle.edit_document.specs.Items.{place_view};
ghost use Rattle.edit_tree.specs.NewItems.{NewValue as IntendedTrees, new_pair};
ghost use Rattle.edit_document.specs.Ranges.{HasTable};
ghost use Rattle.edit_tree.specs.SlotTexts.{TableAt};
ghost use Rattle.edit_rewrite.specs.StatementOffsets.{IsSuffix};
ghost use Rattle.edit_tree.specs.Assertions.{IsDocument};

use crate::inside::{begins, behind_one, past_slot};
use crate::splices::{with_swap, with_text};
use edit_base::errors::CargoResult;
use edit_document::{Document, Step};
use edit_syntax::read::gaps::past_gap;
use edit_syntax::read::steps::past_blanks;
use std::alloc::Global;

/// The input behind the value of the last member of the inline table that `table`, a suffix of `text`, begins
/// with; its closing brace where it has no member.
fn past_last<'a>(alloc: Global, text: &str, table: &'a [u8]) -> CargoResult<&'a [u8]>
    ensures { (g : List Between) (ms : Members) (after : List ℕ) → TableAt text.now table.now g ms after
        → MatchResult result (λ r. r.now ≡ behind_last ms (right_brace ∷ after)) IsMemory }
{
    let mut rest = past_gap(behind_one(table));
    let mut last = rest;
    'members: for index in 0..text.len() {
        if begins(rest, b'}') {
            return Ok(last);
        }
        let (_, after) = past_slot(alloc, text, rest, true, index, &[])?;
        let stop = past_gap(after);
        if !begins(stop, b',') {
            return Ok(after);
        }
        rest = past_gap(behind_one(stop));
        last = after;
    }
    Ok(last)
}

/// The text with `lead` and a member inserted at an offset, counted from the end of the text.
pub(crate) fn with_lead(
    alloc: Global,
    text: &str,
    offset: usize,
    lead: &str,
    member: &str,
) -> CargoResult<String>
    ensures text { (rest : List ℕ) → IsSuffix text.now rest → offset ≡ length rest
        → IfOk result (λ s. string_bytes s
        ≡ with_splice text.now (put_before rest (lead.now ++ member.now))) }
    ensures error { IfErr result IsMemory }
{
    let mut now = String::from_str(alloc, lead)?;
    now.push_str(member)?;
    with_text(alloc, text, offset, now.as_str())
}

/// The text with the range between two offsets replaced by a member with a space on each side.
fn with_alone(
    alloc: Global,
    text: &str,
    from: usize,
    to: usize,
    member: &str,
) -> CargoResult<String>
    ensures text { (s t : List ℕ) → IsSuffix text.now s → IsSuffix text.now t
        → from ≡ length s → to ≡ length t
        → IfOk result (λ r. string_bytes r ≡ with_splice text.now
        (record { from = s; to = t; now = codes " " ++ (member.now ++ codes " ") })) }
    ensures error { IfErr result IsMemory }
{
    let mut now = String::from_str(alloc, " ")?;
    now.push_str(member)?;
    now.push_str(" ")?;
    with_swap(alloc, text, from, to, now.as_str())
}

/// The text with a first member in the empty inline table that `table` begins with; white space between the
/// braces is replaced, comments and newlines stay.
fn with_first_member(alloc: Global, text: &str, table: &[u8], member: &str) -> CargoResult<String>
    ensures text { (g : List Between) (after : List ℕ) (s : Splice)
        → TableAt text.now table.now g no_members after
        → inline_grown member.now (inline g no_members) after ≡ Some s
        → IfOk result (λ t. string_bytes t ≡ with_splice text.now s) }
    ensures error { IfErr result IsMemory }
{
    let inner = behind_one(table);
    let close = past_blanks(inner);
    if begins(close, b'}') {
        with_alone(alloc, text, inner.len(), close.len(), member)
    } else {
        with_lead(alloc, text, inner.len(), " ", member)
    }
}

/// The text with a new member in the inline table that `table`, a suffix of the text, begins with: behind the
/// last value and a comma, or between the braces.
pub(crate) fn with_member_in(
    alloc: Global,
    text: &str,
    table: &[u8],
    member: &str,
) -> CargoResult<String>
    ensures { (g : List Between) (ms : Members) (after : List ℕ) (s : Splice)
        → TableAt text.now table.now g ms after → inline_grown member.now (inline g ms) after ≡ Some s
        → MatchResult result (λ t. string_bytes t ≡ with_splice text.now s) IsMemory }
{
    if begins(past_gap(behind_one(table)), b'}') {
        return with_first_member(alloc, text, table, member);
    }
    let last = past_last(alloc, text, table)?;
    with_lead(alloc, text, last.len(), ", ", member)
}

/// The suffix from a position on.
pub(crate) fn from_start(s: &[u8], start: usize) -> &[u8]
    requires { start ≤ length s.now }
    ensures { result.now ≡ drop start s.now }
{
    &s[start..]
}

/// The position of the inline table at a place, or `None` where none is written there.
pub(crate) fn table_start(document: &Document, place: &[Step]) -> Option<usize>
    ensures { IfDocument document.now.bytes (λ form. HasTable form (place_view place.now) result) }
{
    document.lemma_form();
    let (start, _) = document.value_range(place)?;
    let item = document.item(place)?;
    if item.is_inline_table() {
        Some(start)
    } else {
        None
    }
}

/// The document's text with a new member in the inline table at a place, or `None` where none is written
/// there.
pub(crate) fn with_inline_member(
    document: &Document,
    alloc: Global,
    place: &[Step],
    pair: &str,
) -> CargoResult<Option<String>>
    ensures text { (form : Text) (name : List ℕ) (v : IntendedTrees) → IsDocument document.now.bytes form
        → pair.now ≡ new_pair name v [] → IfOk result (λ o. MatchOption o
        (in_inline (place_view place.now) pair.now form ≡ None)
        (λ t. string_bytes t ≡ inserted_text (place_view place.now) name v form)) }
    ensures error { IfErr result IsMemory }
{
    document.lemma_form();
    let Some(start) = table_start(document, place) else {
        return Ok(None);
    };
    let text = document.as_str();
    let table = from_start(text.as_bytes(), start);
    let grown = with_member_in(alloc, text, table, pair)?;
    Ok(Some(grown))
}
