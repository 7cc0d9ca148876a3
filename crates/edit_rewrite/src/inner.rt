//! Pairs of inline tables whose dotted key passes through a place.
ghost use Rattle.std.specs.Prelude.{◌≡◌, ℕ, true, List, ◌++◌, ◌∷◌, Some, MatchResult, IfOk, IfErr, codes, length, option_map, string_bytes};
ghost use Rattle.edit_base.specs.Errors.{IsMemory};
ghost use Rattle.edit_syntax.specs.Characters.{right_brace};
ghost use Rattle.edit_syntax.specs.Grammar.{Between, gap, Members};
ghost use Rattle.edit_tree.specs.Assertions.{Place};
ghost use Rattle.edit_tree.specs.EditBytes.{put_before, last_result, with_splice, front_to, dotted_pair};
ghost use Rattle.edit_document.specs.Forms.{IfDocument};
ghost use Rattle.edit_rewrite.specs.Entries as entries_seen;
ghost use Rattle.edit_rewrite.specs.Inner as inner_seen;
ghost use Rattle.edit_document.specs.Items.{place_view};
ghost use Rattle.edit_tree.specs.Slots.{Slot};
ghost use Rattle.edit_tree.specs.SlotTexts.{StandsAt, TableAt};
ghost use Rattle.edit_tree.specs.Statements.{PlacedPair, paired_members, inner_pairs};

use crate::inline::{from_start, table_start, with_lead};
use crate::inside::{begins, behind_one};
use crate::path_matching::{PathMatch, follow_key};
use edit_base::errors::CargoResult;
use edit_document::{Document, Step};
use edit_syntax::read::gaps::past_gap;
use edit_syntax::read::steps::{past_name, past_value};
use edit_tree::cut::between;
use std::alloc::Global;

/// A pair of an inline table whose dotted key passes through a place, by three offsets counted from the end
/// of the text: from its key, behind the part of the key that reaches the place, and behind its value.
#[derive(Clone, Copy)]
pub(crate) struct Inner {
    pub(crate) from: usize,
    pub(crate) front: usize,
    pub(crate) behind: usize,
}

/// The pair at the front of `s`, where its key passes through the place at the offset `front`; `behind` is
/// the input behind its value.
fn inner_from(s: &[u8], front: Option<usize>, behind: &[u8]) -> Option<Inner>
    ensures { result ≡ option_map
        (λ n. record { from = length s.now; front = n; behind = length behind.now }) front }
{
    match front {
        Some(front) => Some(Inner {
            from: s.len(),
            front,
            behind: behind.len(),
        }),
        None => None,
    }
}

/// The pair at the front of `s`, a suffix of the text, where its key passes through a place, and the input
/// behind its value.
fn inner_at<'a>(
    alloc: Global,
    text: &str,
    place: &[Step],
    table: PathMatch,
    s: &'a [u8],
) -> CargoResult<(Option<Inner>, &'a [u8])>
    ensures { (above : Place) (it : Slot) (c : List Between) (rest : List ℕ)
        → StandsAt text.now s.now true it c rest
        → table ≡ entries_seen.path_match (place_view place.now) above
        → MatchResult result (λ r. (r.0 ≡ inner_seen.inner_in (place_view place.now) above it (gap c rest))
        × (r.1.now ≡ gap c rest)) IsMemory }
{
    let mut tokens = Vec::new(alloc);
    let value = past_name(&mut tokens, s)?;
    let (_, front) = follow_key(alloc, text, place, tokens.as_slice(), table, &[])?;
    let rest = past_value(alloc, value)?;
    Ok((inner_from(s, front, rest), rest))
}

/// The last pair whose key passes through a place, in the inline table that `table`, a suffix of the text,
/// begins with.
pub(crate) fn last_inner(
    alloc: Global,
    text: &str,
    place: &[Step],
    start: PathMatch,
    table: &[u8],
) -> CargoResult<Option<Inner>>
    ensures { (above : Place) (g : List Between) (ms : Members) (after : List ℕ)
        → TableAt text.now table.now g ms after → start ≡ entries_seen.path_match (place_view place.now) above
        → MatchResult result (λ o. o ≡ last_result (inner_seen.inner_of (place_view place.now))
        (paired_members above ms (right_brace ∷ after))) IsMemory }
{
    let mut rest = past_gap(behind_one(table));
    let mut last = None;
    'members: for index in 0..text.len() {
        if begins(rest, b'}') {
            return Ok(last);
        }
        let (here, after) = inner_at(alloc, text, place, start, rest)?;
        last = here.or(last);
        let stop = past_gap(after);
        if !begins(stop, b',') {
            return Ok(last);
        }
        rest = past_gap(behind_one(stop));
    }
    Ok(last)
}

/// The text with a new pair inserted behind the value of one whose key passes through the place.
pub(crate) fn with_inner(alloc: Global, text: &str, inner: Inner, pair: &str) -> CargoResult<String>
    ensures text { (place : Place) (p : PlacedPair) (suffix : List ℕ) → inner_seen.HasInner text.now p suffix
        → front_to place p ≡ Some suffix → inner_seen.inner_of place p ≡ Some inner
        → IfOk result (λ t. string_bytes t
        ≡ with_splice text.now (put_before p.behind (codes ", " ++ dotted_pair p suffix pair.now))) }
    ensures error { IfErr result IsMemory }
{
    let mut member = String::from_str(alloc, between(text, inner.from, inner.front))?;
    member.push_str(".")?;
    member.push_str(pair)?;
    with_lead(alloc, text, inner.behind, ", ", member.as_str())
}

/// The innermost inline table around a place: the number of steps to it, and its position.
fn table_above(document: &Document, place: &[Step]) -> Option<(usize, usize)>
    ensures { IfDocument document.now.bytes (λ form. inner_seen.IsClosest form (place_view place.now)
        result) }
{
    let mut found = None;
    'ends: for end in 0..place.len() {
        if let Some(start) = table_start(document, &place[..end]) {
            found = Some((end, start));
        }
    }
    found
}

/// The last pair whose key passes through a place, of the innermost inline table around it.
pub(crate) fn last_inner_of(
    document: &Document,
    alloc: Global,
    place: &[Step],
) -> CargoResult<Option<Inner>>
    ensures found { IfDocument document.now.bytes (λ form. IfOk result (λ o. o ≡ last_result
        (inner_seen.inner_of (place_view place.now)) (inner_pairs form))) }
    ensures error { IfErr result IsMemory }
{
    document.lemma_form();
    let Some((steps, start)) = table_above(document, place) else {
        return Ok(None);
    };
    let text = document.as_str();
    let table = from_start(text.as_bytes(), start);
    last_inner(alloc, text, place, PathMatch::On(steps), table)
}
