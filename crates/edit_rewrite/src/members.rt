//! Finds the member of an inline table that names a place.
ghost use Rattle.std.specs.Prelude.{◌≡◌, true, ℕ, List, IfOk, IfErr, length, option_map};
ghost use Rattle.edit_base.specs.Errors.{IsMemory};
ghost use Rattle.edit_syntax.specs.Grammar.{Between, gap, Value, value as value_text};
ghost use Rattle.edit_syntax.specs.Strings.{Key};
ghost use Rattle.edit_tree.specs.Assertions.{Place};
ghost use Rattle.edit_tree.specs.EditBytes.{part_to};
ghost use Rattle.edit_rewrite.specs.Entries.{path_match};
ghost use Rattle.edit_rewrite.specs.PairOffsets.{part_offset, StandsIn, HasPairOffsets};
ghost use Rattle.edit_document.specs.Items.{place_view};
ghost use Rattle.edit_tree.specs.Slots.{of_pair};
ghost use Rattle.edit_tree.specs.SlotTexts.{StandsAt};
ghost use Rattle.edit_tree.specs.Statements.{placed_pair, paired_value};
ghost use Rattle.edit_tree.specs.Written.{PlacedValue};

use crate::inside::{begins, behind_one};
use crate::path_matching::{PathMatch, follow_key, is_at, key_end};
use edit_base::errors::{CargoResult, Error};
use edit_document::Step;
use edit_syntax::SyntaxToken;
use edit_syntax::read::gaps::past_gap;
use edit_syntax::read::steps::{past_name, past_value};
use std::alloc::Global;

/// The offset behind the part of a key that names the place, where the key does.
fn part_end(
    named: PathMatch,
    front: Option<usize>,
    tokens: &[SyntaxToken],
    place: &[Step],
) -> Option<usize>
    ensures { result ≡ part_offset (length (place_view place.now)) named front tokens.now }
{
    if front.is_some() {
        return front;
    }
    if is_at(named, place) {
        Some(key_end(tokens))
    } else {
        None
    }
}

/// The offset behind the part of the key at the front that names the place, if it does, and the input behind
/// the pair; `start` is the path to the inline table.
fn past_member<'a>(
    alloc: Global,
    text: &str,
    s: &'a [u8],
    place: &[Step],
    start: PathMatch,
) -> CargoResult<(Option<usize>, &'a [u8])>
    ensures outcome { (table : Place) (k : Key) (a b : List ℕ) (v : Value) (c : List Between) (rest : List ℕ)
        → StandsAt text.now s.now true (of_pair k a b v) c rest
        → start ≡ path_match (place_view place.now) table
        → IfOk result (λ r.
        (r.0 ≡ option_map length (part_to (place_view place.now) (placed_pair table k a b v (gap c rest))))
        × (r.1.now ≡ gap c rest)) }
    ensures error { IfErr result IsMemory }
{
    let mut tokens = Vec::new(alloc);
    let Ok(value) = past_name(&mut tokens, s) else {
        return Err(Error::Memory);
    };
    let seen = tokens.as_slice();
    let (named, front) = follow_key(alloc, text, place, seen, start, &[])?;
    let Ok(after) = past_value(alloc, value) else {
        return Err(Error::Memory);
    };
    Ok((part_end(named, front, seen, place), after))
}

/// The offsets of the pair that names the place in the inline table that a suffix of the text begins with:
/// behind the part of its key, and behind its value.
pub(crate) fn table_offsets(
    alloc: Global,
    text: &str,
    s: &[u8],
    place: &[Step],
    start: PathMatch,
) -> CargoResult<Option<(usize, usize)>>
    ensures outcome { (w : PlacedValue) → StandsIn text.now w → s.now ≡ value_text w.value w.after
        → start ≡ path_match (place_view place.now) w.place
        → IfOk result (HasPairOffsets (place_view place.now) (paired_value w)) }
    ensures error { IfErr result IsMemory }
{
    if !begins(s, b'{') {
        return Ok(None);
    }
    let mut rest = past_gap(behind_one(s));
    'members: for _member in 0..s.len() {
        if begins(rest, b'}') {
            return Ok(None);
        }
        let (part, after) = past_member(alloc, text, rest, place, start)?;
        if let Some(from) = part {
            return Ok(Some((from, after.len())));
        }
        let stop = past_gap(after);
        if !begins(stop, b',') {
            return Ok(None);
        }
        rest = past_gap(behind_one(stop));
    }
    Ok(None)
}
