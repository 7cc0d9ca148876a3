//! Removes elements of an array or members of an inline table from the text of the value.
ghost use Rattle.std.specs.Prelude.{◌≡◌, ℕ, List, Bool, true, false, if◌then◌else◌, ◌==◌, ◌-◌, ◌≤◌, ◌++◌, ◌∷◌, [], MatchResult, IfOk, IfErr, OnOk, take, drop, length, map};
ghost use Rattle.edit_base.specs.Errors.{IsMemory};
ghost use Rattle.edit_syntax.specs.Grammar.{Between, gap, Value, value as value_text, IsValue};
ghost use Rattle.edit_syntax.specs.Depth.{depth};
ghost use Rattle.edit_syntax.specs.SyntaxTokens.{tokens_of_key};
ghost use Rattle.edit_syntax.specs.Reading as reading;
ghost use Rattle.edit_syntax.specs.Steps.{ends_item};
ghost use Rattle.edit_tree.specs.Assertions.{Place, key as name_step, index as index_step, same_step, same_place};
ghost use Rattle.edit_tree.specs.EditBytes.{is_within};
ghost use Rattle.edit_tree.specs.RemovedBytes.{value_left};
ghost use Rattle.edit_document.specs.Items.{place_view, step_view};
ghost use Rattle.edit_tree.specs.Slots.{Slot, slot, IsSlot, Slots, slots, closing, is_item_removed, enclosed_left, IsEnclosed, IsContainer};
ghost use Rattle.edit_tree.specs.SlotTexts.{AreDecodedAs, StandsAt};
ghost use Rattle.edit_rewrite.specs.Remainders.{SkipsItem, AppendsItem};
ghost use Rattle.edit_tree.specs.WalkState.{IsDecodedAt};

use edit_base::errors::CargoResult;
use edit_document::Step;
use edit_syntax::read::SyntaxToken;
use edit_syntax::read::gaps::past_gap;
use edit_syntax::read::steps::{past_blanks, past_name, past_value};
use edit_tree::nodes::decoded_str;
use edit_tree::token_content::decode_token;
use std::alloc::{AllocError, Global};

/// Whether the input begins with this byte.
pub(crate) fn begins(s: &[u8], b: u8) -> bool
    ensures { result ≡ (reading.first s.now == b) }
{
    s.first().copied().unwrap_or(0) == b
}

/// The input behind its first byte.
pub(crate) fn behind_one(s: &[u8]) -> &[u8]
    ensures { result.now ≡ drop 1 s.now }
{
    match s {
        [_, rest @ ..] => rest,
        [] => s,
    }
}

/// The part of `from` before its suffix `to`.
pub(crate) fn before<'a>(from: &'a [u8], to: &[u8]) -> &'a [u8]
    ensures { result.now ≡ take (length from.now - length to.now) from.now }
{
    let len = from.len().saturating_sub(to.len());
    &from[..len]
}

/// What stays of an array or an inline table, as far as its items are read: the bytes up to the last item
/// that stays, and two ways to continue. If another item stays or a trailing comma follows, the comma behind
/// that item stays too; else it is removed.
#[derive(Drop)]
struct Remainder {
    firm: Vec<u8>,
    with_comma: Vec<u8>,
    without_comma: Vec<u8>,
}

impl Remainder {
    /// Starts with the bytes before the first item.
    fn new(alloc: Global, opening: &[u8]) -> Result<Remainder, AllocError>
        ensures firm { IfOk result (λ r. r.firm.items ≡ opening.now) }
        ensures rest { IfOk result (λ r. (r.with_comma.items ≡ []) × (r.without_comma.items ≡ [])) }
    {
        let mut firm = Vec::new(alloc);
        firm.extend_from_slice(opening)?;
        Ok(Remainder {
            firm,
            with_comma: Vec::new(alloc),
            without_comma: Vec::new(alloc),
        })
    }

    /// Appends an item that stays, and the comma behind it if one is needed.
    fn append_item(&mut self, item: &[u8], comma: &[u8]) -> Result<(), AllocError>
        ensures firm { OnOk result (self.new.firm.items
            ≡ (self.old.firm.items ++ self.old.with_comma.items) ++ item.now) }
        ensures rest { OnOk result ((self.new.with_comma.items ≡ comma.now)
            × (self.new.without_comma.items ≡ [])) }
    {
        self.firm.extend_from_slice(self.with_comma.as_slice())?;
        self.firm.extend_from_slice(item)?;
        self.with_comma.clear();
        self.with_comma.extend_from_slice(comma)?;
        self.without_comma.clear();
        Ok(())
    }

    /// Skips an item that is removed: `behind` is left after its comma, `gap` before it.
    fn skip_item(&mut self, behind: &[u8], gap: &[u8]) -> Result<(), AllocError>
        ensures firm { OnOk result (self.new.firm.items ≡ self.old.firm.items) }
        ensures rest { OnOk result ((self.new.with_comma.items ≡ self.old.with_comma.items ++ behind.now)
            × (self.new.without_comma.items ≡ self.old.without_comma.items ++ gap.now)) }
    {
        self.with_comma.extend_from_slice(behind)?;
        self.without_comma.extend_from_slice(gap)?;
        Ok(())
    }

    /// Appends or skips the item at the front of `rest`; `after` is the input behind the item, `stop` begins
    /// with its comma, and `next` is the next item or the closing bracket.
    fn take(
        &mut self,
        is_gone: bool,
        rest: &[u8],
        after: &[u8],
        stop: &[u8],
        next: &[u8],
    ) -> Result<(), AllocError>
        ensures gone { OnOk result (is_gone ≡ true
            → SkipsItem self.old self.new after.now stop.now next.now) }
        ensures preserved { OnOk result (is_gone ≡ false
            → AppendsItem self.old self.new rest.now stop.now next.now) }
    {
        if is_gone {
            self.skip_item(
                before(past_blanks(behind_one(stop)), next),
                before(after, stop),
            )
        } else {
            self.append_item(before(rest, stop), before(stop, next))
        }
    }

    /// The bytes of the whole value, where the last item stays or is removed and no comma follows it.
    fn end(self, is_gone: bool, rest: &[u8], after: &[u8]) -> Result<Vec<u8>, AllocError>
        ensures { IfOk result (λ v. v.items ≡ (if is_gone
            then (self.firm.items ++ self.without_comma.items) ++ after.now
            else (self.firm.items ++ self.with_comma.items) ++ rest.now)) }
    {
        if is_gone {
            self.finish_without_comma(after)
        } else {
            self.finish_with_comma(rest)
        }
    }

    /// The bytes of the whole value, with a comma before its end.
    fn finish_with_comma(self, end: &[u8]) -> Result<Vec<u8>, AllocError>
        ensures { IfOk result (λ v. v.items ≡ (self.firm.items ++ self.with_comma.items) ++ end.now) }
    {
        let Remainder {
            mut firm,
            with_comma,
            without_comma: _,
        } = self;
        firm.extend_from_slice(with_comma.as_slice())?;
        firm.extend_from_slice(end)?;
        Ok(firm)
    }

    /// The bytes of the whole value, without a comma before its end.
    fn finish_without_comma(self, end: &[u8]) -> Result<Vec<u8>, AllocError>
        ensures { IfOk result (λ v. v.items ≡ (self.firm.items ++ self.without_comma.items) ++ end.now) }
    {
        let Remainder {
            mut firm,
            with_comma: _,
            without_comma,
        } = self;
        firm.extend_from_slice(without_comma.as_slice())?;
        firm.extend_from_slice(end)?;
        Ok(firm)
    }
}

/// The closing brace of a table or bracket of an array.
fn closer(is_table: bool) -> u8
    ensures { result ≡ closing is_table }
{
    if is_table { b'}' } else { b']' }
}

/// Whether a token of a part of a key is the name in a step.
fn is_step(alloc: Global, text: &str, token: SyntaxToken, step: &Step) -> CargoResult<bool>
    ensures { (name : List ℕ) → IsDecodedAt text.now token name
        → MatchResult result (λ b. b ≡ same_step (step_view step.now) (name_step name)) IsMemory }
{
    match step {
        Step::Index(_) => Ok(false),
        Step::Key(key) => {
            let decoded = decode_token(alloc, text, token)?;
            Ok(decoded_str(text, &decoded) == key.as_str())
        }
    }
}

/// Whether a key with these tokens names the place `steps` or one below it.
fn is_named(alloc: Global, text: &str, tokens: &[SyntaxToken], steps: &[Step]) -> CargoResult<bool>
    ensures { (ns : List (List ℕ)) → AreDecodedAs text.now tokens.now ns
        → MatchResult result (λ b. b ≡ is_within (place_view steps.now) (map name_step ns)) IsMemory }
{
    let [step, steps @ ..] = steps else {
        return Ok(true);
    };
    let [token, tokens @ ..] = tokens else {
        return Ok(false);
    };
    if is_step(alloc, text, *token, step)? {
        is_named(alloc, text, tokens, steps)
    } else {
        Ok(false)
    }
}

/// Whether a place is the element at an index.
fn is_element(index: usize, below: &[Step]) -> bool
    ensures { result ≡ same_place (index_step index ∷ []) (place_view below.now) }
{
    match below {
        [Step::Index(other)] => index == *other,
        _ => false,
    }
}

/// Whether the item at the front is to be removed, and the input behind it.
pub(crate) fn past_slot<'a>(
    alloc: Global,
    text: &str,
    s: &'a [u8],
    is_table: bool,
    index: usize,
    below: &[Step],
) -> CargoResult<(bool, &'a [u8])>
    ensures { (it : Slot) (c : List Between) (rest : List ℕ) → StandsAt text.now s.now is_table it c rest
        → MatchResult result (λ r. (r.0 ≡ is_item_removed (place_view below.now) index it)
        × (r.1.now ≡ gap c rest)) IsMemory }
{
    if !is_table {
        let rest = past_value(alloc, s)?;
        return Ok((is_element(index, below), rest));
    }
    let mut tokens = Vec::new(alloc);
    let value = past_name(&mut tokens, s)?;
    let is_gone = is_named(alloc, text, tokens.as_slice(), below)?;
    let rest = past_value(alloc, value)?;
    Ok((is_gone, rest))
}

/// The bytes of an array or an inline table without the element at the place `below`, or without the members
/// at or below it.
fn slots_left(alloc: Global, text: &str, below: &[Step]) -> CargoResult<Vec<u8>>
    ensures { (is_table : Bool) (g : List Between) (ss : Slots) → IsEnclosed is_table g ss text.now
        → MatchResult result (λ v. v.items ≡ enclosed_left is_table (place_view below.now) g ss) IsMemory }
{
    let bytes = text.as_bytes();
    let is_table = begins(bytes, b'{');
    let end = closer(is_table);
    let mut rest = past_gap(behind_one(bytes));
    let mut left = Remainder::new(alloc, before(bytes, rest))?;
    'slots: for index in 0..bytes.len() {
        if begins(rest, end) {
            return Ok(left.finish_with_comma(rest)?);
        }
        let (is_gone, after) = past_slot(alloc, text, rest, is_table, index, below)?;
        let stop = past_gap(after);
        if !begins(stop, b',') {
            return Ok(left.end(is_gone, rest, after)?);
        }
        let next = past_gap(behind_one(stop));
        left.take(is_gone, rest, after, stop, next)?;
        rest = next;
    }
    Ok(left.finish_with_comma(rest)?)
}

/// The bytes of an array or an inline table without the element or the member at the place `below`; it is
/// removed with the comma and white space behind it, or else with the comma before it.
pub(crate) fn value_without(alloc: Global, text: &str, below: &[Step]) -> CargoResult<Vec<u8>>
    ensures { (place : Place) (v : Value) → IsContainer v → IsValue v → depth v ≤ 80
        → text.now ≡ value_text v []
        → MatchResult result
        (λ w. w.items ≡ value_left (place ++ place_view below.now) place v []) IsMemory }
{
    slots_left(alloc, text, below)
}
