//! The text of a document after an item is removed.
ghost use Rattle.std.specs.Prelude.{◌≡◌, ◌++◌, [], Some, None, IfOk, IfErr, string_bytes};
ghost use Rattle.std.specs.Bool.{Decides};
ghost use Rattle.edit_base.specs.Errors.{IsMemory};
ghost use Rattle.edit_syntax.specs.Grammar.{Value, value, IsValue, lines, byte_order_mark};
ghost use Rattle.edit_tree.specs.EditBytes.{with_splice};
ghost use Rattle.edit_document.specs.Forms.{Becomes, IfDocument};
ghost use Rattle.edit_document.specs.Items.{place_view};
ghost use Rattle.edit_tree.specs.RemovedBytes.{lines_left, value_left, removed_text};
ghost use Rattle.edit_rewrite.specs.RemoveText.{HasAround, StandsBetween};
ghost use Rattle.edit_tree.specs.Slots.{IsContainer};
ghost use Rattle.edit_tree.specs.Statements.{placed_statements};
ghost use Rattle.edit_tree.specs.Written.{PlacedValue};

use crate::inside::{begins, value_without};
use crate::locate::entries;
use edit_base::errors::CargoResult;
use edit_document::{Document, Step};
use edit_syntax::skip_byte_order_mark;
use edit_tree::cut::between;
use std::alloc::Global;

/// The text without the statements that name the place or one below it, each with the blank and comment lines
/// before it.
fn without_lines(alloc: Global, text: &str, place: &[Step]) -> CargoResult<String>
    ensures text { IfDocument text.now (λ form. IfOk result (λ t. string_bytes t
        ≡ byte_order_mark form.has_byte_order_mark (lines_left (place_view place.now) (lines form.lines)
        (placed_statements form)))) }
    ensures error { IfErr result IsMemory }
{
    let all = entries(alloc, text, place)?;
    let found = all.as_slice();
    let mut from = skip_byte_order_mark(text.as_bytes()).len();
    let mut out = String::from_str(alloc, between(text, text.len(), from))?;
    'entries: for entry in found {
        let to = if entry.is_within { from } else { entry.next };
        out.push_str(between(text, from, to))?;
        from = entry.next;
    }
    out.push_str(between(text, from, 0))?;
    Ok(out)
}

/// A value around a place: the number of steps to it, and the offsets of its start and end, counted from the
/// end of the text.
#[derive(Clone, Copy)]
pub(crate) struct Around {
    pub(crate) steps: usize,
    pub(crate) from: usize,
    pub(crate) to: usize,
}

/// The text with the range between two offsets, counted from its end, replaced by `now`.
fn with_part(alloc: Global, text: &str, from: usize, to: usize, now: &str) -> CargoResult<String>
    ensures text { (w : PlacedValue) → StandsBetween text.now w from to
        → IfOk result (λ t. string_bytes t ≡ with_splice text.now
        (record { from = value w.value w.after; to = w.after; now = now.now })) }
    ensures error { IfErr result IsMemory }
{
    let mut out = String::new(alloc);
    out.push_str(between(text, text.len(), from))?;
    out.push_str(now)?;
    out.push_str(between(text, to, 0))?;
    Ok(out)
}

/// Whether the text of a value is an array or an inline table.
fn is_container(written: &[u8]) -> bool
    ensures { (v : Value) → IsValue v → written.now ≡ value v [] → Decides result (IsContainer v) }
{
    begins(written, b'[') || begins(written, b'{')
}

/// The text where the array or inline table between two offsets, counted from the end of the text, loses the
/// element at the place `below` it, or the members at or below that place.
fn without_members(
    alloc: Global,
    text: &str,
    from: usize,
    to: usize,
    below: &[Step],
) -> CargoResult<String>
    requires stands { (w : PlacedValue) × StandsBetween text.now w from to }
    ensures text { (w : PlacedValue) → StandsBetween text.now w from to
        → IfOk result (λ t. string_bytes t ≡ with_splice text.now (record {
          from = value w.value w.after;
          to = w.after;
          now = value_left (w.place ++ place_view below.now) w.place w.value [];
        })) }
    ensures error { IfErr result IsMemory }
{
    let old = between(text, from, to);
    if !is_container(old.as_bytes()) {
        return with_part(alloc, text, from, to, old);
    }
    match String::from_utf8(value_without(alloc, old, below)?) {
        Ok(new) => with_part(alloc, text, from, to, new.as_str()),
        Err(_) => unreachable!(),
    }
}

/// The innermost array or inline table around a place.
fn value_around(document: &Document, place: &[Step]) -> Option<Around>
    ensures { IfDocument document.now.bytes (λ form. HasAround form (place_view place.now) result) }
{
    let [above @ .., _] = place else {
        return None;
    };
    match document.value_range(above) {
        Some((start, end)) => Some(Around {
            steps: above.len(),
            from: document.as_str().len().saturating_sub(start),
            to: document.as_str().len().saturating_sub(end),
        }),
        None => value_around(document, above),
    }
}

/// The document's text without the item at a place; unchanged where no item is there.
pub fn without_item(document: &Document, alloc: Global, place: &[Step]) -> CargoResult<String>
    ensures text { IfOk result (λ t. Becomes document.now.bytes (removed_text (place_view place.now))
        (string_bytes t)) }
    ensures error { IfErr result IsMemory }
{
    document.lemma_form();
    match value_around(document, place) {
        Some(around) => {
            let below = &place[around.steps..];
            without_members(alloc, document.as_str(), around.from, around.to, below)
        }
        None => without_lines(alloc, document.as_str(), place),
    }
}
