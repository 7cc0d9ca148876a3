//! Replaces values by string literals.
ghost use Rattle.std.specs.Prelude.{◌≡◌, ◌≤◌, ◌+◌, IfOk, IfErr, length, true, map, string_bytes};
ghost use Rattle.edit_base.specs.Errors.{IsMemory};
ghost use Rattle.edit_syntax.specs.Grammar.{Text, text as text_of};
ghost use Rattle.edit_document.specs.Forms.{IfDocument};
ghost use Rattle.edit_document.specs.Items.{place_view};
ghost use Rattle.edit_tree.specs.Literals.{literal_bytes};
ghost use Rattle.edit_tree.specs.Pieces.{IsAmong, IsSwapped};
ghost use Rattle.edit_document.specs.Ranges.{one_edit, edit_views};
ghost use Rattle.edit_tree.specs.Replaces.{Edits, replaced, tree_with_strings, tree_without_below, AreValues, AreDistinct, AreOutside, Replaces};
ghost use Rattle.edit_tree.specs.Assertions.{Place as PlaceSeen};
ghost use Rattle.edit_tree.specs.DocumentViews.{tree_of};
ghost use Rattle.edit_document.specs.Splices.{range_of, spliced, AreInOrder, IsRangeFor, Locates};
ghost use Rattle.edit_tree.specs.Tree.{is_value_at, view_at};

use crate::document::Document;
use crate::literal::push_literal;
use edit_base::errors::CargoResult;
use edit_tree::{Place, Step};
use std::alloc::Global;

/// A replacement for the value in the byte range from `start` to `end`.
#[derive(Clone, Copy)]
pub(crate) struct Rewrite<'a> {
    pub(crate) start: usize,
    pub(crate) end: usize,
    pub(crate) text: &'a str,
}

/// Returns the text with each range replaced by the string literal of its new text, in one pass.
pub(crate) fn splice(alloc: Global, text: &str, rewrites: &[Rewrite<'_>]) -> CargoResult<String>
    requires { AreInOrder text.now 0 (map range_of rewrites.now) }
    ensures text { IfOk result (λ s. string_bytes s ≡ spliced text.now 0 (map range_of rewrites.now)) }
    ensures error { IfErr result IsMemory }
{
    let mut out = String::with_capacity(alloc, text.len())?;
    let mut at = 0;
    for rewrite in rewrites {
        out.push_str(&text[at..rewrite.start])?;
        push_literal(&mut out, rewrite.text)?;
        at = rewrite.end;
    }
    out.push_str(&text[at..])?;
    Ok(out)
}

/// Returns the text with the range of each edit replaced by a string literal; the ranges may be in any order.
pub(crate) fn splice_unordered(
    alloc: Global,
    source: &str,
    rewrites: &mut [Rewrite<'_>],
) -> CargoResult<String>
    requires { (form : Text) × (edits : Edits) × Locates source.now form edits (map range_of rewrites.old) }
    ensures text { (form : Text) → (edits : Edits)
        → Locates source.now form edits (map range_of rewrites.old)
        → IfOk result (λ s. string_bytes s ≡ text_of (replaced edits form)) }
    ensures error { IfErr result IsMemory }
{
    rewrites.sort_unstable_by_key(|rewrite| rewrite.start);
    splice(alloc, source, rewrites)
}

impl Document {
    /// Whether a value is written at a place, as the value of a pair or as an element of an array.
    pub fn is_value(&self, place: &[Step]) -> bool
        ensures { IfDocument self.now.bytes (λ form. result ≡ is_value_at form (place_view place.now)) }
    {
        self.value_range(place).is_some()
    }

    /// The replacement of the value at a place.
    fn rewrite_of<'a>(&self, place: &[Step], text: &'a str) -> Rewrite<'a>
        requires { IfDocument self.now.bytes (λ form. is_value_at form (place_view place.now) ≡ true) }
        ensures { IfDocument self.now.bytes (λ form. IsRangeFor form
            (record { 0 = place_view place.now; 1 = text.now }) (range_of result)) }
    {
        self.lemma_form();
        match self.value_range(place) {
            Some((start, end)) => Rewrite { start, end, text },
            None => unreachable!(),
        }
    }

    /// The document's text with the value at a place replaced by a string literal, and the byte range of that
    /// literal.
    fn with_literal(
        &self,
        alloc: Global,
        place: &[Step],
        text: &str,
    ) -> CargoResult<(String, (usize, usize))>
        requires is_value { IfDocument self.now.bytes (λ form. is_value_at form (place_view place.now)
            ≡ true) }
        ensures replaces { IfOk result (λ r.
            Replaces (one_edit (place_view place.now) text.now) self.now.bytes (string_bytes r.0)) }
        ensures swapped { IfOk result (λ r.
            IsSwapped self.now.bytes (literal_bytes text.now) (string_bytes r.0) r.1) }
        ensures error { IfErr result IsMemory }
    {
        self.lemma_form();
        match self.value_range(place) {
            Some((start, end)) => {
                let new = splice(alloc, self.as_str(), &[Rewrite { start, end, text }])?;
                let behind = self.as_str().len() - end;
                let written = (start, new.as_str().len() - behind);
                Ok((new, written))
            }
            None => unreachable!(),
        }
    }

    /// The document's text with the values at several places replaced by string literals. The places may be
    /// in any order; none may lie inside another.
    pub fn with_literals(&self, alloc: Global, edits: &[(Place, String)]) -> CargoResult<String>
        requires values { IfDocument self.now.bytes (λ form. AreValues (edit_views edits.now) form) }
        requires distinct { AreDistinct (edit_views edits.now) }
        requires outside { AreOutside (edit_views edits.now) }
        ensures bytes { IfOk result (λ s. IfDocument self.now.bytes (λ form. string_bytes s ≡ text_of
            (replaced (edit_views edits.now) form))) }
        ensures replaces { IfOk result (λ s.
            Replaces (edit_views edits.now) self.now.bytes (string_bytes s)) }
        ensures tree { IfOk result (λ s. IfDocument (string_bytes s) (λ form. (at : PlaceSeen)
            → let edits = edit_views edits.now in
            view_at form at ≡ tree_with_strings edits (tree_without_below edits (tree_of self.now)) at)) }
        ensures error { IfErr result IsMemory }
    {
        self.lemma_form();
        let mut rewrites = Vec::with_capacity(alloc, edits.len())?;
        for edit in edits {
            rewrites.push(self.rewrite_of(&edit.0, edit.1.as_str()))?;
        }
        splice_unordered(alloc, self.as_str(), &mut rewrites)
    }

    /// Replaces the value at a place by a string literal, which becomes a piece of the text. On an error the
    /// document is unchanged.
    pub fn set_literal(&mut self, alloc: Global, place: &[Step], text: &str) -> CargoResult<()>
        requires is_value { IfDocument self.old.bytes (λ form. is_value_at form (place_view place.now)
            ≡ true) }
        ensures bytes { IfOk result (λ _.
            Replaces (one_edit (place_view place.now) text.now) self.old.bytes self.new.bytes) }
        ensures tree { IfOk result (λ _. (at : PlaceSeen)
            → let edit = one_edit (place_view place.now) text.now in
            tree_of self.new at ≡ tree_with_strings edit (tree_without_below edit (tree_of self.old)) at) }
        ensures piece { IfOk result (λ _. IsAmong (literal_bytes text.now) self.new.pieces) }
        ensures pieces { IfOk result (λ _. length self.new.pieces ≤ length self.old.pieces + 2) }
        ensures err { IfErr result (λ _. self.new ≡ self.old) }
        ensures error { IfErr result IsMemory }
    {
        self.lemma_form();
        self.lemma_pieces();
        let (new_text, written) = self.with_literal(alloc, place, text)?;
        let new = Document::read(alloc, new_text.as_str())?;
        *self = new.with_last_edit(written);
        Ok(())
    }
}
