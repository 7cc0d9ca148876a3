//! Locates the statements of a text and relates each of them to a place.
ghost use Rattle.std.specs.Prelude.{◌≡◌, [], ◌++◌, true, IfOk, IfErr, map};
ghost use Rattle.edit_base.specs.Errors.{IsMemory};
ghost use Rattle.edit_tree.specs.Assertions.{of_statement, prefix_after};
ghost use Rattle.edit_document.specs.Forms.{IfDocument};
ghost use Rattle.edit_document.specs.Items.{place_view};
ghost use Rattle.edit_tree.specs.Statements.{PlacedStatement, placed_statements};
ghost use Rattle.edit_tree.specs.EditBytes.{is_pair};
ghost use Rattle.edit_rewrite.specs.SearchStates.{IsSearchState, IsTokenized, is_table_header, is_element_header};
ghost use Rattle.edit_rewrite.specs.Entries as entries_seen;

use crate::path_matching::{
    PathMatch, count_on, first_from, follow_key, is_at, is_at_or_below, is_element_header_next,
    is_table_header_next, step_by_index,
};
use edit_base::errors::{CargoResult, Error};
use edit_document::Step;
use edit_syntax::{SyntaxToken, first_line, next_line, skip_byte_order_mark};
use std::alloc::Global;

/// A statement and its relation to a place. Offsets are counted from the end of the text.
#[derive(Clone, Copy)]
pub(crate) struct Entry {
    /// Whether it is the header of the place or a pair below that header.
    pub(crate) is_own: bool,
    /// Whether it names the place or one below it.
    pub(crate) is_within: bool,
    pub(crate) is_header: bool,
    /// The offset behind the part of its key that reaches the place, where the key goes on from there.
    pub(crate) front: Option<usize>,
    /// The offsets of its line, its key, the end of its line, and the next line.
    pub(crate) line: usize,
    pub(crate) key: usize,
    pub(crate) after: usize,
    pub(crate) next: usize,
}

/// Counts one more element in the array of tables that a path has reached.
fn count_more(counts: &mut Vec<usize>, way: PathMatch) -> CargoResult<()>
    ensures counted { IfOk result (λ _. counts.new.items ≡ entries_seen.counted way counts.old.items) }
    ensures error { IfErr result IsMemory }
{
    let PathMatch::On(done) = way else {
        return Ok(());
    };
    if done >= counts.len() {
        return Ok(());
    }
    let Some(more) = counts[done].checked_add(1) else {
        return Err(Error::Memory);
    };
    counts[done] = more;
    Ok(())
}

/// The offsets of a statement, counted from the end of the text: of its line, its key, the end of its line,
/// and the next line.
#[derive(Clone, Copy)]
struct StatementOffsets {
    line: usize,
    key: usize,
    after: usize,
    next: usize,
}

impl StatementOffsets {
    /// The statement at these offsets with its relation to a place.
    fn entry(self, is_own: bool, is_within: bool, is_header: bool, front: Option<usize>) -> Entry
        ensures { result ≡ record {
          is_own = is_own;
          is_within = is_within;
          is_header = is_header;
          front = front;
          line = self.line;
          key = self.key;
          after = self.after;
          next = self.next;
        } }
    {
        Entry {
            is_own,
            is_within,
            is_header,
            front,
            line: self.line,
            key: self.key,
            after: self.after,
            next: self.next,
        }
    }
}

/// The state after some statements: how far the last header leads to the place, and the number of elements of
/// each array of tables on the path to it, by number of steps.
#[derive(Drop)]
struct SearchState {
    prefix: PathMatch,
    counts: Vec<usize>,
}

impl SearchState {
    /// The state before the first statement.
    fn new(alloc: Global, place: &[Step]) -> CargoResult<SearchState>
        ensures none { IfOk result (λ s. IsSearchState (place_view place.now) [] [] s) }
        ensures error { IfErr result IsMemory }
    {
        let mut counts = Vec::new(alloc);
        'steps: for _step in 0..place.len() + 1 {
            counts.push(0)?;
        }
        Ok(SearchState {
            prefix: PathMatch::On(0),
            counts,
        })
    }

    /// Relates a pair to the place.
    fn take_pair(
        &self,
        alloc: Global,
        text: &str,
        place: &[Step],
        tokens: &[SyntaxToken],
        offsets: StatementOffsets,
    ) -> CargoResult<Entry>
        ensures taken { (s : PlacedStatement) → is_pair s.statement ≡ true
            → IsTokenized text.now tokens.now s offsets
            → IsSearchState (place_view place.now) s.earlier s.prefix self.now
            → IfOk result (λ e. (e ≡ entries_seen.entry_of (place_view place.now) s)
            × IsSearchState (place_view place.now) (s.earlier ++ of_statement s.earlier s.prefix s.statement)
            (prefix_after s.earlier s.prefix s.statement) self.now) }
        ensures error { IfErr result IsMemory }
    {
        let (named, front) = follow_key(alloc, text, place, tokens, self.prefix, &[])?;
        Ok(offsets.entry(
            is_at(self.prefix, place),
            is_at_or_below(named, place),
            false,
            front,
        ))
    }

    /// Relates a header `[key]` to the place.
    fn take_header(
        &mut self,
        alloc: Global,
        text: &str,
        place: &[Step],
        tokens: &[SyntaxToken],
        offsets: StatementOffsets,
    ) -> CargoResult<Entry>
        ensures taken { (s : PlacedStatement) → is_table_header s.statement ≡ true
            → IsTokenized text.now tokens.now s offsets
            → IsSearchState (place_view place.now) s.earlier s.prefix self.old
            → IfOk result (λ e. (e ≡ entries_seen.entry_of (place_view place.now) s)
            × IsSearchState (place_view place.now) (s.earlier ++ of_statement s.earlier s.prefix s.statement)
            (prefix_after s.earlier s.prefix s.statement) self.new) }
        ensures error { IfErr result IsMemory }
    {
        let (named, front) = follow_key(
            alloc,
            text,
            place,
            tokens,
            PathMatch::On(0),
            &self.counts,
        )?;
        self.prefix = named;
        Ok(offsets.entry(
            is_at(named, place),
            is_at_or_below(named, place),
            true,
            front,
        ))
    }

    /// Relates a header `[[key]]` to the place.
    fn take_element(
        &mut self,
        alloc: Global,
        text: &str,
        place: &[Step],
        tokens: &[SyntaxToken],
        offsets: StatementOffsets,
    ) -> CargoResult<Entry>
        ensures taken { (s : PlacedStatement) → is_element_header s.statement ≡ true
            → IsTokenized text.now tokens.now s offsets
            → IsSearchState (place_view place.now) s.earlier s.prefix self.old
            → IfOk result (λ e. (e ≡ entries_seen.entry_of (place_view place.now) s)
            × IsSearchState (place_view place.now) (s.earlier ++ of_statement s.earlier s.prefix s.statement)
            (prefix_after s.earlier s.prefix s.statement) self.new) }
        ensures error { IfErr result IsMemory }
    {
        let (named, front) = follow_key(
            alloc,
            text,
            place,
            tokens,
            PathMatch::On(0),
            &self.counts,
        )?;
        let element = step_by_index(named, place, count_on(named, &self.counts));
        count_more(&mut self.counts, named)?;
        self.prefix = element;
        Ok(offsets.entry(
            is_at(element, place),
            is_at_or_below(element, place),
            true,
            front,
        ))
    }

    /// Relates the next statement to the place.
    fn take(
        &mut self,
        alloc: Global,
        text: &str,
        place: &[Step],
        tokens: &[SyntaxToken],
        offsets: StatementOffsets,
    ) -> CargoResult<Entry>
        ensures taken { (s : PlacedStatement) → IsTokenized text.now tokens.now s offsets
            → IsSearchState (place_view place.now) s.earlier s.prefix self.old
            → IfOk result (λ e. (e ≡ entries_seen.entry_of (place_view place.now) s)
            × IsSearchState (place_view place.now) (s.earlier ++ of_statement s.earlier s.prefix s.statement)
            (prefix_after s.earlier s.prefix s.statement) self.new) }
        ensures error { IfErr result IsMemory }
    {
        if is_table_header_next(tokens) {
            return self.take_header(alloc, text, place, tokens, offsets);
        }
        if is_element_header_next(tokens) {
            return self.take_element(alloc, text, place, tokens, offsets);
        }
        self.take_pair(alloc, text, place, tokens, offsets)
    }
}

/// The statements of a text in order, each with its relation to a place.
pub(crate) fn entries(alloc: Global, text: &str, place: &[Step]) -> CargoResult<Vec<Entry>>
    ensures found { IfDocument text.now (λ form. IfOk result (λ v. v.items ≡ map (entries_seen.entry_of
        (place_view place.now)) (placed_statements form))) }
    ensures error { IfErr result IsMemory }
{
    let mut found = Vec::new(alloc);
    let mut standing = SearchState::new(alloc, place)?;
    let mut tokens = Vec::new(alloc);
    let mut rest = skip_byte_order_mark(text.as_bytes());
    'lines: for _line in 0..text.len() + 1 {
        tokens.clear();
        let Ok(after) = first_line(&mut tokens, rest) else {
            return Err(Error::Memory);
        };
        let next = next_line(after);
        let seen = tokens.as_slice();
        if !seen.is_empty() {
            let offsets = StatementOffsets {
                line: rest.len(),
                key: first_from(seen),
                after: after.len(),
                next: next.len(),
            };
            found.push(standing.take(alloc, text, place, seen, offsets)?)?;
        }
        if after.is_empty() {
            return Ok(found);
        }
        rest = next;
    }
    Err(Error::Memory)
}
