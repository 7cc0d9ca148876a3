//! Follows keys on the path to a place.
ghost use Rattle.std.specs.Prelude.{◌≡◌, List, ◌∷◌, IfOk, IfErr, length};
ghost use Rattle.edit_base.specs.Errors.{IsMemory};
ghost use Rattle.edit_tree.specs.Assertions.{Place, key as key_step, index as index_step};
ghost use Rattle.edit_document.specs.Items.{place_view};
ghost use Rattle.edit_tree.specs.Statements.{Named};
ghost use Rattle.edit_rewrite.specs.SearchStates as standings;
ghost use Rattle.edit_rewrite.specs.Entries as entries_seen;
ghost use Rattle.edit_rewrite.specs.PairOffsets as offsets_seen;

use edit_base::errors::CargoResult;
use edit_document::Step;
use edit_syntax::{SyntaxToken, TokenKind};
use edit_tree::nodes::decoded_str;
use edit_tree::token_content::decode_token;
use std::alloc::Global;

/// How far a path leads to a place: to it by a number of steps, below it, or elsewhere.
#[derive(Clone, Copy, PartialEq, Eq)]
pub(crate) enum PathMatch {
    On(usize),
    Below,
    Off,
}

/// Whether a path leads exactly to the place.
pub(crate) fn is_at(way: PathMatch, place: &[Step]) -> bool
    ensures { result ≡ entries_seen.is_at (length (place_view place.now)) way }
{
    match way {
        PathMatch::On(done) => done == place.len(),
        PathMatch::Below | PathMatch::Off => false,
    }
}

/// Whether a path leads to the place or below it.
pub(crate) fn is_at_or_below(way: PathMatch, place: &[Step]) -> bool
    ensures { result ≡ entries_seen.is_at_or_below (length (place_view place.now)) way }
{
    match way {
        PathMatch::On(done) => done == place.len(),
        PathMatch::Below => true,
        PathMatch::Off => false,
    }
}

/// The path extended by the key of a member.
pub(crate) fn step_by_key(way: PathMatch, place: &[Step], name: &str) -> PathMatch
    ensures { result ≡ entries_seen.extend_path_match (place_view place.now) way (key_step name.now) }
{
    match way {
        PathMatch::On(done) => {
            if done >= place.len() {
                return PathMatch::Below;
            }
            match &place[done] {
                Step::Key(key) => {
                    if name == key.as_str() {
                        PathMatch::On(done + 1)
                    } else {
                        PathMatch::Off
                    }
                }
                Step::Index(_) => PathMatch::Off,
            }
        }
        PathMatch::Below => PathMatch::Below,
        PathMatch::Off => PathMatch::Off,
    }
}

/// The path extended by the index of an element.
pub(crate) fn step_by_index(way: PathMatch, place: &[Step], number: usize) -> PathMatch
    ensures { result ≡ entries_seen.extend_path_match (place_view place.now) way (index_step number) }
{
    match way {
        PathMatch::On(done) => {
            if done >= place.len() {
                return PathMatch::Below;
            }
            match &place[done] {
                Step::Key(_) => PathMatch::Off,
                Step::Index(index) => {
                    if *index == number {
                        PathMatch::On(done + 1)
                    } else {
                        PathMatch::Off
                    }
                }
            }
        }
        PathMatch::Below => PathMatch::Below,
        PathMatch::Off => PathMatch::Off,
    }
}

/// The number of elements so far of the array of tables that a path has reached.
pub(crate) fn count_on(way: PathMatch, counts: &[usize]) -> usize
    ensures { result ≡ entries_seen.count_on counts.now way }
{
    match way {
        PathMatch::On(done) => { if done < counts.len() { counts[done] } else { 0 } }
        PathMatch::Below | PathMatch::Off => 0,
    }
}

/// Extends a path that reaches an array of tables to its last element, as headers do (TOML 1.0.0, "Array of
/// Tables").
pub(crate) fn step_to_last_element(way: PathMatch, place: &[Step], counts: &[usize]) -> PathMatch
    ensures { result ≡ entries_seen.last_element_match (place_view place.now) counts.now way }
{
    let count = count_on(way, counts);
    if count > 0 {
        step_by_index(way, place, count - 1)
    } else {
        way
    }
}

/// Whether a token is a part of a key.
fn is_part(kind: TokenKind) -> bool
    ensures { result ≡ entries_seen.is_part kind }
{
    match kind {
        TokenKind::BarePart | TokenKind::BasicPart | TokenKind::LiteralPart => true,
        _ => false,
    }
}

/// Whether the first token is a part of a key.
fn begins_part(tokens: &[SyntaxToken]) -> bool
    ensures { result ≡ entries_seen.begins_part tokens.now }
{
    match tokens.first() {
        Some(token) => is_part(token.kind),
        None => false,
    }
}

/// The path extended by a key, and the offset behind the part of the key that reaches the place, where the
/// key goes on.
pub(crate) fn follow_key(
    alloc: Global,
    text: &str,
    place: &[Step],
    tokens: &[SyntaxToken],
    start: PathMatch,
    counts: &[usize],
) -> CargoResult<(PathMatch, Option<usize>)>
    ensures goes { (table : Place) (resolve : Place → Place) (n : Named) (ns : List Named)
        → entries_seen.AreParts text.now (n ∷ ns) tokens.now
        → entries_seen.Follows (place_view place.now) counts.now resolve
        → start ≡ entries_seen.path_match (place_view place.now) table
        → IfOk result (entries_seen.FollowsKey (place_view place.now) resolve table (n ∷ ns)) }
    ensures error { IfErr result IsMemory }
{
    if tokens.is_empty() {
        return Ok((start, None));
    }
    let token = tokens[0];
    let decoded = decode_token(alloc, text, token)?;
    let here = step_by_key(start, place, decoded_str(text, &decoded));
    let others = &tokens[1..];
    if !begins_part(others) {
        return Ok((here, None));
    }
    let next = step_to_last_element(here, place, counts);
    let (end, front) = follow_key(alloc, text, place, others, next, counts)?;
    if is_at(next, place) {
        Ok((end, Some(token.to as usize)))
    } else {
        Ok((end, front))
    }
}

/// The kind of the first token that is not a part of a key.
fn kind_after_key(tokens: &[SyntaxToken]) -> Option<TokenKind>
    ensures { result ≡ entries_seen.kind_after_key tokens.now }
{
    'tokens: for token in tokens {
        if !is_part(token.kind) {
            return Some(token.kind);
        }
    }
    None
}

/// The offset of the first token, counted from the end of the text.
pub(crate) fn first_from(tokens: &[SyntaxToken]) -> usize
    ensures { result ≡ entries_seen.first_from tokens.now }
{
    match tokens.first() {
        Some(token) => token.from as usize,
        None => 0,
    }
}

/// Whether the key at the front is that of a header `[key]`.
pub(crate) fn is_table_header_next(tokens: &[SyntaxToken]) -> bool
    ensures { result ≡ standings.is_table_header_next (entries_seen.kind_after_key tokens.now) }
{
    match kind_after_key(tokens) {
        Some(TokenKind::Header) => true,
        _ => false,
    }
}

/// Whether the key at the front is that of a header `[[key]]`.
pub(crate) fn is_element_header_next(tokens: &[SyntaxToken]) -> bool
    ensures { result ≡ standings.is_element_header_next (entries_seen.kind_after_key tokens.now) }
{
    match kind_after_key(tokens) {
        Some(TokenKind::ElementHeader) => true,
        _ => false,
    }
}

/// The offset behind the last part of the key at the front, counted from the end of the text.
pub(crate) fn key_end(tokens: &[SyntaxToken]) -> usize
    ensures { result ≡ offsets_seen.key_end 0 tokens.now }
{
    let mut end = 0;
    'tokens: for token in tokens {
        if !is_part(token.kind) {
            return end;
        }
        end = token.to as usize;
    }
    end
}
