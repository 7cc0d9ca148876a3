//! The lines of requirements in the text of their manifest.
ghost use Rattle.std.specs.Prelude.{◌≡◌, ◌≤◌, ◌==◌, ℕ, List, IfErr, IfOk, count_by, length, option_map};
ghost use Rattle.edit_base.specs.Errors.{IsMemory};
ghost use Rattle.edit_document.specs.Forms.{IfDocument};
ghost use Rattle.edit_document.specs.Items.{place_view};
ghost use Rattle.edit_shown.specs.InputDocuments.{IsDocumentFor, IsLineAt};
ghost use Rattle.edit_shown.specs.RequirementLines as spec;

use edit_base::CargoResult;
use edit_document::{Document, Step, member_place};
use std::alloc::Global;

/// The line, from 1, of the byte at an offset.
#[derive(Clone, Copy)]
pub(crate) struct LineAt {
    pub(crate) at: usize,
    pub(crate) line: usize,
}

/// The line of the first byte.
pub(crate) const FIRST: LineAt = LineAt { at: 0, line: 1 };

/// The number of line feeds in a text.
fn count_line_feeds(bytes: &[u8]) -> usize
    ensures { result ≡ count_by (λ b. b == 10) bytes.now }
{
    bytes.iter().filter(|byte| **byte == b'\n').count()
}

/// The line of the byte at an offset, counted on from the line of a byte that is not behind it.
fn line_from(bytes: &[u8], from: LineAt, at: usize) -> usize
    requires line { IsLineAt bytes.now from }
    requires before { from.at ≤ at }
    ensures { result ≡ spec.line_number bytes.now at }
{
    let before = &bytes[..at.min(bytes.len())];
    let between = &before[from.at.min(before.len())..];
    from.line + count_line_feeds(between)
}

/// The line of the byte at an offset, counted on from a known line where that is not behind it.
pub(crate) fn line_at(bytes: &[u8], last: LineAt, at: usize) -> LineAt
    requires { IsLineAt bytes.now last }
    ensures line { IsLineAt bytes.now result }
    ensures at { result.at ≡ at }
{
    let from = if last.at <= at { last } else { FIRST };
    LineAt {
        at,
        line: line_from(bytes, from, at),
    }
}

/// The offset at which the value at a place begins; `None` where no value is written there.
fn value_start(document: &Document, place: &[Step]) -> Option<usize>
    ensures { IfDocument document.now.bytes (λ form. result
        ≡ spec.value_start form (length document.now.bytes) (place_view place.now)) }
{
    match document.value_range(place) {
        Some(range) => Some(range.0),
        None => None,
    }
}

/// The offset at which the requirement of the entry at a place begins: that of its member `version`, else
/// that of the entry itself.
fn requirement_start(
    alloc: Global,
    document: &Document,
    entry: &[Step],
) -> CargoResult<Option<usize>>
    ensures ok { IfOk result (λ o. IfDocument document.now.bytes (λ form. o
        ≡ spec.requirement_start form (length document.now.bytes) (place_view entry.now))) }
    ensures error { IfErr result IsMemory }
{
    let version = member_place(alloc, entry, "version")?;
    match value_start(document, &version) {
        Some(start) => Ok(Some(start)),
        None => Ok(value_start(document, entry)),
    }
}

/// The offset at which the requirement of the entry at a place of a document begins.
fn start_in(alloc: Global, document: &Document, entry: &[Step]) -> CargoResult<Option<usize>>
    ensures ok { IfOk result (λ o. option_map (spec.line_number document.now.bytes) o
        ≡ spec.requirement_line document.now.bytes (place_view entry.now)) }
    ensures error { IfErr result IsMemory }
{
    document.lemma_form();
    let _text = document.as_str();
    let start = requirement_start(alloc, document, entry)?;
    Ok(start)
}

/// The offset at which the requirement of the entry at a place begins; `None` where there is no document.
pub(crate) fn start_of(
    alloc: Global,
    document: &Option<Document>,
    entry: &[Step],
) -> CargoResult<Option<usize>>
    ensures ok { IfOk result (λ o. (bytes : List ℕ) → IsDocumentFor bytes document.now
        → option_map (spec.line_number bytes) o ≡ spec.requirement_line bytes (place_view entry.now)) }
    ensures error { IfErr result IsMemory }
{
    match document {
        Some(document) => start_in(alloc, document, entry),
        None => Ok(None),
    }
}
