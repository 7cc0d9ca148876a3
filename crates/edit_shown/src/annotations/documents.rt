//! The documents of inputs, read again one after another.
ghost use Rattle.std.specs.Prelude.{◌≡◌, IfErr, IfOk};
ghost use Rattle.edit_base.specs.Errors.{IsMemory};
ghost use Rattle.edit_document.specs.Items.{place_view};
ghost use Rattle.edit_shown.specs.Annotations.{bytes_at};
ghost use Rattle.edit_shown.specs.InputDocuments.{IsDocumentFor, IsDocumentOf, IsRead};
ghost use Rattle.edit_shown.specs.RequirementLines.{requirement_line};

use crate::annotations::lines::{FIRST, LineAt, line_at, start_of};
use edit_base::{CargoResult, Error};
use edit_document::{Document, Step};
use edit_manifest::Manifest;
use edit_metadata::Input;
use std::alloc::{AllocError, Global};

/// The document of an input; `None` where its bytes are none.
#[derive(Drop)]
pub(crate) struct InputDocument {
    /// The index of the input, from 0.
    pub(crate) input: usize,
    pub(crate) document: Option<Document>,
    /// The line that was counted last.
    pub(crate) last: LineAt,
}

/// The bytes of the input at this index; empty where there is none.
pub(crate) fn bytes_at(inputs: &[Input], i: usize) -> &[u8]
    ensures { result.now ≡ bytes_at inputs.now i }
{
    match inputs.get(i) {
        Some(input) => input.bytes.as_slice(),
        None => &[],
    }
}

/// The document with these bytes; `None` where they are none.
fn document_of(alloc: Global, bytes: &[u8]) -> Result<Option<Document>, AllocError>
    ensures { IfOk result (IsDocumentFor bytes.now) }
{
    match Manifest::read_bytes(alloc, bytes) {
        Ok(manifest) => {
            let Manifest { document } = manifest;
            Ok(Some(document))
        }
        Err(error) => {
            if error.number() == Error::Memory.number() {
                return Err(AllocError);
            }
            Ok(None)
        }
    }
}

/// The document of the input at this index.
pub(crate) fn read_input(
    alloc: Global,
    inputs: &[Input],
    i: usize,
) -> Result<InputDocument, AllocError>
    ensures input { IfOk result (λ d. d.input ≡ i) }
    ensures is { IfOk result (IsDocumentOf inputs.now) }
{
    let document = document_of(alloc, bytes_at(inputs, i))?;
    Ok(InputDocument {
        input: i,
        document,
        last: FIRST,
    })
}

/// The document of the input at this index: the last one, where it is that of this input.
pub(crate) fn next_document(
    alloc: Global,
    inputs: &[Input],
    i: usize,
    last: InputDocument,
) -> Result<InputDocument, AllocError>
    requires { IsDocumentOf inputs.now last }
    ensures input { IfOk result (λ d. d.input ≡ i) }
    ensures is { IfOk result (IsDocumentOf inputs.now) }
{
    if last.input == i {
        return Ok(last);
    }
    read_input(alloc, inputs, i)
}

/// The line on which the requirement of the entry at a place begins, in a document with these bytes; `None`
/// where there is none.
pub(crate) fn requirement_line(
    alloc: Global,
    bytes: &[u8],
    own: &mut InputDocument,
    entry: &[Step],
) -> CargoResult<Option<usize>>
    requires { IsRead bytes.now own.old }
    ensures line { IfOk result (λ o. o ≡ requirement_line bytes.now (place_view entry.now)) }
    ensures read { IsRead bytes.now own.new }
    ensures input { own.new.input ≡ own.old.input }
    ensures error { IfErr result IsMemory }
{
    let start = start_of(alloc, &own.document, entry)?;
    let Some(start) = start else {
        return Ok(None);
    };
    own.last = line_at(bytes, own.last, start);
    Ok(Some(own.last.line))
}
