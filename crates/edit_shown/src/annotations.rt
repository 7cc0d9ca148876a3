//! Annotations of GitHub Actions for the requirements of an upgrade.
ghost use Rattle.std.specs.Prelude.{◌≡◌, ◌++◌, IfErr, IfOk, OnOk, string_bytes};
ghost use Rattle.edit_base.specs.Errors.{IsMemory};
ghost use Rattle.edit_shown.specs.Annotations as spec;
ghost use Rattle.edit_shown.specs.InputDocuments.{IsDocumentOf};
ghost use Rattle.edit_shown.specs.Messages.{path_at};

mod documents;
mod escapes;
mod lines;
mod texts;

use crate::annotations::documents::{
    InputDocument, bytes_at, next_document, read_input, requirement_line,
};
pub(crate) use crate::annotations::texts::row_text;
use crate::annotations::texts::{annotation, is_annotated};
use crate::messages::path_at;
use crate::paths::relative_path;
use edit_base::CargoResult;
use edit_metadata::Input;
use edit_report::Row;
use std::alloc::Global;

/// The annotation of a row, at the line of its requirement in the document of its input.
fn annotation_in(
    alloc: Global,
    root: &str,
    inputs: &[Input],
    row: &Row,
    own: &mut InputDocument,
) -> CargoResult<String>
    requires document { IsDocumentOf inputs.now own.old }
    requires input { own.old.input ≡ row.now.input }
    ensures document { IsDocumentOf inputs.now own.new }
    ensures text { IfOk result (λ s. string_bytes s ≡ spec.annotation
        (spec.relative_path root.now (path_at inputs.now row.now.input)) (spec.line_of_row inputs.now row.now)
        (spec.row_text row.now)) }
    ensures error { IfErr result IsMemory }
{
    let bytes = bytes_at(inputs, row.input);
    let line = requirement_line(alloc, bytes, own, &row.place)?;
    let file = relative_path(alloc, root, path_at(inputs, row.input))?;
    let message = row_text(alloc, row)?;
    Ok(annotation(alloc, file, line, message.as_str())?)
}

/// Appends the annotation of a row, where it has one. `last` is the document of an input; returns that of the
/// row's input where the row has an annotation.
fn push_row(
    alloc: Global,
    root: &str,
    inputs: &[Input],
    row: &Row,
    last: InputDocument,
    text: &mut String,
) -> CargoResult<InputDocument>
    requires { IsDocumentOf inputs.now last }
    ensures document { IfOk result (IsDocumentOf inputs.now) }
    ensures text { OnOk result (string_bytes text.new
        ≡ string_bytes text.old ++ spec.row_annotation root.now inputs.now row.now) }
    ensures error { IfErr result IsMemory }
{
    if !is_annotated(row) {
        return Ok(last);
    }
    let mut own = next_document(alloc, inputs, row.input, last)?;
    let line = annotation_in(alloc, root, inputs, row, &mut own)?;
    text.push_str(line.as_str())?;
    Ok(own)
}

/// The annotations of rows: one notice for each requirement that changes or that an option could
/// raise, at the line of its text before the upgrade. Files are named relative to the folder `root`.
pub fn annotations_text(
    alloc: Global,
    root: &str,
    inputs: &[Input],
    rows: &[Row],
) -> CargoResult<String>
    ensures text { IfOk result (λ s. string_bytes s ≡ spec.annotations root.now inputs.now rows.now) }
    ensures error { IfErr result IsMemory }
{
    let mut text = String::new(alloc);
    let mut last = read_input(alloc, inputs, 0)?;
    for row in rows {
        last = push_row(alloc, root, inputs, row, last, &mut text)?;
    }
    Ok(text)
}
