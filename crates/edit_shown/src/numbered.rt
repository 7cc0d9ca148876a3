//! The rows that change, numbered.
ghost use Rattle.std.specs.Prelude.{◌≡◌, IfErr, IfOk, string_bytes};
ghost use Rattle.edit_base.specs.Errors.{IsMemory};
ghost use Rattle.edit_shown.specs.Numbered as spec;

use crate::annotations::row_text;
use crate::messages::path_at;
use crate::paths::relative_path;
use edit_base::CargoResult;
use edit_metadata::Input;
use edit_report::Row;
use std::alloc::Global;

/// The line of a row that changes: its number, its manifest, and what becomes of its requirement.
fn numbered_line(
    alloc: Global,
    number: u64,
    root: &str,
    inputs: &[Input],
    row: &Row,
) -> CargoResult<String>
    ensures line { IfOk result (λ s. string_bytes s ≡ spec.numbered_line number root.now inputs.now row.now) }
    ensures error { IfErr result IsMemory }
{
    let file = relative_path(alloc, root, path_at(inputs, row.input))?;
    let text = row_text(alloc, row)?;
    let text = text.as_str();
    Ok(format!(in alloc; "{number}  {file}  {text}\n")?)
}

/// The rows that change, numbered from 1, one on each line. Manifests are named relative to the folder
/// `root`.
pub fn numbered_text(
    alloc: Global,
    root: &str,
    inputs: &[Input],
    rows: &[Row],
) -> CargoResult<String>
    ensures text { IfOk result (λ s. string_bytes s ≡ spec.numbered root.now inputs.now rows.now) }
    ensures error { IfErr result IsMemory }
{
    let mut text = String::new(alloc);
    let mut number: u64 = 0;
    'rows: for row in rows {
        if row.change.is_some() {
            number = number.saturating_add(1);
            let line = numbered_line(alloc, number, root, inputs, row)?;
            text.push_str(line.as_str())?;
        }
    }
    Ok(text)
}
