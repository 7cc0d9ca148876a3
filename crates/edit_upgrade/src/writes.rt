//! The edits of a manifest: the new requirements of its rows.
ghost use Rattle.std.specs.Prelude.{◌≡◌, ◌++◌, [], IfErr, IfOk, MatchOption, OnOk, length, map, option_to_list, string_bytes};
ghost use Rattle.edit_base.specs.Errors.{IsMemory};
ghost use Rattle.edit_syntax.specs.Grammar.{Text};
ghost use Rattle.edit_document.specs.Ranges.{edit_views};
ghost use Rattle.edit_tree.specs.DocumentViews.{ShowsTree};
ghost use Rattle.edit_upgrade.specs.Outputs.{IsRewritten};
ghost use Rattle.edit_tree.specs.Tree.{view_at};
ghost use Rattle.edit_upgrade.specs.Found.{row_entry_view};
ghost use Rattle.edit_upgrade.specs.Lines.{line_of};
ghost use Rattle.edit_upgrade.specs.Records.{row_entries};
ghost use Rattle.edit_upgrade.specs.Rows.{with_write, write_on, writes};

use crate::entries_with_rows::{Entry, literal_of};
use edit_base::CargoResult;
use edit_document::{Document, Place};
use edit_report::Row;
use std::alloc::Global;

/// The edit of the version literal of an entry, where its row has a change.
fn edit_for(alloc: Global, entry: &Entry, row: &Row) -> CargoResult<Option<(Place, String)>>
    ensures ok { IfOk result (λ o. edit_views (option_to_list o)
        ≡ with_write (write_on (row_entry_view entry.now) (line_of row.now)) []) }
    ensures error { IfErr result IsMemory }
{
    if entry.old.is_none() || row.change.is_none() {
        return Ok(None);
    }
    match &row.new {
        Some(text) => {
            let place = literal_of(alloc, entry)?;
            let text = String::from_str(alloc, text.as_str())?;
            Ok(Some((place, text)))
        }
        None => Ok(None),
    }
}

/// Appends the edit of a row, where it has a change.
fn push_edit(
    alloc: Global,
    edits: &mut Vec<(Place, String)>,
    entry: &Entry,
    row: &Row,
) -> CargoResult<()>
    ensures ok { OnOk result (edit_views edits.new.items
        ≡ edit_views edits.old.items
        ++ with_write (write_on (row_entry_view entry.now) (line_of row.now)) []) }
    ensures error { IfErr result IsMemory }
{
    let edit = edit_for(alloc, entry, row)?;
    match edit {
        Some(edit) => {
            edits.push(edit)?;
            Ok(())
        }
        None => Ok(()),
    }
}

/// The edits of the rows with a change, each at the version literal of its entry.
pub(crate) fn edits_of(
    alloc: Global,
    entries: &[Entry],
    rows: &[Row],
) -> CargoResult<Vec<(Place, String)>>
    requires { length rows.now ≡ length entries.now }
    ensures ok { IfOk result
        (λ es. edit_views es.items ≡ writes (map row_entry_view entries.now) (map line_of rows.now)) }
    ensures error { IfErr result IsMemory }
{
    let mut edits = Vec::new(alloc);
    'rows: for (i, row) in rows.iter().enumerate() {
        push_edit(alloc, &mut edits, &entries[i], row)?;
    }
    Ok(edits)
}

/// The new text of a manifest, or `None` where no row has a change.
pub(crate) fn edited_text(
    alloc: Global,
    document: &Document,
    entries: &[Entry],
    rows: &[Row],
) -> CargoResult<Option<String>>
    requires shown { (form : Text) × ShowsTree document.now form
        × (map row_entry_view entries.now ≡ row_entries (view_at form)) }
    requires long { length rows.now ≡ length entries.now }
    ensures ok { IfOk result
        (λ o. MatchOption o (writes (map row_entry_view entries.now) (map line_of rows.now) ≡ [])
        (λ s. IsRewritten document.now (writes (map row_entry_view entries.now) (map line_of rows.now))
        (string_bytes s))) }
    ensures error { IfErr result IsMemory }
{
    let edits = edits_of(alloc, entries, rows)?;
    if edits.is_empty() {
        return Ok(None);
    }
    document.lemma_form();
    let text = document.with_literals(alloc, &edits)?;
    Ok(Some(text))
}
