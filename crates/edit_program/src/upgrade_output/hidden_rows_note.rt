//! The note on rows that a report does not show.
ghost use Rattle.std.specs.Prelude.{◌≡◌, ◌++◌, IfErr, IfOk, OnOk, codes, map, string_bytes};
ghost use Rattle.edit_base.specs.Errors.{IsMemory};
ghost use Rattle.edit_program.specs.StderrText.{add_name, hidden_rows, hidden_text, names_of, names_text, reason_line, reason_in_notes, rerun};

use edit_base::CargoResult;
use edit_report::{Row, is_row_shown, is_unreadable, name_text, reason_text};
use std::alloc::{AllocError, Global};
use std::collections::BTreeSet;

/// The texts of the reasons, sorted by bytes.
const REASONS: [&str; 8] = [
    "compatible",
    "excluded",
    "git",
    "incompatible",
    "latest",
    "local",
    "pinned",
    "unreadable",
];

/// The text of a row's reason in notes: `latest` where nothing newer was found, and `unreadable` where the
/// requirement cannot be parsed.
fn reason_in_notes(alloc: Global, row: &Row) -> CargoResult<&'static str>
    ensures ok { IfOk result (λ text. text.now ≡ reason_in_notes row.now) }
    ensures error { IfErr result IsMemory }
{
    if is_unreadable(alloc, row)? {
        return Ok("unreadable");
    }
    let text = reason_text(row.reason);
    Ok(if text.is_empty() { "latest" } else { text })
}

/// The rows that a report of this verbosity does not show.
pub(crate) fn hidden_rows<'a>(
    alloc: Global,
    rows: &'a [Row],
    verbosity: i8,
) -> CargoResult<Vec<&'a Row>>
    ensures ok { IfOk result (λ v. map (λ r. r.now) v.items ≡ hidden_rows verbosity rows.now) }
    ensures error { IfErr result IsMemory }
{
    let mut hidden = Vec::new(alloc);
    for row in rows {
        if !is_row_shown(alloc, row, verbosity)? {
            hidden.push(row)?;
        }
    }
    Ok(hidden)
}

/// Inserts the name of a row, where it has this reason.
fn add_name(alloc: Global, reason: &str, row: &Row, names: &mut BTreeSet<String>) -> CargoResult<()>
    ensures ok { OnOk result (map string_bytes names.new.keys
        ≡ add_name reason.now (map string_bytes names.old.keys) row.now) }
    ensures error { IfErr result IsMemory }
{
    if reason_in_notes(alloc, row)? == reason {
        names.insert(name_text(alloc, row)?)?;
    }
    Ok(())
}

/// The names of the rows with a reason, sorted by bytes, without duplicates.
fn names_of(alloc: Global, reason: &str, rows: &[&Row]) -> CargoResult<Vec<String>>
    ensures ok { IfOk result (λ v.
        map string_bytes v.items ≡ names_of reason.now (map (λ r. r.now) rows.now)) }
    ensures error { IfErr result IsMemory }
{
    let mut names = BTreeSet::new(alloc);
    'rows: for row in rows {
        add_name(alloc, reason, row, &mut names)?;
    }
    let names = names.into_iter().collect(alloc)?;
    Ok(names)
}

/// Names as a line lists them: at most three, or else only their number.
fn names_text(alloc: Global, names: &[String]) -> Result<String, AllocError>
    ensures { IfOk result (λ s. string_bytes s ≡ names_text (map string_bytes names.now)) }
{
    let number = names.len();
    if number <= 3 {
        return names.join(alloc, ", ");
    }
    format!(in alloc; "{number} packages")
}

/// Appends the line of a reason with names.
fn push_line(text: &mut String, reason: &str, names: &str) -> Result<(), AllocError>
    ensures { OnOk result (string_bytes text.new
        ≡ string_bytes text.old ++ (codes "\n  " ++ (reason.now ++ (codes ": " ++ names.now)))) }
{
    text.push_str("\n  ")?;
    text.push_str(reason)?;
    text.push_str(": ")?;
    text.push_str(names)?;
    Ok(())
}

/// Appends the line of a reason, where rows have it.
fn add_line(alloc: Global, text: &mut String, rows: &[&Row], reason: &str) -> CargoResult<()>
    ensures ok { OnOk result (string_bytes text.new
        ≡ string_bytes text.old ++ reason_line (map (λ r. r.now) rows.now) reason.now) }
    ensures error { IfErr result IsMemory }
{
    let names = names_of(alloc, reason, rows)?;
    if names.is_empty() {
        return Ok(());
    }
    let names = names_text(alloc, names.as_slice())?;
    push_line(text, reason, names.as_str())?;
    Ok(())
}

/// The first line of the note: which options show the rows.
fn rerun(verbosity: i8) -> &'static str
    ensures { result.now ≡ rerun verbosity }
{
    if verbosity >= 1 {
        "Re-run with `--verbose --verbose` to show more dependencies"
    } else {
        "Re-run with `--verbose` to show more dependencies"
    }
}

/// The note on rows that are not shown: which options show them, and a line for each reason.
pub(crate) fn hidden_text(alloc: Global, rows: &[&Row], verbosity: i8) -> CargoResult<String>
    ensures ok { IfOk result (λ s. string_bytes s ≡ hidden_text verbosity (map (λ r. r.now) rows.now)) }
    ensures error { IfErr result IsMemory }
{
    let mut text = String::from_str(alloc, rerun(verbosity))?;
    'reasons: for reason in REASONS.as_slice() {
        add_line(alloc, &mut text, rows, reason)?;
    }
    Ok(text)
}
