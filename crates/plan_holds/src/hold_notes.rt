//! Notes on the crates that a policy holds.
ghost use Rattle.std.specs.Prelude.{◌≡◌, ◌++◌, IfOk, OnOk, string_bytes};
ghost use Rattle.edit_report.specs.NameSets.{has_name};
ghost use Rattle.plan_holds.specs.HoldNotes.{hold_notes, hold_text, note_where};
ghost use Rattle.plan_holds.specs.RowNames.{AreRowNames};

use edit_policy::{CratePolicy, Hold};
use edit_report::Row;
use std::alloc::{AllocError, Global};
use std::collections::BTreeSet;

/// The note on a crate that is held at a requirement, with the reason, where one is given.
fn hold_text(alloc: Global, held: &CratePolicy, hold: &Hold) -> Result<String, AllocError>
    ensures { IfOk result (λ s. string_bytes s ≡ hold_text held.now hold.now) }
{
    let name = held.name.as_str();
    let requirement = hold.text.as_str();
    match &held.reason {
        Some(reason) => {
            let reason = reason.as_str();
            format!(in alloc; "{name} is held at {requirement}: {reason}")
        }
        None => format!(in alloc; "{name} is held at {requirement}"),
    }
}

/// The names of the crates of the rows.
fn row_names<'a>(alloc: Global, rows: &'a [Row]) -> Result<BTreeSet<&'a str>, AllocError>
    ensures { IfOk result (AreRowNames rows.now) }
{
    let mut names = BTreeSet::new(alloc);
    'rows: for row in rows {
        names.insert(row.name.as_str())?;
    }
    Ok(names)
}

/// Appends the note on a crate, if it is held and a row has its name.
fn push_hold(
    alloc: Global,
    names: &BTreeSet<&str>,
    held: &CratePolicy,
    text: &mut String,
) -> Result<(), AllocError>
    ensures { OnOk result (string_bytes text.new
        ≡ string_bytes text.old ++ note_where (has_name names.now) held.now) }
{
    let Some(hold) = &held.hold else {
        return Ok(());
    };
    if !names.contains(held.name.as_str()) {
        return Ok(());
    }
    let message = hold_text(alloc, held, hold)?;
    let line = format!(in alloc; "note: {message}\n")?;
    text.push_str(line.as_str())?;
    Ok(())
}

/// Appends a note on each crate that a policy holds and that has one of the rows: at which requirement it is
/// held, and why.
pub fn push_holds(
    alloc: Global,
    rows: &[Row],
    crates: &[CratePolicy],
    text: &mut String,
) -> Result<(), AllocError>
    ensures { OnOk result (string_bytes text.new
        ≡ string_bytes text.old ++ hold_notes rows.now crates.now) }
{
    if crates.is_empty() {
        return Ok(());
    }
    let names = row_names(alloc, rows)?;
    for held in crates {
        push_hold(alloc, &names, held, text)?;
    }
    Ok(())
}
