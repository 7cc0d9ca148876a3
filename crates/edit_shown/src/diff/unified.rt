//! A unified diff of two texts of a file.
ghost use Rattle.std.specs.Prelude.{◌≡◌, ◌++◌, IfErr, IfOk, OnOk};
ghost use Rattle.edit_base.specs.Errors.{IsMemory};
ghost use Rattle.edit_shown.specs.Lines.{lines_of};
ghost use Rattle.edit_shown.specs.LineKinds.{compare_lines};
ghost use Rattle.edit_shown.specs.Unified as spec;

use crate::diff::hunks::push_parts;
use crate::diff::line_diff::compare_lines;
use crate::diff::lines::lines_of;
use crate::diff::names::push_name;
use edit_base::CargoResult;
use std::alloc::{AllocError, Global};

/// Appends the two lines that name a file.
fn push_names(text: &mut Vec<u8>, path: &str) -> Result<(), AllocError>
    ensures ok { OnOk result (text.new.items ≡ text.old.items ++ spec.names_text path.now) }
{
    text.extend_from_slice(b"--- ")?;
    push_name(text, b"a/", path.as_bytes())?;
    text.extend_from_slice(b"+++ ")?;
    push_name(text, b"b/", path.as_bytes())?;
    Ok(())
}

/// Appends the hunks of the diff of two texts.
fn push_changes(alloc: Global, text: &mut Vec<u8>, old: &[u8], new: &[u8]) -> Result<(), AllocError>
    ensures ok { OnOk result (text.new.items ≡ text.old.items
        ++ spec.parts_of (compare_lines (lines_of old.now) (lines_of new.now))) }
{
    let olds = lines_of(alloc, old)?;
    let news = lines_of(alloc, new)?;
    let diff_lines = compare_lines(alloc, &olds, &news)?;
    push_parts(alloc, text, &diff_lines.kinds, &diff_lines.lines)
}

/// The unified diff of two texts of a file, with three lines of context; empty where the texts are equal.
/// `path` is the file's name in the diff, after `a/` and `b/`.
pub fn diff_text(alloc: Global, path: &str, old: &[u8], new: &[u8]) -> CargoResult<Vec<u8>>
    ensures text { IfOk result (λ v. v.items ≡ spec.diff_text path.now old.now new.now) }
    ensures error { IfErr result IsMemory }
{
    let mut text = Vec::new(alloc);
    if old == new {
        return Ok(text);
    }
    push_names(&mut text, path)?;
    push_changes(alloc, &mut text, old, new)?;
    Ok(text)
}
