//! Which lines a diff shows.
ghost use Rattle.std.specs.Prelude.{◌≡◌, ◌+◌, ◌<◌, ◌≤◌, drop, length};
ghost use Rattle.std.specs.List.{count_by};
ghost use Rattle.edit_shown.specs.ShownLines.{is_new, is_old, is_shown, leading, shown_lines};

use crate::diff::line_diff::LineKind;

/// The number of unchanged lines that are shown before and after a change.
const CONTEXT: usize = 3;

/// Whether a line changes within three lines of this one, or this one does.
pub(crate) fn is_shown(kinds: &[LineKind], i: usize) -> bool
    requires { i < length kinds.now }
    ensures { result ≡ is_shown kinds.now i }
{
    let from = i.saturating_sub(CONTEXT);
    let to = if kinds.len() - i > CONTEXT {
        i + CONTEXT + 1
    } else {
        kinds.len()
    };
    kinds[from..to]
        .iter()
        .any(|kind| *kind != LineKind::Context)
}

/// The number of consecutive lines that are shown, from one on.
pub(crate) fn part_length(kinds: &[LineKind], i: usize) -> usize
    requires { i ≤ length kinds.now }
    ensures same { result ≡ leading (drop i (shown_lines kinds.now)) }
    ensures within { i + result ≤ length kinds.now }
{
    for j in i..kinds.len() {
        if !is_shown(kinds, j) {
            return j - i;
        }
    }
    kinds.len() - i
}

/// The number of lines of the old text.
pub(crate) fn count_old(kinds: &[LineKind]) -> usize
    ensures { result ≡ count_by is_old kinds.now }
{
    kinds
        .iter()
        .filter(|kind| **kind != LineKind::Added)
        .count()
}

/// The number of lines of the new text.
pub(crate) fn count_new(kinds: &[LineKind]) -> usize
    ensures { result ≡ count_by is_new kinds.now }
{
    kinds
        .iter()
        .filter(|kind| **kind != LineKind::Removed)
        .count()
}
