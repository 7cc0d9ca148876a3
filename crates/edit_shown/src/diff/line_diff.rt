//! Compares two texts line by line.
ghost use Rattle.std.specs.Prelude.{◌≡◌, [], ◌∷◌, ◌++◌, IfOk, OnOk, map, option_copied, option_map, slice_get};
ghost use Rattle.edit_shown.specs.LineKinds.{lines_in, compare_lines, compare_lines_at, line_kinds};

use std::alloc::{AllocError, Global};

/// Whether a line is unchanged, removed or added.
#[derive(Clone, Copy, Debug, PartialEq, Eq)]
pub enum LineKind {
    Context,
    Removed,
    Added,
}

/// Lines with their marks.
#[derive(Drop)]
pub(crate) struct DiffLines<'a> {
    pub(crate) kinds: Vec<LineKind>,
    pub(crate) lines: Vec<&'a [u8]>,
}

impl<'a> DiffLines<'a> {
    /// Appends a line and its mark.
    fn push(&mut self, kind: LineKind, line: &'a [u8]) -> Result<(), AllocError>
        ensures kinds { OnOk result (self.new.kinds.items ≡ self.old.kinds.items ++ kind ∷ []) }
        ensures lines { OnOk result (map (λ l. l.now) self.new.lines.items
            ≡ map (λ l. l.now) self.old.lines.items ++ line.now ∷ []) }
    {
        self.kinds.push(kind)?;
        self.lines.push(line)?;
        Ok(())
    }

    /// Appends the lines at the same index of two texts: one unchanged line where they are equal, else the
    /// removed and the added one.
    fn push_at(&mut self, old: Option<&'a [u8]>, new: Option<&'a [u8]>) -> Result<(), AllocError>
        ensures kinds { OnOk result (self.new.kinds.items ≡ self.old.kinds.items
            ++ line_kinds (compare_lines_at (option_map (λ l. l.now) old.entry)
            (option_map (λ l. l.now) new.entry))) }
        ensures lines { OnOk result (map (λ l. l.now) self.new.lines.items
            ≡ map (λ l. l.now) self.old.lines.items
            ++ lines_in (compare_lines_at (option_map (λ l. l.now) old.entry)
            (option_map (λ l. l.now) new.entry))) }
    {
        match (old, new) {
            (Some(old), Some(new)) => {
                if old == new {
                    return self.push(LineKind::Context, old);
                }
                self.push(LineKind::Removed, old)?;
                self.push(LineKind::Added, new)
            }
            (Some(old), None) => self.push(LineKind::Removed, old),
            (None, Some(new)) => self.push(LineKind::Added, new),
            (None, None) => Ok(()),
        }
    }
}

/// The line at an index, where the list has it.
fn entry_at<'a, 'b>(lines: &'b [&'a [u8]], i: usize) -> Option<&'b &'a [u8]>
    ensures { option_copied result ≡ slice_get lines.now i }
{
    lines.get(i)
}

/// The line at an index, where the list has it.
fn line_at<'a>(lines: &[&'a [u8]], i: usize) -> Option<&'a [u8]>
    ensures { option_map (λ l. l.now) result ≡ slice_get (map (λ l. l.now) lines.now) i }
{
    entry_at(lines, i).copied()
}

/// Compares two texts line by line, each line with the one at the same index.
pub(crate) fn compare_lines<'a>(
    alloc: Global,
    olds: &[&'a [u8]],
    news: &[&'a [u8]],
) -> Result<DiffLines<'a>, AllocError>
    ensures kinds { IfOk result (λ m. m.kinds.items
        ≡ line_kinds (compare_lines (map (λ l. l.now) olds.now) (map (λ l. l.now) news.now))) }
    ensures lines { IfOk result (λ m. map (λ l. l.now) m.lines.items
        ≡ lines_in (compare_lines (map (λ l. l.now) olds.now) (map (λ l. l.now) news.now))) }
{
    let mut diff_lines = DiffLines {
        kinds: Vec::new(alloc),
        lines: Vec::new(alloc),
    };
    for i in 0..olds.len().max(news.len()) {
        diff_lines.push_at(line_at(olds, i), line_at(news, i))?;
    }
    Ok(diff_lines)
}
