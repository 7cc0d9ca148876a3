//! The hunks of a diff and their headers.
ghost use Rattle.std.specs.Prelude.{◌≡◌, ◌+◌, ◌^◌, ◌<◌, ◌++◌, IfOk, OnOk, if◌then◌else◌, length, map, string_bytes, take};
ghost use Rattle.edit_shown.specs.Hunks as spec;
ghost use Rattle.edit_shown.specs.Hunks.{AreCounted};
ghost use Rattle.edit_shown.specs.ShownLines.{is_new, is_old};

use crate::diff::context_lines::{count_new, count_old, is_shown, part_length};
use crate::diff::line_diff::LineKind;
use std::alloc::{AllocError, Global};

/// Whether a line ends with a line feed.
fn ends_with_feed(line: &[u8]) -> bool
    ensures { result ≡ spec.ends_with_feed line.now }
{
    match line {
        [.., last] => *last == b'\n',
        [] => false,
    }
}

/// The character before a line with this mark: space, `-` or `+`.
fn sign(kind: LineKind) -> u8
    ensures { result ≡ spec.sign kind }
{
    match kind {
        LineKind::Context => b' ',
        LineKind::Removed => b'-',
        LineKind::Added => b'+',
    }
}

/// The note after a line whose text ends without a line feed, else nothing.
fn note(line: &[u8]) -> &'static str
    ensures { result.now ≡ spec.note line.now }
{
    if ends_with_feed(line) {
        ""
    } else {
        "\n\\ No newline at end of file\n"
    }
}

/// Appends a line, after the character of its mark.
fn push_line(text: &mut Vec<u8>, kind: LineKind, line: &[u8]) -> Result<(), AllocError>
    ensures ok { OnOk result (text.new.items ≡ text.old.items ++ spec.line_text kind line.now) }
{
    text.push(sign(kind))?;
    text.extend_from_slice(line)?;
    text.extend_from_slice(note(line).as_bytes())?;
    Ok(())
}

/// The number of the first line of a range, from the number of lines before it; for an empty range that of
/// the line before it.
fn first_number(before: usize, count: usize) -> usize
    requires { before + count < 2 ^ 64 }
    ensures { result ≡ spec.first_number before count }
{
    if count == 0 { before } else { before + 1 }
}

/// A range of lines as `START,COUNT`, or `START` where it has one line.
fn range_text(alloc: Global, before: usize, count: usize) -> Result<String, AllocError>
    requires { before + count < 2 ^ 64 }
    ensures { IfOk result (λ s. string_bytes s ≡ spec.range_text before count) }
{
    let first = first_number(before, count);
    if count == 1 {
        return format!(in alloc; "{first}");
    }
    format!(in alloc; "{first},{count}")
}

/// Appends a range of lines.
fn push_range(
    alloc: Global,
    text: &mut Vec<u8>,
    before: usize,
    count: usize,
) -> Result<(), AllocError>
    requires { before + count < 2 ^ 64 }
    ensures ok { OnOk result (text.new.items ≡ text.old.items ++ spec.range_text before count) }
{
    let range = range_text(alloc, before, count)?;
    text.extend_from_slice(range.as_bytes())?;
    Ok(())
}

/// The numbers of lines of the old and of the new text before a line of a diff.
#[derive(Clone, Copy)]
struct LineCounts {
    old: usize,
    new: usize,
}

impl LineCounts {
    /// The counts after a line with this mark.
    fn counts_after(self, kind: LineKind) -> LineCounts
        requires old { self.old + 1 < 2 ^ 64 }
        requires new { self.new + 1 < 2 ^ 64 }
        ensures old { result.old ≡ self.old + (if is_old kind then 1 else 0) }
        ensures new { result.new ≡ self.new + (if is_new kind then 1 else 0) }
    {
        match kind {
            LineKind::Context => LineCounts {
                old: self.old + 1,
                new: self.new + 1,
            },
            LineKind::Removed => LineCounts {
                old: self.old + 1,
                new: self.new,
            },
            LineKind::Added => LineCounts {
                old: self.old,
                new: self.new + 1,
            },
        }
    }
}

/// Appends the header of a hunk; `before` counts the lines before it.
fn push_hunk_header(
    alloc: Global,
    text: &mut Vec<u8>,
    before: LineCounts,
    part: &[LineKind],
) -> Result<(), AllocError>
    requires old { before.old + length part.now < 2 ^ 64 }
    requires new { before.new + length part.now < 2 ^ 64 }
    ensures ok { OnOk result (text.new.items
        ≡ text.old.items ++ spec.hunk_header_after before.old before.new part.now) }
{
    text.extend_from_slice(b"@@ -")?;
    push_range(alloc, text, before.old, count_old(part))?;
    text.extend_from_slice(b" +")?;
    push_range(alloc, text, before.new, count_new(part))?;
    text.extend_from_slice(b" @@\n")?;
    Ok(())
}

/// Whether a hunk begins at a line that is shown.
fn begins(kinds: &[LineKind], i: usize) -> bool
    requires { i < length kinds.now }
    ensures { result ≡ spec.begins kinds.now i }
{
    i == 0 || !is_shown(kinds, i - 1)
}

/// Appends the header of a hunk where one begins at a line that is shown. `before` counts the lines before
/// it.
fn push_hunk_header_at(
    alloc: Global,
    text: &mut Vec<u8>,
    kinds: &[LineKind],
    before: LineCounts,
    i: usize,
) -> Result<(), AllocError>
    requires within { i < length kinds.now }
    requires counted { AreCounted (take i kinds.now) before.old before.new }
    ensures ok { OnOk result (text.new.items ≡ text.old.items ++ spec.hunk_header_before kinds.now i) }
{
    if !begins(kinds, i) {
        return Ok(());
    }
    let part = &kinds[i..i + part_length(kinds, i)];
    push_hunk_header(alloc, text, before, part)
}

/// Appends a line of a diff, where it is shown, after the header of its hunk where one begins there.
fn push_at(
    alloc: Global,
    text: &mut Vec<u8>,
    kinds: &[LineKind],
    lines: &[&[u8]],
    before: LineCounts,
    i: usize,
) -> Result<(), AllocError>
    requires within { i < length kinds.now }
    requires lines { length lines.now ≡ length kinds.now }
    requires counted { AreCounted (take i kinds.now) before.old before.new }
    ensures ok { OnOk result (text.new.items
        ≡ text.old.items ++ spec.text_at kinds.now (map (λ l. l.now) lines.now) i) }
{
    if !is_shown(kinds, i) {
        return Ok(());
    }
    push_hunk_header_at(alloc, text, kinds, before, i)?;
    push_line(text, kinds[i], lines[i])
}

/// Appends the hunks of a diff.
pub(crate) fn push_parts(
    alloc: Global,
    text: &mut Vec<u8>,
    kinds: &[LineKind],
    lines: &[&[u8]],
) -> Result<(), AllocError>
    requires { length lines.now ≡ length kinds.now }
    ensures ok { OnOk result (text.new.items
        ≡ text.old.items ++ spec.parts_text kinds.now (map (λ l. l.now) lines.now)) }
{
    let mut before = LineCounts { old: 0, new: 0 };
    for i in 0..kinds.len() {
        push_at(alloc, text, kinds, lines, before, i)?;
        before = before.counts_after(kinds[i]);
    }
    Ok(())
}
