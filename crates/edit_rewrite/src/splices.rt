//! Insertions and replacements at offsets counted from the end of a text.
ghost use Rattle.std.specs.Prelude.{◌≡◌, ◌-◌, ℕ, List, ◌++◌, IfOk, IfErr, length, string_bytes};
ghost use Rattle.edit_base.specs.Errors.{IsMemory};
ghost use Rattle.edit_syntax.specs.Spans.{cut_from};
ghost use Rattle.edit_syntax.specs.Strings.{line_end};
ghost use Rattle.edit_tree.specs.EditBytes.{put_before, with_splice, end_like, new_line};
ghost use Rattle.edit_rewrite.specs.StatementOffsets.{IsSuffix, section_text};

use edit_base::errors::CargoResult;
use edit_tree::cut::between;
use std::alloc::Global;

/// The newline that `rest` begins with, or LF where there is none.
fn newline_like(rest: &str) -> &'static str
    ensures { (line : List ℕ) → result.now ++ line ≡ line_end (end_like rest.now) line }
{
    if rest.as_bytes().first().copied().unwrap_or(0) == b'\r' {
        "\r\n"
    } else {
        "\n"
    }
}

/// The text with the range between two offsets replaced by `now`.
pub(crate) fn with_swap(
    alloc: Global,
    text: &str,
    from: usize,
    to: usize,
    now: &str,
) -> CargoResult<String>
    ensures text { (s t : List ℕ) → IsSuffix text.now s → IsSuffix text.now t
        → from ≡ length s → to ≡ length t
        → IfOk result (λ r. string_bytes r
        ≡ with_splice text.now (record { from = s; to = t; now = now.now })) }
    ensures error { IfErr result IsMemory }
{
    let mut out = String::new(alloc);
    out.push_str(between(text, text.len(), from))?;
    out.push_str(now)?;
    out.push_str(between(text, to, 0))?;
    Ok(out)
}

/// The text with `now` inserted at an offset.
pub(crate) fn with_text(alloc: Global, text: &str, offset: usize, now: &str) -> CargoResult<String>
    ensures text { (rest : List ℕ) → IsSuffix text.now rest → offset ≡ length rest
        → IfOk result (λ s. string_bytes s ≡ with_splice text.now (put_before rest now.now)) }
    ensures error { IfErr result IsMemory }
{
    with_swap(alloc, text, offset, offset, now)
}

/// The text with a new line behind the line that ends at an offset.
pub(crate) fn with_line(alloc: Global, text: &str, after: usize, line: &str) -> CargoResult<String>
    ensures text { (rest : List ℕ) → IsSuffix text.now rest → after ≡ length rest
        → IfOk result (λ s. string_bytes s ≡ with_splice text.now (new_line rest line.now)) }
    ensures error { IfErr result IsMemory }
{
    let mut now = String::from_str(alloc, newline_like(between(text, after, 0)))?;
    now.push_str(line)?;
    with_text(alloc, text, after, now.as_str())
}

/// The text with a new header inserted at an offset, and a line below it.
pub(crate) fn with_section(
    alloc: Global,
    text: &str,
    before: usize,
    name: &str,
    line: &str,
) -> CargoResult<String>
    ensures text { (rest : List ℕ) → IsSuffix text.now rest → before ≡ length rest
        → IfOk result (λ s. string_bytes s
        ≡ with_splice text.now (put_before rest (section_text name.now line.now))) }
    ensures error { IfErr result IsMemory }
{
    let mut now = String::from_str(alloc, "[")?;
    now.push_str(name)?;
    now.push_str("]\n")?;
    now.push_str(line)?;
    now.push_str("\n")?;
    with_text(alloc, text, before, now.as_str())
}
