//! Slices of a text between two offsets, each counted from the end of the text.
ghost use Rattle.std.specs.Prelude.{◌≡◌, ◌-◌, length};
ghost use Rattle.edit_syntax.specs.Spans.{cut_from};

/// The slice of a text between two offsets from its end; empty where these are out of range or cut a
/// character.
pub fn between(text: &str, from: usize, to: usize) -> &str
    ensures { result.now ≡ cut_from text.now (length text.now - from) (length text.now - to) }
{
    let start = text.len().saturating_sub(from);
    let end = text.len().saturating_sub(to);
    if start <= end && text.is_char_boundary(start) && text.is_char_boundary(end) {
        &text[start..end]
    } else {
        ""
    }
}
