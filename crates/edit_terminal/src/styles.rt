//! Styles of texts on a terminal.
ghost use Rattle.std.specs.Prelude.{◌≡◌, OnOk};
ghost use Rattle.std.specs.Io.KnownBytes.{Appends};
ghost use Rattle.std.specs.Str.{chars};
ghost use Rattle.edit_terminal.specs.Styles as spec;

use crate::characters::write_for_terminal;
use std::io;

/// The style of a part of a line.
#[derive(Clone, Copy)]
pub(crate) enum Style {
    Plain,
    /// The titles of a table.
    Title,
    /// The word of a status line.
    Status,
    Warning,
    Note,
    Failure,
    /// A new requirement that differs from the old one.
    Change,
}

/// The parameters of the escape sequence that begins a style; empty for a plain text.
fn parameters(style: Style) -> &'static str
    ensures { result.now ≡ spec.parameters style }
{
    match style {
        Style::Plain => "",
        Style::Title => "1",
        Style::Status => "1;32",
        Style::Warning => "1;33",
        Style::Note => "1;36",
        Style::Failure => "1;31",
        Style::Change => "32",
    }
}

/// Whether a style is that of a text without one.
fn is_plain(style: Style) -> bool
    ensures { result ≡ spec.is_plain style }
{
    matches!(style, Style::Plain)
}

/// Writes a text between the sequence with these parameters and the one that ends all styles.
fn write_enclosed<W: io::Write>(to: &mut W, parameters: &str, text: &str) -> io::Result<()>
    ensures { OnOk result (Appends (W.contents to.old) (W.contents to.new)
        (spec.enclosed parameters.now (chars text.now))) }
{
    to.write_all(b"\x1b[")?;
    to.write_all(parameters.as_bytes())?;
    to.write_all(b"m")?;
    write_for_terminal(to, text)?;
    to.write_all(b"\x1b[0m")
}

/// Writes a text in a style.
pub(crate) fn write_styled<W: io::Write>(to: &mut W, style: Style, text: &str) -> io::Result<()>
    ensures { OnOk result (Appends (W.contents to.old) (W.contents to.new)
        (spec.styled style (chars text.now))) }
{
    if is_plain(style) {
        write_for_terminal(to, text)
    } else {
        write_enclosed(to, parameters(style), text)
    }
}

/// The style, where styles are wanted.
pub(crate) fn style_if(wanted: bool, style: Style) -> Style
    ensures { result ≡ spec.style_if wanted style }
{
    if wanted { style } else { Style::Plain }
}
