//! Messages that are made as text before they are printed.
ghost use Rattle.std.specs.Prelude.{◌≡◌, ◌++◌, OnOk, string_bytes, true};
ghost use Rattle.edit_report.specs.Messages.{message_text};
ghost use Rattle.edit_program.specs.StderrText.{note, warning};

use std::alloc::{AllocError, Global};

/// Appends a status line: an action, right-aligned to twelve columns, and a message.
pub(crate) fn push_status(
    alloc: Global,
    action: &str,
    message: &str,
    text: &mut String,
) -> Result<(), AllocError>
    ensures { OnOk result (string_bytes text.new
        ≡ string_bytes text.old ++ message_text true action.now message.now) }
{
    let line = format!(in alloc; "{action:>12} {message}\n")?;
    text.push_str(line.as_str())?;
    Ok(())
}

/// Appends a warning.
pub(crate) fn push_warning(
    alloc: Global,
    message: &str,
    text: &mut String,
) -> Result<(), AllocError>
    ensures { OnOk result (string_bytes text.new ≡ string_bytes text.old ++ warning message.now) }
{
    let line = format!(in alloc; "warning: {message}\n")?;
    text.push_str(line.as_str())?;
    Ok(())
}

/// Appends a note.
pub(crate) fn push_note(alloc: Global, message: &str, text: &mut String) -> Result<(), AllocError>
    ensures { OnOk result (string_bytes text.new ≡ string_bytes text.old ++ note message.now) }
{
    let line = format!(in alloc; "note: {message}\n")?;
    text.push_str(line.as_str())?;
    Ok(())
}
