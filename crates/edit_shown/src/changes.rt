//! The lines of new versions as JSON, and what they say in parts, one message a line.
ghost use Rattle.std.specs.Prelude.{◌≡◌, ◌++◌, IfErr, OnOk, map, string_bytes};
ghost use Rattle.edit_base.specs.Errors.{IsMemory};
ghost use Rattle.edit_shown.specs.Messages.{change_message, changes, line_texts};
ghost use Rattle.edit_shown.specs.VersionChanges.{version_change_message, version_changes};

use crate::json::{change_message, version_change_message};
use edit_base::CargoResult;
use edit_set_version::VersionChange;
use std::alloc::Global;

/// Appends the message of a line.
fn push_change(alloc: Global, line: &(String, String), text: &mut String) -> CargoResult<()>
    ensures text { OnOk result (string_bytes text.new
        ≡ string_bytes text.old ++ change_message (line_texts line.now)) }
    ensures error { IfErr result IsMemory }
{
    let message = change_message(alloc, line.0.as_str(), line.1.as_str())?;
    text.push_str(message.as_str())?;
    Ok(())
}

/// Appends the lines of new versions as JSON, one message a line.
pub fn push_changes(alloc: Global, lines: &[(String, String)], text: &mut String) -> CargoResult<()>
    ensures text { OnOk result (string_bytes text.new
        ≡ string_bytes text.old ++ changes (map line_texts lines.now)) }
    ensures error { IfErr result IsMemory }
{
    for line in lines {
        push_change(alloc, line, text)?;
    }
    Ok(())
}

/// Appends the message of a change.
fn push_version_change(alloc: Global, change: &VersionChange, text: &mut String) -> CargoResult<()>
    ensures text { OnOk result (string_bytes text.new
        ≡ string_bytes text.old ++ version_change_message change.now) }
    ensures error { IfErr result IsMemory }
{
    let message = version_change_message(alloc, change)?;
    text.push_str(message.as_str())?;
    Ok(())
}

/// Appends what the lines of new versions say, in parts, as JSON, one message a line.
pub fn push_version_changes(
    alloc: Global,
    changes: &[VersionChange],
    text: &mut String,
) -> CargoResult<()>
    ensures text { OnOk result (string_bytes text.new
        ≡ string_bytes text.old ++ version_changes changes.now) }
    ensures error { IfErr result IsMemory }
{
    for change in changes {
        push_version_change(alloc, change, text)?;
    }
    Ok(())
}
