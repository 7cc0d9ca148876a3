//! What `set-version` prints of its plan.
ghost use Rattle.std.specs.Prelude.{◌≡◌, ◌++◌, IfErr, IfOk, OnOk, map, string_bytes};
ghost use Rattle.edit_base.specs.Errors.{IsMemory};
ghost use Rattle.edit_set_version.specs.Planned.{plan_lines_view};
ghost use Rattle.edit_set_version.specs.LineViews.{report_line_view};
ghost use Rattle.edit_shown.specs.Messages.{changes};
ghost use Rattle.edit_program.specs.Effects.{stderr_texts, stdout_texts};
ghost use Rattle.edit_program.specs.Printed.{messages_in, statuses, statuses_in, warning_if};

use crate::effects::{Message, push_stderr, push_stdout};
use crate::upgrade_output::{push_status, push_warning};
use edit_base::CargoResult;
use edit_set_version::SetVersionPlan;
use edit_shown::{MessageFormat, push_changes, push_version_changes};
use std::alloc::{AllocError, Global};

/// A warning as text, if `due` is set; else empty.
pub(crate) fn warning_text(alloc: Global, due: bool, message: &str) -> Result<String, AllocError>
    ensures { IfOk result (λ s. string_bytes s ≡ warning_if due message.now) }
{
    let mut text = String::new(alloc);
    if due {
        push_warning(alloc, message, &mut text)?;
    }
    Ok(text)
}

/// The lines of a plan as status lines.
fn lines_text(alloc: Global, lines: &[(String, String)]) -> Result<String, AllocError>
    ensures { IfOk result (λ s. string_bytes s ≡ statuses (map report_line_view lines.now)) }
{
    let mut text = String::new(alloc);
    for line in lines {
        push_status(alloc, line.0.as_str(), line.1.as_str(), &mut text)?;
    }
    Ok(text)
}

/// Appends the lines of a plan: as status lines for standard error, or as JSON messages for standard output,
/// with what they say in parts.
pub(crate) fn push_lines(
    alloc: Global,
    format: MessageFormat,
    plan: &SetVersionPlan,
    messages: &mut Vec<Message>,
) -> CargoResult<()>
    ensures stdout { OnOk result (stdout_texts messages.new.items ≡ stdout_texts messages.old.items
        ++ messages_in format (plan_lines_view plan.now) plan.now.changes.items) }
    ensures stderr { OnOk result (stderr_texts messages.new.items ≡ stderr_texts messages.old.items
        ++ statuses_in format (plan_lines_view plan.now)) }
    ensures error { IfErr result IsMemory }
{
    let (lines, changes) = (plan.lines.as_slice(), plan.changes.as_slice());
    match format {
        MessageFormat::Human
        | MessageFormat::Markdown
        | MessageFormat::Github
        | MessageFormat::Numbered => {
            let text = lines_text(alloc, lines)?;
            push_stderr(messages, text.into_bytes())?;
        }
        MessageFormat::Json => {
            let mut text = String::new(alloc);
            push_changes(alloc, lines, &mut text)?;
            push_version_changes(alloc, changes, &mut text)?;
            push_stdout(messages, text.into_bytes())?;
        }
    }
    Ok(())
}
