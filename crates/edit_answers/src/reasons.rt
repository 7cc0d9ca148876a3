//! The reasons in messages why entries could not be fetched.
ghost use Rattle.std.specs.Prelude.{◌≡◌, IfOk, string_bytes};
ghost use Rattle.edit_answers.specs.Reasons.{IsReason, body_text, entry_line_text, malformed_text, not_whole_text, curl_text, status_text};
ghost use Rattle.edit_lookups.specs.ControlEscapes.{escape_controls};
ghost use Rattle.edit_lookups.specs.Lookups.{lookup_text};

use crate::bodies::Damage;
use crate::meaning::Failure;
use edit_lookups::{Lookup, push_escaped};
use std::alloc::{AllocError, Global};

/// Escapes the control characters of a text.
pub(crate) fn escape_message(alloc: Global, text: &str) -> Result<String, AllocError>
    ensures { IfOk result (λ s. string_bytes s ≡ escape_controls text.now) }
{
    let mut shown = String::new(alloc);
    push_escaped(&mut shown, text)?;
    Ok(shown)
}

/// Formats a failed transfer: curl's message, and its exit code.
fn curl_text(alloc: Global, exit: &str, message: &str) -> Result<String, AllocError>
    ensures { IfOk result (λ s. string_bytes s ≡ curl_text exit.now message.now) }
{
    let message = if message.is_empty() {
        "curl failed"
    } else {
        message
    };
    let message = escape_message(alloc, message)?;
    let exit = escape_message(alloc, exit)?;
    format!(in alloc; "{message}, curl: {exit}")
}

/// Formats an HTTP status.
fn status_text(alloc: Global, code: &str) -> Result<String, AllocError>
    ensures { IfOk result (λ s. string_bytes s ≡ status_text code.now) }
{
    let code = escape_message(alloc, code)?;
    format!(in alloc; "status {code}")
}

/// Formats the place of a line in the entry of a crate.
fn entry_line_text(alloc: Global, line: usize, name: &str) -> Result<String, AllocError>
    ensures { IfOk result (λ s. string_bytes s ≡ entry_line_text line name.now) }
{
    let name = escape_message(alloc, name)?;
    format!(in alloc; "line {line} of the entry of {name}")
}

/// Formats that a line of the entry of a crate is malformed.
fn malformed_text(alloc: Global, line: usize, name: &str) -> Result<String, AllocError>
    ensures { IfOk result (λ s. string_bytes s ≡ malformed_text line name.now) }
{
    let what = entry_line_text(alloc, line, name)?;
    format!(in alloc;
        "{what} is malformed: it has to be a JSON object with strings as `name` and `vers`"
    )
}

/// Formats that the entry of a crate is not whole.
fn not_whole_text(alloc: Global, name: &str) -> Result<String, AllocError>
    ensures { IfOk result (λ s. string_bytes s ≡ not_whole_text name.now) }
{
    let name = escape_message(alloc, name)?;
    format!(in alloc; "the entry of {name} is not whole, or is of another crate")
}

/// Formats why a body is no index file of the crate with this name.
fn body_text(alloc: Global, name: &str, damage: Damage) -> Result<String, AllocError>
    ensures { IfOk result (λ s. string_bytes s ≡ body_text name.now damage) }
{
    match damage {
        Damage::BadLine(line) => malformed_text(alloc, line, name),
        Damage::NotWhole => not_whole_text(alloc, name),
    }
}

/// Formats why an entry could not be fetched.
pub(crate) fn reason_of(
    alloc: Global,
    lookup: &Lookup,
    failure: Failure,
) -> Result<String, AllocError>
    ensures { IfOk result (λ s. IsReason (lookup_text lookup.now) failure.entry (string_bytes s)) }
{
    match failure {
        Failure::Offline => String::from_str(alloc, "nothing is fetched offline"),
        Failure::NotFetchable => {
            String::from_str(alloc, "only sparse registries and folders can be read")
        }
        Failure::Unanswered => String::from_str(alloc, "curl gave no answer"),
        Failure::Curl(exit, message) => curl_text(alloc, exit, message),
        Failure::Token(message) => escape_message(alloc, message),
        Failure::Status(code) => status_text(alloc, code),
        Failure::NotAnIndex(damage) => body_text(alloc, lookup.name, damage),
        Failure::NoFolder => String::from_str(alloc, "there is no such folder"),
    }
}
