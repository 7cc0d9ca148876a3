//! Errors as messages in JSON, for `--message-format json`.

use cli_machine::{filled_args, parse_args, read_arguments};
use edit_base::{CargoResult, Error};
use edit_program::print_failure;
use edit_request::place_and_excerpt;
use edit_shown::json::{ErrorParts, error_message};
use edit_steps::RunError;
use std::alloc::Global;
use std::io::Write;

/// Writes an error as a message on standard output. If that fails, no message is written; standard error
/// has the error in any case.
fn write_message<O: Write>(alloc: Global, parts: ErrorParts<'_>, out: &mut O) {
    if let Ok(text) = error_message(alloc, parts) {
        let _ = out.write_all(text.as_bytes());
    }
}

/// Writes the error that ended a run as a message on standard output, unless it is standard output that
/// failed.
pub(crate) fn write_failure<O: Write>(alloc: Global, failure: &RunError, out: &mut O) {
    if matches!(&failure.error, Error::Output) {
        return;
    }
    let Ok(message) = format!(in alloc; "{}", failure.error) else {
        return;
    };
    let (place, excerpt) = place_and_excerpt(failure);
    let parts = ErrorParts {
        number: Some(failure.error.number()),
        message: message.as_str(),
        place,
        excerpt,
        cause: failure.cause.as_deref(),
        help: failure.help.as_deref(),
    };
    write_message(alloc, parts, out);
}

/// Prints the error that ended a run, with JSON also as a message, and returns the exit status.
pub(crate) fn end_with<O: Write, E: Write>(
    alloc: Global,
    failure: RunError,
    is_json: bool,
    out: &mut O,
    err: &mut E,
) -> u8 {
    if is_json {
        write_failure(alloc, &failure, out);
    }
    print_failure(alloc, failure, err)
}

/// Splits a text at the first occurrence of a separator: the text before it and, if there is one, after it.
fn split<'a>(text: &'a str, beginning: &str) -> (&'a str, Option<&'a str>) {
    match text.split_once(beginning) {
        Some((before, behind)) => (before, Some(behind)),
        None => (text, None),
    }
}

/// The parts of a printed error: `text` is what follows `Error: `, with lines for place, cause and help if
/// they are known.
fn parts_of(text: &str) -> ErrorParts<'_> {
    let (text, help) = split(text, "\n  help: ");
    let (text, cause) = split(text, "\n  cause: ");
    let (message, place) = split(text, "\n  at ");
    let (place, excerpt) = match place {
        Some(place) => {
            let (place, excerpt) = split(place, "\n");
            (Some(place), excerpt)
        }
        None => (None, None),
    };
    ErrorParts {
        number: None,
        message,
        place,
        excerpt,
        cause,
        help,
    }
}

/// Writes the last error in the output of a step as a message, if there is one.
pub(crate) fn write_printed<O: Write>(alloc: Global, printed: &[u8], out: &mut O) {
    let text = std::str::from_utf8(printed).unwrap_or("");
    if let Some((_, error)) = text.rsplit_once("Error: ") {
        write_message(alloc, parts_of(error.trim_end()), out);
    }
}

/// Runs `error-message TEXT`: writes an error of a script as a message, and returns the exit status.
pub(crate) fn print_error_message<O: Write>(
    alloc: Global,
    arguments: &[&str],
    out: &mut O,
) -> CargoResult<u8> {
    write_message(
        alloc,
        parts_of(arguments.first().copied().unwrap_or("")),
        out,
    );
    Ok(0)
}

/// Whether the arguments of a step have an upgrade with `--message-format json`.
pub(crate) fn asks_for_json(alloc: Global, arguments: &[&str]) -> CargoResult<bool> {
    let Some(step) = read_arguments(arguments) else {
        return Ok(false);
    };
    let args = filled_args(alloc, "upgrade", step.upgrade)?;
    let Ok(matches) = parse_args(alloc, &args) else {
        return Ok(false);
    };
    let Some((_, upgrade)) = matches.subcommand() else {
        return Ok(false);
    };
    let format = upgrade.get_str("message-format").unwrap_or("");
    Ok(format == "json")
}
