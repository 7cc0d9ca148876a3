//! An error of the program, with its place, its cause and what a user can do about it.
ghost use Rattle.std.specs.Prelude.{◌≡◌, ◌≢◌, IfSome, None, OnOk, Some, option_map, string_bytes};
ghost use Rattle.std.specs.Io.KnownBytes.{Appends};
ghost use Rattle.edit_base.specs.Errors.{number_of};
ghost use Rattle.edit_base.specs.declared.errors.Error.TheVariants.{Memory};
ghost use Rattle.edit_steps.specs.Places.{IsPlaceIn, IsPlaceShown, file_place};
ghost use Rattle.edit_steps.specs.Printed.{IsErrorPrinted, IsTitlePrinted, is_continuation_byte, known_line, known_lines, position_after, position_text, title_line};

use crate::excerpt::excerpt;
use crate::toml_fault::toml_fault;
use edit_base::Error;
use std::alloc::{AllocError, Global};
use std::io;

/// An error, and what is printed below its message: one line for each field that is known.
#[derive(Debug, Drop)]
pub struct RunError {
    pub error: Error,
    /// The file that caused the error, with line and column where they help: `PATH`, `PATH:LINE` or
    /// `PATH:LINE:COLUMN`. For a TOML syntax error an excerpt of the line follows, with a caret below the
    /// column.
    pub place: Option<String>,
    /// What the message leaves open: the operating system's reason, or what a parser expected.
    pub cause: Option<String>,
    /// What the user can do about it.
    pub help: Option<String>,
}

/// The result of a step of the program.
pub type RunResult<T> = Result<T, RunError>;

/// An error of which nothing else is known.
pub(crate) fn error_alone(error: Error) -> RunError
    ensures error { result.error ≡ error }
    ensures place { result.place ≡ None }
{
    RunError {
        error,
        place: None,
        cause: None,
        help: None,
    }
}

impl From<Error> for RunError {
    ghost from_gives = { λ e r. r.error ≡ e };

    fn from(error: Error) -> RunError {
        error_alone(error)
    }
}

impl From<AllocError> for RunError {
    ghost from_gives = { λ _ r. r.error ≡ Memory };

    fn from(_error: AllocError) -> RunError {
        RunError::from(Error::Memory)
    }
}

/// Prints a line about an error, where its text is known.
fn print_known<E: io::Write>(name: &str, known: &Option<String>, err: &mut E) -> io::Result<()>
    ensures { OnOk result (Appends (E.contents err.old) (E.contents err.new)
        (known_line name.now (option_map string_bytes known.now))) }
{
    match known {
        Some(text) => writeln!(err, "  {name}{text}"),
        None => Ok(()),
    }
}

/// Prints the place, the cause and the help of an error, where they are known.
fn print_lines<E: io::Write>(failure: &RunError, err: &mut E) -> io::Result<()>
    ensures { OnOk result (Appends (E.contents err.old) (E.contents err.new) (known_lines failure.now)) }
{
    print_known("at ", &failure.place, err)?;
    print_known("cause: ", &failure.cause, err)?;
    print_known("help: ", &failure.help, err)
}

/// Prints the first line of an error.
fn print_title<E: io::Write>(message: &str, err: &mut E) -> io::Result<()>
    ensures { OnOk result (Appends (E.contents err.old) (E.contents err.new) (title_line message.now)) }
{
    writeln!(err, "Error: {message}")
}

/// Prints the first line of an error, with its message. Where memory runs out for it, the message is `out of
/// memory`.
fn print_message<E: io::Write>(alloc: Global, error: &Error, err: &mut E) -> io::Result<()>
    ensures { OnOk result (IsTitlePrinted (E.contents err.old) (E.contents err.new)) }
{
    match format!(in alloc; "{error}") {
        Ok(message) => print_title(message.as_str(), err),
        Err(_) => print_title("out of memory", err),
    }
}

/// Prints an error as the program ends with it: its message after `Error: `, and below it one line each for
/// its place, its cause and the help, where they are known. The contract does not specify the message.
pub fn print_error<E: io::Write>(alloc: Global, failure: &RunError, err: &mut E) -> io::Result<()>
    ensures { OnOk result (IsErrorPrinted failure.now (E.contents err.old) (E.contents err.new)) }
{
    print_message(alloc, &failure.error, err)?;
    print_lines(failure, err)
}

/// The place of an error in the file at a path: the file, or a line of it. `None` where memory ran out.
fn place_of(alloc: Global, error: &Error, path: &str) -> Option<String>
    ensures { IfSome result (λ s. Some (string_bytes s) ≡ file_place path.now error.now) }
{
    match error {
        Error::IndexLine { line } => format!(in alloc; "{path}:{line}").ok(),
        Error::NotUtf8 | Error::Device(_) | Error::NoManifest | Error::NoPath => String::from_str(
            alloc, path,
        ).ok(),
        Error::Metadata | Error::FolderTwice { .. } => String::from_str(alloc, path).ok(),
        _ => None,
    }
}

/// Adds to an error the file at a path, or a line of it, as its place.
pub fn at_path(alloc: Global, error: Error, path: &str) -> RunError
    ensures error { result.error ≡ error }
    // without a place where memory ran out
    ensures place { IfSome result.place (λ s. Some (string_bytes s) ≡ file_place path.now error) }
{
    let place = place_of(alloc, &error, path);
    RunError {
        error,
        place,
        cause: None,
        help: None,
    }
}

/// The cause of an error: the operating system's reason where the device failed.
fn cause_of(error: &Error, reason: Option<String>) -> Option<String>
    ensures device { number_of error.now ≡ 3 → result ≡ reason }
    ensures other { number_of error.now ≢ 3 → result ≡ None }
{
    match error {
        Error::Device(_) => reason,
        _ => None,
    }
}

/// Adds to an error of reading or writing a file its path, and the operating system's reason where the
/// device failed.
pub fn at_file(alloc: Global, error: Error, path: &str, reason: Option<String>) -> RunError
    ensures error { result.error ≡ error }
    // without a place where memory ran out
    ensures place { IfSome result.place (λ s. Some (string_bytes s) ≡ file_place path.now error) }
    // the reason of a device error is its cause, and other errors have none
    ensures device { number_of error ≡ 3 → result.cause ≡ reason }
    ensures other { number_of error ≢ 3 → result.cause ≡ None }
{
    let cause = cause_of(&error, reason);
    let failure = at_path(alloc, error, path);
    RunError { cause, ..failure }
}

/// The place of a byte in a file, as `PATH:LINE:COLUMN`. Line and column count from 1, the column in
/// characters. An offset past the end is that of the end. `None` where memory ran out.
pub fn position(alloc: Global, path: &str, bytes: &[u8], at: usize) -> Option<String>
    ensures { IfSome result (λ s. string_bytes s ≡ position_text path.now bytes.now at) }
{
    let behind = position_after(&bytes[..at.min(bytes.len())]);
    let (line, column) = (behind.line, behind.column);
    format!(in alloc; "{path}:{line}:{column}").ok()
}

/// The place of a byte in a file, and an excerpt of its line.
pub(crate) fn shown_position(alloc: Global, path: &str, bytes: &[u8], at: usize) -> Option<String>
    ensures { IfSome result (λ s. IsPlaceShown (position_text path.now bytes.now at) (string_bytes s)) }
{
    let place = position(alloc, path, bytes, at)?;
    let behind = position_after(&bytes[..at.min(bytes.len())]);
    match excerpt(alloc, bytes, behind.line, behind.column) {
        Some(excerpt) => format!(in alloc; "{place}\n{excerpt}").ok(),
        None => Some(place),
    }
}

/// What the parser expected where a text stops being TOML, where that is known.
fn parser_expectation(alloc: Global, bytes: &[u8]) -> Option<String> {
    let fault = toml_fault(alloc, bytes)?;
    Some(fault.message)
}

/// Adds a place to an error about the contents of a file: for a TOML syntax error with an excerpt of the
/// line, and with what was expected.
pub fn at_byte(alloc: Global, error: Error, path: &str, bytes: &[u8]) -> RunError
    ensures error { result.error ≡ error }
    // without a place where memory ran out
    ensures place { IfSome result.place (λ s. IsPlaceIn path.now bytes.now error (string_bytes s)) }
{
    let Error::NotToml { at } = &error else {
        return at_path(alloc, error, path);
    };
    let place = shown_position(alloc, path, bytes, *at);
    let cause = parser_expectation(alloc, bytes);
    RunError {
        error,
        place,
        cause,
        help: None,
    }
}

/// A line and a column of a text, each from 1. The column counts characters.
#[derive(Clone, Copy)]
struct LineColumn {
    line: usize,
    column: usize,
}

/// Whether a byte continues a UTF-8 sequence, so that it does not begin a character.
fn is_continuation_byte(byte: u8) -> bool
    ensures { result ≡ is_continuation_byte byte }
{
    0x80 <= byte && byte <= 0xbf
}

/// The line and the column of the end of these bytes.
fn position_after(before: &[u8]) -> LineColumn
    ensures { (result.line, result.column) ≡ position_after before.now }
{
    let mut behind = LineColumn { line: 1, column: 1 };
    for byte in before {
        if *byte == b'\n' {
            behind.line += 1;
            behind.column = 1;
        } else if !is_continuation_byte(*byte) {
            behind.column += 1;
        }
    }
    behind
}
