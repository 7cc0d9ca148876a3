//! Ends a test at a call that fails unexpectedly, or at a row with another result than expected.
ghost use Rattle.std.specs.Prelude.{◌≡◌, ◌++◌, ◌∷◌, [], Ok, string_bytes};

use edit_base::{CargoResult, Error};
use std::alloc::{AllocError, Global};
use std::process::Abort;

/// Unwraps the result of a call that must succeed; ends the test where it failed.
pub(crate) fn unwrap_ok<T: Drop>(rt: &impl Abort, answer: CargoResult<T>) -> T
    ensures { answer ≡ Ok result }
{
    answer.expect(rt, "an answer")
}

/// Unwraps the result of a call that fails only where memory runs out; ends the test where it failed.
pub(crate) fn unwrap_alloc<T: Drop>(rt: &impl Abort, answer: Result<T, AllocError>) -> T
    ensures { answer ≡ Ok result }
{
    answer.expect(rt, "memory")
}

/// Appends an item to a list.
pub(crate) fn push<T: Drop>(rt: &impl Abort, list: &mut Vec<T>, item: T)
    ensures { list.new.items ≡ list.old.items ++ item ∷ [] }
{
    list.push(item).ok().expect(rt, "memory");
}

/// Allocates a text.
pub(crate) fn text(rt: &impl Abort, alloc: Global, text: &str) -> String
    ensures { string_bytes result ≡ text.now }
{
    unwrap_alloc(rt, String::from_str(alloc, text))
}

/// A field with line ends in place of `@`.
pub(crate) fn unfold_lines(rt: &impl Abort, alloc: Global, field: &str) -> String {
    let lines: Vec<&str> = unwrap_alloc(rt, field.split('@').collect(alloc));
    unwrap_alloc(rt, lines.join(alloc, "\n"))
}

/// An error's number and message, separated by a space.
pub(crate) fn error_number_and_text(rt: &impl Abort, alloc: Global, error: Error) -> String {
    let number = error.number();
    unwrap_alloc(rt, format!(in alloc; "{number} {error}"))
}

/// A given text where a call succeeded, else the error's number and message.
pub(crate) fn success_or_error<T: Drop>(
    rt: &impl Abort,
    alloc: Global,
    answer: CargoResult<T>,
    success: &str,
) -> String {
    match answer {
        Ok(_) => text(rt, alloc, success),
        Err(error) => error_number_and_text(rt, alloc, error),
    }
}

/// The text that a call returned, else the error's number and message.
pub(crate) fn text_or_error(rt: &impl Abort, alloc: Global, answer: CargoResult<String>) -> String {
    match answer {
        Ok(text) => text,
        Err(error) => error_number_and_text(rt, alloc, error),
    }
}

/// Ends a test where a row has another result than expected.
pub(crate) fn check_result(rt: &impl Abort, row: &str, seen: &str, want: &str) {
    assert!(rt; seen == want, "{row}: {seen:?} in place of {want:?}");
}
