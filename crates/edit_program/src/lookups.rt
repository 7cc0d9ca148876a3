//! Values of options in parsed arguments.
ghost use Rattle.std.specs.Prelude.{◌≡◌, ◌||◌, IfOk, is_some, map, string_bytes};
ghost use Rattle.clap.specs.Words.{first_of, found_of, rows_of};
ghost use Rattle.edit_program.specs.ParsedOptions.{is_explicit, is_from_arguments, is_given, lists_rows, values_of};

use clap::ArgMatches;
use clap::parser::ValueSource;
use std::alloc::{AllocError, Global};

/// Whether a flag is given.
pub(crate) fn is_given(matches: &ArgMatches<'_>, id: &str) -> bool
    ensures { result ≡ is_given id.now (rows_of (found_of matches.now)) }
{
    matches.get_str(id).unwrap_or("") == "true"
}

/// Whether one of two flags is given.
pub(crate) fn is_either_given(matches: &ArgMatches<'_>, one: &str, other: &str) -> bool
    ensures { result ≡ (is_given one.now (rows_of (found_of matches.now))
        || is_given other.now (rows_of (found_of matches.now))) }
{
    if is_given(matches, one) {
        return true;
    }
    is_given(matches, other)
}

/// Whether a value comes from an argument, and not from a default.
fn is_from_arguments(source: Option<ValueSource>) -> bool
    ensures { result ≡ is_from_arguments source }
{
    match source {
        Some(ValueSource::CommandLine) => true,
        Some(ValueSource::DefaultValue) | None => false,
    }
}

/// Whether an argument gives the value of an option, which is not its default then.
pub(crate) fn is_explicit(matches: &ArgMatches<'_>, id: &str) -> bool
    ensures { result ≡ is_explicit id.now (rows_of (found_of matches.now)) }
{
    is_from_arguments(matches.value_source(id))
}

/// Whether an option has a value.
pub(crate) fn has_value(matches: &ArgMatches<'_>, id: &str) -> bool
    ensures { result ≡ is_some (first_of id.now (rows_of (found_of matches.now))) }
{
    matches.get_str(id).is_some()
}

/// Whether only the rows that would change are listed: with `--interactive`, unless `--rows` says which of
/// them change.
pub(crate) fn lists_rows(matches: &ArgMatches<'_>) -> bool
    ensures { result ≡ lists_rows (rows_of (found_of matches.now)) }
{
    is_given(matches, "interactive") && !has_value(matches, "rows")
}

/// Copies texts into newly allocated memory.
fn copied_texts(alloc: Global, texts: &[&str]) -> Result<Vec<String>, AllocError>
    ensures { IfOk result (λ v. map string_bytes v.items ≡ map (λ t. t.now) texts.now) }
{
    let mut copies = Vec::new(alloc);
    'texts: for text in texts {
        copies.push(String::from_str(alloc, *text)?)?;
    }
    Ok(copies)
}

/// The values of all occurrences of an option.
pub(crate) fn values_of(
    alloc: Global,
    matches: &ArgMatches<'_>,
    id: &str,
) -> Result<Vec<String>, AllocError>
    ensures { IfOk result (λ v. map string_bytes v.items
        ≡ values_of id.now (rows_of (found_of matches.now))) }
{
    match matches.get_strs(id) {
        Some(texts) => copied_texts(alloc, texts),
        None => Ok(Vec::new(alloc)),
    }
}
