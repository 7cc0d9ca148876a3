//! The bound on the time of publication, from `--published-before`, `--min-age` and `--now`.
ghost use Rattle.std.specs.Prelude.{◌≡◌, IfErr, IfOk, None, Some, SomeIff, option_map};
ghost use Rattle.clap.specs.Words.{found_of, rows_of};
ghost use Rattle.edit_program.specs.ParsedBound.{HasBoundFault, HasNoAge, HasNoBound, IsAge, IsBound, IsDays, IsGivenBound, IsTime, days_of};
ghost use Rattle.edit_sources.specs.Published.{instant_of};

use crate::args_error::{ArgsError, ArgsFault};
use clap::ArgMatches;
use edit_sources::PublishedBefore;

/// What an invalid time is not.
const TIME: &str = "not a time of RFC 3339, as 2026-05-01T12:00:00Z";

/// What an invalid number of days is not.
const DAYS: &str = "not a whole number up to 4294967295";

/// The number of days that a text is; `None` where it is no whole number, or is too large.
fn day_count(text: &str) -> Option<u32>
    ensures { SomeIff result (IsDays text.now) (days_of text.now) }
{
    match text.parse::<u32>() {
        Ok(days) => Some(days),
        Err(_) => None,
    }
}

/// The error of an option's invalid value.
fn invalid_value<'a>(
    option: &'static str,
    name: &'static str,
    value: &'a str,
    expected: &'static str,
) -> ArgsError<'a> {
    ArgsError::Fault(ArgsFault::Invalid(option, name, value, expected))
}

/// The bound at a time; an error where the text is no time.
fn bound_at<'a>(time: &'a str) -> Result<Option<PublishedBefore>, ArgsError<'a>>
    ensures ok { IfOk result (IsTime time.now) }
    ensures error { IfErr result (λ _. instant_of time.now ≡ None) }
{
    match PublishedBefore::parse(time) {
        Some(bound) => Ok(Some(bound)),
        None => Err(invalid_value("published-before", "TIME", time, TIME)),
    }
}

/// The bound a number of days before a time; an error where the text of either is invalid.
fn bound_before<'a>(days: &'a str, now: &'a str) -> Result<Option<PublishedBefore>, ArgsError<'a>>
    ensures ok { IfOk result (IsAge days.now (Some now.now)) }
    ensures error { IfErr result (λ _. HasNoAge days.now (Some now.now)) }
{
    let Some(count) = day_count(days) else {
        return Err(invalid_value("min-age", "DAYS", days, DAYS));
    };
    match PublishedBefore::days_before(now, count) {
        Some(bound) => Ok(Some(bound)),
        None => Err(invalid_value("now", "TIME", now, TIME)),
    }
}

/// The bound that an age gives; an error where there is no time to count back from.
fn bound_of_age<'a>(
    days: &'a str,
    now: Option<&'a str>,
) -> Result<Option<PublishedBefore>, ArgsError<'a>>
    ensures ok { IfOk result (IsAge days.now (option_map (λ t. t.now) now.entry)) }
    ensures error { IfErr result (λ _. HasNoAge days.now (option_map (λ t. t.now) now.entry)) }
{
    match now {
        Some(now) => bound_before(days, now),
        None => Err(ArgsError::Fault(ArgsFault::Needs("--min-age <DAYS>", "--now <TIME>"))),
    }
}

/// The bound that the values of `--published-before`, `--min-age` and `--now` give; none without the first
/// two.
fn bound_of<'a>(
    time: Option<&'a str>,
    days: Option<&'a str>,
    now: Option<&'a str>,
) -> Result<Option<PublishedBefore>, ArgsError<'a>>
    ensures ok { IfOk result (IsBound (option_map (λ t. t.now) time.entry)
        (option_map (λ t. t.now) days.entry) (option_map (λ t. t.now) now.entry)) }
    ensures error { IfErr result (λ _. HasNoBound (option_map (λ t. t.now) time.entry)
        (option_map (λ t. t.now) days.entry) (option_map (λ t. t.now) now.entry)) }
{
    match (time, days) {
        (None, None) => Ok(None),
        (Some(time), None) => bound_at(time),
        (None, Some(days)) => bound_of_age(days, now),
        (Some(_), Some(_)) => Err(ArgsError::Fault(ArgsFault::Together(
            "--published-before <TIME>",
            "--min-age <DAYS>",
        ))),
    }
}

/// The bound on the time of publication that parsed arguments of `upgrade` give.
pub(crate) fn publication_bound<'a>(
    matches: &ArgMatches<'a>,
) -> Result<Option<PublishedBefore>, ArgsError<'a>>
    ensures ok { IfOk result (IsGivenBound (rows_of (found_of matches.now))) }
    ensures error { IfErr result (λ _. HasBoundFault (rows_of (found_of matches.now))) }
{
    bound_of(
        matches.get_str("published-before"),
        matches.get_str("min-age"),
        matches.get_str("now"),
    )
}
