//! The output format of a plan, and whether the plan is only checked.
ghost use Rattle.std.specs.Prelude.{◌≡◌, IfErr, IfOk, None, OnOk, Some, false, true};
ghost use Rattle.clap.specs.Words.{found_of, rows_of};
ghost use Rattle.edit_program.specs.ParsedOptions.{is_dry};
ghost use Rattle.edit_program.specs.Presented.{has_color, is_color, presentation_of, format_of_options, numbered_if, upgrade_format, without_diffs};

use crate::args_error::{ArgsError, ArgsFault};
use crate::lookups::{is_given, lists_rows};
use clap::ArgMatches;
use edit_shown::{MessageFormat, Presentation};

/// A command that prints a plan.
#[derive(Clone, Copy)]
pub(crate) enum PlanCommand {
    Upgrade,
    SetVersion,
}

/// A format that has no place for diffs: an error where they are requested.
fn without_diffs<'a>(
    format: MessageFormat,
    option: &'static str,
    diff: bool,
) -> Result<Presentation, ArgsError<'a>>
    ensures ok { IfOk result (λ p. without_diffs format diff ≡ Some p) }
    ensures error { IfErr result (λ _. without_diffs format diff ≡ None) }
{
    if diff {
        return Err(ArgsError::Fault(ArgsFault::Together(option, "--diff")));
    }
    Ok(Presentation {
        format,
        diff: false,
    })
}

/// The error of a value that `--message-format` has not.
fn format_fault<'a>(formats: &'static str, format: &'a str) -> ArgsError<'a> {
    ArgsError::Fault(ArgsFault::Value("message-format", formats, format))
}

/// A format that only an upgrade has.
fn upgrade_format<'a>(format: &'a str, diff: bool) -> Result<Presentation, ArgsError<'a>>
    ensures ok { IfOk result (λ p. upgrade_format format.now diff ≡ Some p) }
    ensures error { IfErr result (λ _. upgrade_format format.now diff ≡ None) }
{
    match format {
        "markdown" => without_diffs(MessageFormat::Markdown, "--message-format markdown", diff),
        "github" => without_diffs(MessageFormat::Github, "--message-format github", diff),
        _ => Err(format_fault("human|json|markdown|github", format)),
    }
}

/// The output format of a command's plan, from the values of `--message-format` and `--diff`.
fn format_of_options<'a>(
    command: PlanCommand,
    format: &'a str,
    diff: bool,
) -> Result<Presentation, ArgsError<'a>>
    ensures ok { IfOk result (λ p. format_of_options command format.now diff ≡ Some p) }
    ensures error { IfErr result (λ _. format_of_options command format.now diff ≡ None) }
{
    match format {
        "human" => Ok(Presentation {
            format: MessageFormat::Human,
            diff,
        }),
        "json" => without_diffs(MessageFormat::Json, "--message-format json", diff),
        _ => match command {
            PlanCommand::Upgrade => upgrade_format(format, diff),
            PlanCommand::SetVersion => Err(format_fault("human|json", format)),
        },
    }
}

/// The format of numbered rows where only these are listed, else the given one.
fn numbered_if(lists: bool, given: Presentation) -> Presentation
    ensures { result ≡ numbered_if lists given }
{
    if lists {
        Presentation {
            format: MessageFormat::Numbered,
            diff: false,
        }
    } else {
        given
    }
}

/// An error where a text does not say when reports are colored.
fn check_color<'a>(color: &'a str) -> Result<(), ArgsError<'a>>
    ensures ok { OnOk result (is_color color.now ≡ true) }
    ensures error { IfErr result (λ _. is_color color.now ≡ false) }
{
    match color {
        "auto" | "always" | "never" => Ok(()),
        _ => Err(ArgsError::Fault(ArgsFault::Value("color", "auto|always|never", color))),
    }
}

/// An error where `--color` is given with none of its values.
fn check_color_option<'a>(matches: &ArgMatches<'a>) -> Result<(), ArgsError<'a>>
    ensures ok { OnOk result (has_color (rows_of (found_of matches.now)) ≡ true) }
    ensures error { IfErr result (λ _. has_color (rows_of (found_of matches.now)) ≡ false) }
{
    match matches.get_str("color") {
        Some(color) => check_color(color),
        None => Ok(()),
    }
}

/// The output format of a command's plan, from parsed arguments; an error where `--color` has none of its
/// values.
pub(crate) fn presentation<'a>(
    matches: &ArgMatches<'a>,
    command: PlanCommand,
) -> Result<Presentation, ArgsError<'a>>
    ensures ok { IfOk result (λ p. presentation_of command (rows_of (found_of matches.now)) ≡ Some p) }
    ensures error { IfErr result (λ _.
        presentation_of command (rows_of (found_of matches.now)) ≡ None) }
{
    check_color_option(matches)?;
    let format = matches.get_str("message-format").unwrap_or("");
    let given = format_of_options(command, format, is_given(matches, "diff"))?;
    Ok(numbered_if(lists_rows(matches), given))
}

/// Whether no file is written, because of `--dry-run` or `--check`, or since only rows are listed.
pub(crate) fn is_dry(matches: &ArgMatches<'_>) -> bool
    ensures { result ≡ is_dry (rows_of (found_of matches.now)) }
{
    is_given(matches, "dry-run") || is_given(matches, "check") || lists_rows(matches)
}
