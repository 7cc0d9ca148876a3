//! The messages about entries that could not be fetched.
ghost use Rattle.std.specs.Prelude.{◌≡◌, ◌++◌, IfOk, OnOk, codes, length, map, option_map, string_bytes};
ghost use Rattle.std.specs.Fmt.{decimal};
ghost use Rattle.std.specs.List.{flat_map};
ghost use Rattle.edit_answers.specs.Groups.{GroupText, group_text, included_lookups};
ghost use Rattle.edit_answers.specs.Messages.{IsReport, IsUnreadable, cached_line, cached_text, error_text, skipped_line, line_of, missing_line, names_text, message_address, unfetched_text};
ghost use Rattle.edit_lookups.specs.ControlEscapes.{escape_controls};

use crate::groups::{Consequence, Group, groups_with, included_lookups};
use crate::meaning::Outcome;
use crate::reasons::escape_message;
use edit_lookups::{Lookup, push_escaped, strip_userinfo};
use std::alloc::{AllocError, Global};

/// The messages of a run: its warnings, each with a line end, and the error that ends it with status 1, if
/// there is one.
#[derive(Debug, Drop)]
pub struct Report {
    pub warnings: String,
    pub error: Option<String>,
}

/// The options of the user that affect the messages.
#[derive(Clone, Copy, Debug)]
pub struct StoreOptions<'a> {
    /// Whether nothing may be fetched.
    pub offline: bool,
    /// The names of crates that are not upgraded, so that their entries are not needed.
    pub excluded: &'a [&'a str],
}

/// Formats the address of a registry for messages: without userinfo, and with control characters escaped.
fn message_address(alloc: Global, address: &str) -> Result<String, AllocError>
    ensures { IfOk result (λ s. string_bytes s ≡ message_address address.now) }
{
    let shown = strip_userinfo(alloc, address)?;
    escape_message(alloc, shown.as_str())
}

/// Appends names, each after a comma and a space.
fn push_names(text: &mut String, names: &[&str]) -> Result<(), AllocError>
    ensures { OnOk result (string_bytes text.new ≡ string_bytes text.old
        ++ flat_map (λ n. codes ", " ++ escape_controls n.now) names.now) }
{
    for name in names {
        text.push_str(", ")?;
        push_escaped(text, name)?;
    }
    Ok(())
}

/// Joins names by commas.
fn names_text(alloc: Global, names: &[&str]) -> Result<String, AllocError>
    ensures { IfOk result (λ s. string_bytes s ≡ names_text (map (λ n. n.now) names.now)) }
{
    match names.split_first() {
        Some((first, rest)) => {
            let mut text = escape_message(alloc, first)?;
            push_names(&mut text, rest)?;
            Ok(text)
        }
        None => Ok(String::new(alloc)),
    }
}

/// Formats a number in decimal digits.
fn number_text(alloc: Global, number: usize) -> Result<String, AllocError>
    ensures { IfOk result (λ s. string_bytes s ≡ decimal number) }
{
    format!(in alloc; "{number}")
}

/// The number of crates in a group.
fn count_of(group: &Group<'_>) -> usize
    ensures { result ≡ length (group_text group.now).names }
{
    group.names.len()
}

/// Formats the number of crates in a group in decimal digits.
fn count_text(alloc: Global, group: &Group<'_>) -> Result<String, AllocError>
    ensures { IfOk result (λ s. string_bytes s ≡ decimal (length (group_text group.now).names)) }
{
    let count = count_of(group);
    number_text(alloc, count)
}

/// Formats how many index entries of a registry could not be fetched, and why.
#[tactic(auto, unfolding(crate::specs::Messages::unfetched_text))]
fn unfetched_text(
    alloc: Global,
    count: &str,
    shown: &str,
    reason: &str,
) -> Result<String, AllocError>
    ensures { IfOk result (λ s. string_bytes s ≡ unfetched_text count.now shown.now reason.now) }
{
    format!(in alloc; "{count} index entries of {shown} could not be fetched ({reason})")
}

/// The first part of the warning about a group whose cached entries are used.
#[tactic(auto, unfolding(crate::specs::Messages::cached_text))]
fn cached_text(alloc: Global, group: &Group<'_>) -> Result<String, AllocError>
    ensures { IfOk result (λ s. string_bytes s ≡ cached_text (group_text group.now)) }
{
    let count = count_text(alloc, group)?;
    let shown = message_address(alloc, group.address)?;
    let reason = group.reason.as_str();
    unfetched_text(alloc, count.as_str(), shown.as_str(), reason)
}

/// The warning about a group whose cached entries are used.
fn cached_line(alloc: Global, group: &Group<'_>) -> Result<String, AllocError>
    ensures { IfOk result (λ s. string_bytes s ≡ cached_line (group_text group.now)) }
{
    let what = cached_text(alloc, group)?;
    let names = names_text(alloc, &group.names)?;
    format!(in alloc; "warning: {what}: the cached ones are used ({names})\n")
}

/// The warning about a group whose crates are not upgraded.
fn skipped_line(alloc: Global, group: &Group<'_>) -> Result<String, AllocError>
    ensures { IfOk result (λ s. string_bytes s ≡ skipped_line (group_text group.now)) }
{
    let shown = message_address(alloc, group.address)?;
    let names = names_text(alloc, &group.names)?;
    let reason = group.reason.as_str();
    let what = format!(in alloc; "no index entries of {shown} are cached for {names} ({reason})")?;
    format!(in alloc; "warning: {what}: these crates stay as they are\n")
}

/// The line of the error for a group that the upgrade cannot proceed without.
fn missing_line(alloc: Global, group: &Group<'_>) -> Result<String, AllocError>
    ensures { IfOk result (λ s. string_bytes s ≡ missing_line (group_text group.now)) }
{
    let shown = message_address(alloc, group.address)?;
    let names = names_text(alloc, &group.names)?;
    let reason = group.reason.as_str();
    format!(in alloc; "\n  {shown}: {names} ({reason})")
}

/// The line for a group of lookups with this consequence.
fn line_of(alloc: Global, standing: Consequence, group: &Group<'_>) -> Result<String, AllocError>
    ensures { IfOk result (λ s. string_bytes s ≡ line_of standing (group_text group.now)) }
{
    match standing {
        Consequence::Cached => cached_line(alloc, group),
        Consequence::Left => skipped_line(alloc, group),
        Consequence::Missing => missing_line(alloc, group),
    }
}

/// Appends the lines for groups of lookups with this consequence.
fn push_lines(
    alloc: Global,
    text: &mut String,
    standing: Consequence,
    groups: &[Group<'_>],
) -> Result<(), AllocError>
    ensures { OnOk result (string_bytes text.new ≡ string_bytes text.old
        ++ flat_map (line_of standing) (map group_text groups.now)) }
{
    for group in groups {
        text.push_str(line_of(alloc, standing, group)?.as_str())?;
    }
    Ok(())
}

/// The report of a run whose file of lookups is malformed.
pub fn malformed_report(alloc: Global) -> Result<Report, AllocError>
    ensures { IfOk result IsUnreadable }
{
    Ok(Report {
        warnings: String::new(alloc),
        error: Some(String::from_str(alloc, "the lookups of this run are malformed")?),
    })
}

/// The error about the groups that the upgrade cannot proceed without; `None` if there are none.
fn error_of(alloc: Global, groups: &[Group<'_>]) -> Result<Option<String>, AllocError>
    ensures { IfOk result (λ o. option_map string_bytes o ≡ error_text (map group_text groups.now)) }
{
    if groups.is_empty() {
        return Ok(None);
    }
    let mut text = String::from_str(
        alloc,
        "index entries could not be fetched, and are not in the cache; ",
    )?;
    text.push_str("leave the crates out by `--exclude`, or as they are by `--offline`:")?;
    push_lines(alloc, &mut text, Consequence::Missing, groups)?;
    Ok(Some(text))
}

/// Formats the messages about the results of lookups: a warning for each registry whose cached entries are
/// used, one for each registry whose crates are not upgraded, and an error with a line for each registry that
/// the upgrade cannot proceed without. Crates that are excluded from the upgrade are not mentioned.
pub fn report_of(
    alloc: Global,
    lookups: &[Lookup<'_>],
    outcomes: &[Outcome<'_>],
    options: &StoreOptions<'_>,
) -> Result<Report, AllocError>
    ensures { IfOk result (IsReport options.now.offline
        (included_lookups options.now.excluded.now lookups.now outcomes.now)) }
{
    let offline = options.offline;
    let pairs = included_lookups(alloc, options.excluded, lookups, outcomes)?;
    let cached = groups_with(alloc, Consequence::Cached, offline, &pairs)?;
    let left = groups_with(alloc, Consequence::Left, offline, &pairs)?;
    let missing = groups_with(alloc, Consequence::Missing, offline, &pairs)?;
    let mut warnings = String::new(alloc);
    push_lines(alloc, &mut warnings, Consequence::Cached, &cached)?;
    push_lines(alloc, &mut warnings, Consequence::Left, &left)?;
    let error = error_of(alloc, &missing)?;
    Ok(Report { warnings, error })
}
