//! The options and paths that parsed arguments of `upgrade` give.
ghost use Rattle.std.specs.Prelude.{◌≡◌, ◌≢◌, IfErr, IfOk, None, Some, codes, false, option_map, true};
ghost use Rattle.std.specs.Str.{bytes_eq};
ghost use Rattle.clap.specs.Words.{first_of, found_of, rows_of};
ghost use Rattle.edit_program.specs.declared.args_error.ArgsError.TheVariants as parse_error;
ghost use Rattle.edit_program.specs.ParsedOptions.{HasBadStatus, HasGivenChoices, HasOptions, is_given, status_of, status_of_value, verbosity_of};
ghost use Rattle.edit_program.specs.ParsedRows.{HasNoRowChoice, HasRowChoice, HasRowFault, IsRowChoice};
ghost use Rattle.edit_program.specs.ParsedUpgrade.{HasUpgradeArgs, HasNoRust, HaveUpgradeFault, IsRust, has_lockfile_fault, has_two_indexes, level_in, level_of, level_of_value};

use crate::args_error::{ArgsError, ArgsFault};
use crate::lookups::{has_value, is_either_given, is_explicit, is_given, values_of};
use crate::output_format::{PlanCommand, is_dry, presentation};
use crate::publication_bound::publication_bound;
use crate::upgrade_run::UpgradeArgs;
use clap::ArgMatches;
use edit_base::Error;
use edit_choice::RowChoice;
use edit_policy::GivenChoices;
use edit_steps::upgrade_read::RustChoice;
use edit_upgrade::Options;
use edit_version::{Level, RustVersion};
use std::alloc::Global;

/// Whether a value allows or ignores a kind of upgrade; `None` for any other value.
fn status_of_value(value: &str) -> Option<bool>
    ensures { result ≡ status_of_value value.now }
{
    match value {
        "allow" | "true" => Some(true),
        "ignore" | "false" => Some(false),
        _ => None,
    }
}

/// Whether the value of an option allows or ignores a kind of upgrade; any other value is an error.
fn status_of<'a>(matches: &ArgMatches<'a>, option: &'static str) -> Result<bool, ArgsError<'a>>
    ensures ok { IfOk result (λ s. status_of option.now (rows_of (found_of matches.now)) ≡ Some s) }
    ensures error { IfErr result (λ _. status_of option.now (rows_of (found_of matches.now)) ≡ None) }
{
    let value = matches.get_str(option).unwrap_or("");
    match status_of_value(value) {
        Some(status) => Ok(status),
        None => Err(ArgsError::Fault(ArgsFault::Value(option, "allow|ignore", value))),
    }
}

/// Whether locked dependencies are updated recursively, where `--recursive` is given.
fn recursive_option(matches: &ArgMatches<'_>) -> Option<bool>
    ensures { result ≡ option_map (λ v. bytes_eq v (codes "true"))
        (first_of (codes "recursive") (rows_of (found_of matches.now))) }
{
    match matches.get_str("recursive") {
        Some(value) => Some(value == "true"),
        None => None,
    }
}

/// The verbosity, from the numbers of `--verbose` and `--quiet`.
fn verbosity(more: u8, less: u8) -> i8
    ensures { result ≡ verbosity_of more less }
{
    if more < less {
        -1
    } else {
        (more - less).min(4) as i8
    }
}

/// Parses a version of Rust.
fn named_rust<'a>(alloc: Global, text: &'a str) -> Result<RustChoice, ArgsError<'a>>
    ensures ok { IfOk result (IsRust (Some text.now) false) }
    ensures error { IfErr result (λ e. e ≢ parse_error.Memory → HasNoRust (Some text.now) false) }
{
    match RustVersion::from_str(alloc, text) {
        Ok(version) => Ok(RustChoice::Given(version)),
        Err(Error::Memory) => Err(ArgsError::Memory),
        Err(error) => Err(ArgsError::Fault(ArgsFault::Rust(text, error))),
    }
}

/// The Rust versions to plan for, from `--rust-version` and `--ignore-rust-version`.
fn rust_choice<'a>(
    alloc: Global,
    named: Option<&'a str>,
    ignored: bool,
) -> Result<RustChoice, ArgsError<'a>>
    ensures ok { IfOk result (IsRust (option_map (λ s. s.now) named.entry) ignored) }
    ensures error { IfErr result (λ e. e ≢ parse_error.Memory
        → HasNoRust (option_map (λ s. s.now) named.entry) ignored) }
{
    match (named, ignored) {
        (None, false) => Ok(RustChoice::Own),
        (None, true) => Ok(RustChoice::Ignored),
        (Some(text), false) => named_rust(alloc, text),
        (Some(_), true) => Err(ArgsError::Fault(ArgsFault::Together(
            "--rust-version <VER>",
            "--ignore-rust-version",
        ))),
    }
}

/// The level that a value names; `None` for any other value.
fn level_of_value(value: &str) -> Option<Level>
    ensures { result ≡ level_of_value value.now }
{
    match value {
        "patch" => Some(Level::Patch),
        "minor" => Some(Level::Minor),
        "major" => Some(Level::Major),
        _ => None,
    }
}

/// The level that a value sets; a value that names none is an error.
fn named_level<'a>(value: &'a str) -> Result<Option<Level>, ArgsError<'a>>
    ensures ok { IfOk result (λ l. level_in (Some value.now) ≡ Some l) }
    ensures error { IfErr result (λ _. level_in (Some value.now) ≡ None) }
{
    match level_of_value(value) {
        Some(level) => Ok(Some(level)),
        None => Err(ArgsError::Fault(ArgsFault::Value("level", "patch|minor|major", value))),
    }
}

/// The level that a value sets, if there is one; a value that names none is an error.
fn level_in<'a>(value: Option<&'a str>) -> Result<Option<Level>, ArgsError<'a>>
    ensures ok { IfOk result (λ l. level_in (option_map (λ s. s.now) value.entry) ≡ Some l) }
    ensures error { IfErr result (λ _. level_in (option_map (λ s. s.now) value.entry) ≡ None) }
{
    match value {
        Some(text) => named_level(text),
        None => Ok(None),
    }
}

/// The level that `--level` sets, if it is given.
fn level_of<'a>(matches: &ArgMatches<'a>) -> Result<Option<Level>, ArgsError<'a>>
    ensures ok { IfOk result (λ l. level_of (rows_of (found_of matches.now)) ≡ Some l) }
    ensures error { IfErr result (λ _. level_of (rows_of (found_of matches.now)) ≡ None) }
{
    level_in(matches.get_str("level"))
}

/// The options of an upgrade, from parsed arguments of `upgrade` and the level that they set.
fn options_of<'a>(
    alloc: Global,
    matches: &ArgMatches<'a>,
    level: Option<Level>,
) -> Result<Options, ArgsError<'a>>
    ensures options { IfOk result (HasOptions (rows_of (found_of matches.now))) }
    ensures level { IfOk result (λ o. o.level ≡ level) }
    ensures error { IfErr result (λ e. e ≢ parse_error.Memory
        → HasBadStatus (rows_of (found_of matches.now))) }
{
    Ok(Options {
        compatible: status_of(matches, "compatible")?,
        incompatible: status_of(matches, "incompatible")?,
        pinned: status_of(matches, "pinned")?,
        package: values_of(alloc, matches, "package")?,
        exclude: values_of(alloc, matches, "exclude")?,
        dry_run: is_dry(matches),
        locked: is_given(matches, "locked"),
        recursive: recursive_option(matches),
        verbosity: verbosity(matches.get_count("verbose"), matches.get_count("quiet")),
        never_lower: is_either_given(matches, "never-lower", "to-lockfile"),
        level,
        crate_levels: Vec::new(alloc),
    })
}

/// Which of the choices of an upgrade arguments give. `--to-lockfile` gives that on incompatible upgrades:
/// they are excluded then.
fn given_choices(matches: &ArgMatches<'_>) -> GivenChoices
    ensures { HasGivenChoices (rows_of (found_of matches.now)) result }
{
    GivenChoices {
        compatible: is_explicit(matches, "compatible"),
        incompatible: is_explicit(matches, "incompatible") || is_given(matches, "to-lockfile"),
        pinned: is_explicit(matches, "pinned"),
    }
}

/// Whether both an index file and an index folder are given.
fn has_two_indexes(matches: &ArgMatches<'_>) -> bool
    ensures { result ≡ has_two_indexes (rows_of (found_of matches.now)) }
{
    let file = matches.get_str("index-file").is_some();
    let folder = matches.get_str("index-dir").is_some();
    file && folder
}

/// Whether requirements are raised only to versions of the lock file; an error where no lock file is given,
/// and where incompatible upgrades are allowed.
fn to_lockfile<'a>(matches: &ArgMatches<'a>, incompatible: bool) -> Result<bool, ArgsError<'a>>
    ensures given { IfOk result (λ to. to ≡ is_given (codes "to-lockfile") (rows_of (found_of matches.now))) }
    ensures usable { IfOk result (λ _.
        has_lockfile_fault incompatible (rows_of (found_of matches.now)) ≡ false) }
    ensures error { IfErr result (λ _.
        has_lockfile_fault incompatible (rows_of (found_of matches.now)) ≡ true) }
{
    if !is_given(matches, "to-lockfile") {
        return Ok(false);
    }
    if !has_value(matches, "lock-file") {
        return Err(ArgsError::Fault(ArgsFault::Needs("--to-lockfile", "--lock-file <FILE>")));
    }
    if incompatible {
        return Err(ArgsError::Fault(ArgsFault::Together("--to-lockfile", "--incompatible allow")));
    }
    Ok(true)
}

/// The choice of rows that a text is; a text that is none is an error.
fn named_rows<'a>(alloc: Global, text: &'a str) -> Result<Option<RowChoice<'a>>, ArgsError<'a>>
    ensures ok { IfOk result (IsRowChoice (Some text.entry.now)) }
    ensures error { IfErr result (λ e. e ≢ parse_error.Memory → HasNoRowChoice (Some text.entry.now)) }
{
    match RowChoice::parse(alloc, text)? {
        Some(choice) => Ok(Some(choice)),
        None => Err(ArgsError::Fault(ArgsFault::Invalid(
            "rows",
            "ROWS",
            text,
            "not numbers from 1 on as 1,3-5, names of crates, all or none",
        ))),
    }
}

/// The rows that are chosen, where that is requested; an error for a text that is no choice, and for
/// `--interactive` with `--check`.
fn row_choice<'a>(
    alloc: Global,
    matches: &ArgMatches<'a>,
) -> Result<Option<RowChoice<'a>>, ArgsError<'a>>
    ensures ok { IfOk result (HasRowChoice (rows_of (found_of matches.now))) }
    ensures error { IfErr result (λ e. e ≢ parse_error.Memory
        → HasRowFault (rows_of (found_of matches.now))) }
{
    if is_given(matches, "interactive") && is_given(matches, "check") {
        return Err(ArgsError::Fault(ArgsFault::Together("--interactive", "--check")));
    }
    match matches.get_str("rows") {
        Some(text) => named_rows(alloc, text),
        None => Ok(None),
    }
}

/// The options and paths that parsed arguments of `upgrade` give.
pub(crate) fn parse_upgrade_args<'a>(
    alloc: Global,
    matches: &ArgMatches<'a>,
) -> Result<UpgradeArgs<'a>, ArgsError<'a>>
    ensures asks { IfOk result (HasUpgradeArgs (rows_of (found_of matches.now))) }
    ensures error { IfErr result (λ e. e ≢ parse_error.Memory
        → HaveUpgradeFault (rows_of (found_of matches.now))) }
{
    if has_two_indexes(matches) {
        return Err(ArgsError::Fault(ArgsFault::Together(
            "--index-file <FILE>",
            "--index-dir <DIR>",
        )));
    }
    let ignored = is_given(matches, "ignore-rust-version");
    let rust = rust_choice(alloc, matches.get_str("rust-version"), ignored)?;
    let published_before = publication_bound(matches)?;
    let presentation = presentation(matches, PlanCommand::Upgrade)?;
    let level = level_of(matches)?;
    let options = options_of(alloc, matches, level)?;
    let to_lockfile = to_lockfile(matches, options.incompatible)?;
    let rows = row_choice(alloc, matches)?;
    Ok(UpgradeArgs {
        manifest_path: matches.get_str("manifest-path"),
        metadata_json: matches.get_str("metadata-json"),
        index_file: matches.get_str("index-file"),
        index_dir: matches.get_str("index-dir"),
        config: matches.get_str("config"),
        default_config: matches.get_str("default-config"),
        rust,
        options,
        given: given_choices(matches),
        no_policy: is_given(matches, "no-policy"),
        presentation,
        update_calls: matches.get_str("update-calls"),
        lock_file: matches.get_str("lock-file"),
        offline: is_given(matches, "offline"),
        to_lockfile,
        published_before,
        time: matches.get_str("now"),
        unify: is_given(matches, "unify"),
        rows,
    })
}
