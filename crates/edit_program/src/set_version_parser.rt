//! The arguments that parsed arguments of `set-version` give.
ghost use Rattle.std.specs.Prelude.{◌≡◌, ◌≢◌, ◌||◌, IfErr, IfOk, Some, None, codes, is_some, map, option_map, string_bytes};
ghost use Rattle.clap.specs.Words.{first_of, found_of, rows_of};
ghost use Rattle.edit_set_version.specs.Bumps.{target_of};
ghost use Rattle.edit_program.specs.declared.args_error.ArgsError.TheVariants as parse_error;
ghost use Rattle.edit_program.specs.ParsedOptions.{is_given, values_of};
ghost use Rattle.edit_program.specs.ParsedSetVersion.{HasSetVersionArgs, HaveNoTarget, HaveVersionFault, IsTarget, conflicting_selections, has_conflicting_selections};

use crate::args_error::{ArgsError, ArgsFault};
use crate::lookups::{is_given, values_of};
use crate::output_format::{PlanCommand, is_dry, presentation};
use crate::set_version_run::SetVersionArgs;
use clap::ArgMatches;
use edit_set_version::{BumpLevel, Selection, TargetVersion};
use semver::Version;
use std::alloc::{AllocError, Global};
use std::str::FromStr;

/// Two of `--package`, `--all` and `--workspace` that are both given: of several such pairs the first of
/// `--all` and `--workspace`, `--package` and `--all`, `--package` and `--workspace`.
fn conflicting_selections(matches: &ArgMatches<'_>) -> Option<(&'static str, &'static str)>
    ensures found { is_some result ≡ has_conflicting_selections (rows_of (found_of matches.now)) }
    ensures named { option_map (λ pair. (pair.0.now, pair.1.now)) result
        ≡ conflicting_selections (rows_of (found_of matches.now)) }
{
    let all = is_given(matches, "all");
    let workspace = is_given(matches, "workspace");
    let package = matches.get_str("package").is_some();
    if all && workspace {
        Some(("--all", "--workspace"))
    } else if package && all {
        Some(("--package <PKGID>", "--all"))
    } else if package && workspace {
        Some(("--package <PKGID>", "--workspace"))
    } else {
        None
    }
}

/// The target for a level.
fn target_by_level<'a>(name: &'a str) -> Result<TargetVersion, ArgsError<'a>>
    ensures ok { IfOk result (λ t. IsTarget None (Some name.now) (target_of t)) }
    ensures error { IfErr result (λ _. HaveNoTarget None (Some name.now)) }
{
    match BumpLevel::from_str(name) {
        Ok(level) => Ok(TargetVersion::Relative(level)),
        Err(levels) => Err(ArgsError::Fault(ArgsFault::Level(name, levels))),
    }
}

/// The target for a version.
fn target_by_version<'a>(alloc: Global, text: &'a str) -> Result<TargetVersion, ArgsError<'a>>
    ensures ok { IfOk result (λ t. IsTarget (Some text.now) None (target_of t)) }
    ensures error { IfErr result (λ e. e ≢ parse_error.Memory → HaveNoTarget (Some text.now) None) }
{
    match Version::parse(alloc, text) {
        Ok(version) => Ok(TargetVersion::Absolute(version)),
        Err(error) => {
            if error == semver::Error::from(AllocError) {
                return Err(ArgsError::Memory);
            }
            Err(ArgsError::Fault(ArgsFault::Version(text, error)))
        }
    }
}

/// The target, from the arguments for a version and a level.
fn target<'a>(
    alloc: Global,
    version: Option<&'a str>,
    level: Option<&'a str>,
) -> Result<TargetVersion, ArgsError<'a>>
    ensures ok { IfOk result (λ t. IsTarget (option_map (λ s. s.now) version.entry)
        (option_map (λ s. s.now) level.entry) (target_of t)) }
    ensures error { IfErr result (λ e. e ≢ parse_error.Memory
        → HaveNoTarget (option_map (λ s. s.now) version.entry) (option_map (λ s. s.now) level.entry)) }
{
    match (version, level) {
        (None, None) => Ok(TargetVersion::default()),
        (None, Some(name)) => target_by_level(name),
        (Some(text), None) => target_by_version(alloc, text),
        (Some(_), Some(_)) => Err(ArgsError::Fault(ArgsFault::Together(
            "[TARGET]",
            "--bump <LEVEL>",
        ))),
    }
}

/// Copies the value of an option into newly allocated memory.
fn copied_value(
    alloc: Global,
    matches: &ArgMatches<'_>,
    id: &str,
) -> Result<Option<String>, AllocError>
    ensures { IfOk result (λ o.
        option_map string_bytes o ≡ first_of id.now (rows_of (found_of matches.now))) }
{
    match matches.get_str(id) {
        Some(text) => Ok(Some(String::from_str(alloc, text)?)),
        None => Ok(None),
    }
}

/// The selected members and the build metadata, from parsed arguments of `set-version`.
fn selection(alloc: Global, matches: &ArgMatches<'_>) -> Result<Selection, AllocError>
    ensures packages { IfOk result (λ s. map string_bytes s.packages.items
        ≡ values_of (codes "package") (rows_of (found_of matches.now))) }
    ensures exclude { IfOk result (λ s. map string_bytes s.exclude.items
        ≡ values_of (codes "exclude") (rows_of (found_of matches.now))) }
    ensures workspace { IfOk result (λ s. s.workspace
        ≡ (is_given (codes "workspace") (rows_of (found_of matches.now))
        || is_given (codes "all") (rows_of (found_of matches.now)))) }
    ensures metadata { IfOk result (λ s. option_map string_bytes s.metadata
        ≡ first_of (codes "metadata") (rows_of (found_of matches.now))) }
{
    Ok(Selection {
        packages: values_of(alloc, matches, "package")?,
        exclude: values_of(alloc, matches, "exclude")?,
        workspace: is_given(matches, "workspace") || is_given(matches, "all"),
        metadata: copied_value(alloc, matches, "metadata")?,
    })
}

/// The options and paths that parsed arguments of `set-version` give.
pub(crate) fn parse_set_version_args<'a>(
    alloc: Global,
    matches: &ArgMatches<'a>,
) -> Result<SetVersionArgs<'a>, ArgsError<'a>>
    ensures asks { IfOk result (HasSetVersionArgs (rows_of (found_of matches.now))) }
    ensures error { IfErr result (λ e. e ≢ parse_error.Memory
        → HaveVersionFault (rows_of (found_of matches.now))) }
{
    if let Some((one, other)) = conflicting_selections(matches) {
        return Err(ArgsError::Fault(ArgsFault::Together(one, other)));
    }
    let target = target(alloc, matches.get_str("target"), matches.get_str("bump"))?;
    let presentation = presentation(matches, PlanCommand::SetVersion)?;
    Ok(SetVersionArgs {
        metadata_json: matches.get_str("metadata-json").unwrap_or("metadata.json"),
        target,
        selection: selection(alloc, matches)?,
        all: is_given(matches, "all"),
        dry_run: is_dry(matches),
        presentation,
    })
}
