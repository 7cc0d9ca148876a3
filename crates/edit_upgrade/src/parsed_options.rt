//! The options of an upgrade, applied to entries by their names.
ghost use Rattle.std.specs.Prelude.{◌≡◌, ℕ, List, option_copied};
ghost use Rattle.std.specs.BTreeSet.{contains_text};
ghost use Rattle.std.specs.List.{list_any};
ghost use Rattle.std.specs.Str.{bytes_eq};
ghost use Rattle.edit_upgrade.specs.PackageSelection.{has_name, last_requirement};
ghost use Rattle.edit_upgrade.specs.EntrySelection.{excluded_of, is_excluded, is_named, requirement_for, package_args_of};

use crate::decision::options::Options;
use crate::package_selection::{PackageSelection, has_name, last_requirement};

/// The options with their parsed `--package` arguments and the set of excluded names.
#[derive(Clone, Copy)]
pub(crate) struct ParsedOptions<'a> {
    pub(crate) options: &'a Options,
    pub(crate) picks: &'a PackageSelection,
    ghost named: { (n : List ℕ) → has_name picks.now.args n ≡ is_named (package_args_of options.now) n },
    ghost given: { (n : List ℕ) → last_requirement picks.now.args n ≡ requirement_for options.now n },
    ghost excluded: { (n : List ℕ)
        → contains_text picks.now.excluded n ≡ list_any (bytes_eq n) (excluded_of options.now) },
}

/// Whether a `--package` argument selects entries of this name.
pub(crate) fn is_named(parsed: ParsedOptions<'_>, name: &str) -> bool
    ensures { result ≡ is_named (package_args_of parsed.entry.options.now) name.now }
{
    has_name(&parsed.picks.args, name)
}

/// Whether entries of this name are excluded, by `--exclude` or because no `--package` argument selects
/// them.
pub(crate) fn is_excluded(parsed: ParsedOptions<'_>, name: &str) -> bool
    ensures { result ≡ is_excluded parsed.entry.options.now name.now }
{
    if !parsed.options.package.is_empty() && !is_named(parsed, name) {
        return true;
    }
    parsed.picks.excluded.contains(name)
}

/// The requirement that the `--package` arguments give for this name.
pub(crate) fn requirement_for<'a>(parsed: ParsedOptions<'a>, name: &str) -> Option<&'a str>
    ensures { option_copied result ≡ requirement_for parsed.entry.options.now name.now }
{
    last_requirement(&parsed.picks.args, name)
}
