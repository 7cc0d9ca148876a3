//! Parsed `--package` arguments, and the set of excluded names.
ghost use Rattle.std.specs.Prelude.{◌≡◌, ◌≢◌, ◌++◌, [], ◌∷◌, ℕ, List, if◌then◌else◌, IfErr, IfOk, OnOk, map, option_copied, string_bytes};
ghost use Rattle.std.specs.BTreeSet.{contains_text};
ghost use Rattle.std.specs.List.{list_any};
ghost use Rattle.std.specs.Str.{bytes_eq};
ghost use Rattle.edit_base.specs.Errors.{IsMemory};
ghost use Rattle.edit_version.specs.CrateSpecs.{IsInvalidSpec};
ghost use Rattle.edit_upgrade.specs.PackageSelection.{AddsPackageArg, IsPackageSelection, ArePackageArgs, has_name, last_requirement};
ghost use Rattle.edit_upgrade.specs.OptionCauses.{IsOptionCause, FailsAtPackageArg};

use crate::decision::options::Options;
use crate::names::{Names, add_name};
use edit_base::CargoResult;
use edit_version::CrateSpec;
use std::alloc::{AllocError, Global};
use std::collections::{BTreeMap, BTreeSet};

/// Parsed `--package` arguments: names, some with a requirement.
#[derive(Drop)]
pub(crate) struct PackageArgs {
    /// The selected names, each once, in the order of their first argument.
    pub(crate) names: Vec<String>,
    /// For each name the requirement of its last argument, `None` where that has none.
    pub(crate) requirements: BTreeMap<String, Option<String>>,
}

/// The selection by name: the parsed `--package` arguments and the excluded names.
#[derive(Drop)]
pub(crate) struct PackageSelection {
    pub(crate) args: PackageArgs,
    pub(crate) excluded: Names,
}

/// Whether a `--package` argument selects this name.
pub(crate) fn has_name(args: &PackageArgs, name: &str) -> bool
    ensures { result ≡ has_name args.now name.now }
{
    args.requirements.contains_key(name)
}

/// The requirement that the last `--package` argument of this name gives.
pub(crate) fn last_requirement<'a>(args: &'a PackageArgs, name: &str) -> Option<&'a str>
    ensures { option_copied result ≡ last_requirement args.now name.now }
{
    match args.requirements.get(name) {
        Some(Some(req)) => Some(req.as_str()),
        Some(None) | None => None,
    }
}

/// Appends a name, unless it is in the list.
fn add_first(alloc: Global, args: &mut PackageArgs, name: &str) -> Result<(), AllocError>
    ensures names { OnOk result (map string_bytes args.new.names.items
        ≡ map string_bytes args.old.names.items
        ++ (if has_name args.old name.now then [] else name.now ∷ [])) }
    ensures requirements { args.new.requirements ≡ args.old.requirements }
{
    if has_name(args, name) {
        return Ok(());
    }
    let name = String::from_str(alloc, name)?;
    args.names.push(name)?;
    Ok(())
}

/// Parses one more `--package` argument.
fn add_package_arg(alloc: Global, args: &mut PackageArgs, arg: &str) -> CargoResult<()>
    ensures ok { OnOk result (AddsPackageArg arg.now args.old args.new) }
    ensures error { IfErr result (IsInvalidSpec arg.now) }
{
    let CrateSpec { name, version_req } = CrateSpec::resolve(alloc, arg)?;
    add_first(alloc, args, name.as_str())?;
    args.requirements.insert(name, version_req)?;
    Ok(())
}

/// Parses `--package` arguments, in their order.
fn parse_package_args(alloc: Global, args: &[String]) -> CargoResult<PackageArgs>
    ensures ok { IfOk result (ArePackageArgs (map string_bytes args.now)) }
    ensures error { IfErr result (FailsAtPackageArg (map string_bytes args.now)) }
{
    let mut read = PackageArgs {
        names: Vec::new(alloc),
        requirements: BTreeMap::new(alloc),
    };
    'each_arg: for arg in args {
        add_package_arg(alloc, &mut read, arg.as_str())?;
    }
    Ok(read)
}

/// The set of these names.
fn name_set(alloc: Global, names: &[String]) -> CargoResult<Names>
    ensures ok { IfOk result (λ s. (name : List ℕ)
        → contains_text s name ≡ list_any (bytes_eq name) (map string_bytes names.now)) }
    ensures error { IfErr result (λ e. IsMemory e × (names.now ≢ [])) }
{
    let mut set = BTreeSet::new(alloc);
    'names: for name in names {
        add_name(alloc, &mut set, name.as_str())?;
    }
    Ok(set)
}

/// Parses the `--package` arguments of the options, then collects the excluded names.
pub(crate) fn parse_selection(alloc: Global, options: &Options) -> CargoResult<PackageSelection>
    ensures ok { IfOk result (IsPackageSelection options.now) }
    ensures error { IfErr result (IsOptionCause options.now) }
{
    let args = parse_package_args(alloc, &options.package)?;
    let excluded = name_set(alloc, &options.exclude)?;
    Ok(PackageSelection { args, excluded })
}
