//! The `--package` arguments that name a precise version.
ghost use Rattle.std.specs.Prelude.{◌≡◌, ◌⊎◌, All, IfErr, IfOk, map, option_and_then, option_copied, option_map, string_bytes};
ghost use Rattle.std.specs.Ordering.{is_lt};
ghost use Rattle.edit_base.specs.Errors.{IsMemory};
ghost use Rattle.edit_version.specs.Greatest.{pick};
ghost use Rattle.edit_version.specs.VersionOrder.{full_order};
ghost use Rattle.edit_upgrade.specs.PinViews.{pin_view, pins_view};
ghost use Rattle.edit_upgrade.specs.EntrySelection.{IsPackageArg};
ghost use Rattle.edit_upgrade.specs.OptionCauses.{FailsAtPackageArg};
ghost use Rattle.edit_upgrade.specs.Pins.{is_strict, named_version, pin_at, pin_of, pins_of, precise_version};
ghost use Rattle.semver.specs.Identifiers.{comparator_view, parts_of};

use edit_base::CargoResult;
use edit_version::{CrateSpec, read_requirement};
use semver::{BuildMetadata, Comparator, Op, Version, VersionReq};
use std::alloc::{AllocError, Global};
use std::collections::BTreeMap;

/// A requirement and the precise version that it names.
#[derive(Drop)]
pub(crate) struct Pin {
    pub(crate) req: VersionReq,
    pub(crate) version: Version,
}

/// Names, sorted by bytes, each with its pin where there is one.
pub(crate) type Pins = BTreeMap<String, Option<Pin>>;

fn is_strict(op: Op) -> bool
    ensures { result ≡ is_strict op }
{
    matches!(op, Op::Greater | Op::Less)
}

/// The full version that a comparator names, where it names one.
fn named_version(alloc: Global, comparator: &Comparator) -> Result<Option<Version>, AllocError>
    ensures { IfOk result
        (λ o. option_map parts_of o ≡ named_version (comparator_view comparator.now)) }
{
    if is_strict(comparator.op) {
        return Ok(None);
    }
    let Some(minor) = comparator.minor else {
        return Ok(None);
    };
    let Some(patch) = comparator.patch else {
        return Ok(None);
    };
    Ok(Some(Version {
        major: comparator.major,
        minor,
        patch,
        pre: comparator.pre.clone()?,
        build: BuildMetadata::empty(),
    }))
}

/// Whether a version precedes another in the full order, which includes build metadata.
fn is_lower_version(version: &Version, other: &Version) -> bool
    ensures { result ≡ is_lt (full_order (parts_of version.now) (parts_of other.now)) }
{
    version < other
}

/// The greater of two versions; the new one where they are equal.
fn greater_version(best: Option<Version>, version: Version) -> Version
    ensures { parts_of result ≡ pick full_order (option_map parts_of best) (parts_of version) }
{
    match best {
        Some(best) => {
            if is_lower_version(&version, &best) {
                best
            } else {
                version
            }
        }
        None => version,
    }
}

/// The greatest of the full versions that comparators name.
fn precise_version(alloc: Global, comparators: &[Comparator]) -> Result<Option<Version>, AllocError>
    ensures { IfOk result
        (λ o. option_map parts_of o ≡ precise_version (map comparator_view comparators.now)) }
{
    let mut best = None;
    'comparators: for comparator in comparators {
        let named = named_version(alloc, comparator)?;
        match named {
            Some(version) => best = Some(greater_version(best, version)),
            None => {}
        }
    }
    Ok(best)
}

/// Parses a requirement, and returns it with its precise version where it names one.
fn pin_of(alloc: Global, text: &str) -> CargoResult<Option<Pin>>
    ensures ok { IfOk result (λ o. option_map pin_view o ≡ pin_of text.now) }
    ensures error { IfErr result IsMemory }
{
    let Some(req) = read_requirement(alloc, text)? else {
        return Ok(None);
    };
    let Some(version) = precise_version(alloc, &req.comparators)? else {
        return Ok(None);
    };
    Ok(Some(Pin { req, version }))
}

/// Parses an optional requirement, and returns it with its precise version where it names one.
fn maybe_pin(alloc: Global, text: Option<&String>) -> CargoResult<Option<Pin>>
    ensures ok { IfOk result (λ o. option_map pin_view o
        ≡ option_and_then pin_of (option_map string_bytes (option_copied text.entry))) }
    ensures error { IfErr result IsMemory }
{
    match text {
        Some(text) => pin_of(alloc, text.as_str()),
        None => Ok(None),
    }
}

/// The names that `--package` arguments select, each with the pin of its last argument.
///
/// Fails where an argument cannot be parsed.
pub(crate) fn read_pins(alloc: Global, args: &[String]) -> CargoResult<Pins>
    ensures pins { IfOk result (λ m. pins_view m ≡ pins_of (map string_bytes args.now)) }
    ensures read { IfOk result (λ m. All IsPackageArg (map string_bytes args.now)) }
    ensures error { IfErr result
        (λ e. IsMemory e ⊎ FailsAtPackageArg (map string_bytes args.now) e) }
{
    let mut pins = BTreeMap::new(alloc);
    'each_arg: for arg in args {
        let spec = CrateSpec::resolve(alloc, arg.as_str())?;
        let CrateSpec { name, version_req } = spec;
        let pin = maybe_pin(alloc, version_req.as_ref())?;
        pins.insert(name, pin)?;
    }
    Ok(pins)
}

/// The pin of a name, where there is one.
pub(crate) fn pin_at<'a>(pins: &'a Pins, name: &str) -> Option<&'a Pin>
    ensures { option_map pin_view (option_copied result) ≡ pin_at (pins_view pins.now) name.now }
{
    match pins.get(name) {
        Some(pin) => pin.as_ref(),
        None => None,
    }
}
