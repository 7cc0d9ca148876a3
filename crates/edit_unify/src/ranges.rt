//! The compatible range of a requirement: the versions from its floor on that have its leading numbers.
ghost use Rattle.std.specs.Prelude.{◌≡◌, IfErr, IfOk, option_map};
ghost use Rattle.edit_base.specs.Errors.{IsMemory};
ghost use Rattle.edit_version.specs.Requirement.{comparators_of};
ghost use Rattle.edit_unify.specs.Ranges.{caret_in, caret_of, is_higher, kept_minor, numbers_of, range_of};

use edit_base::CargoResult;
use edit_version::{Level, read_requirement};
use semver::{Op, VersionReq};
use std::alloc::Global;
use std::cmp::Ordering;

/// The numbers of a requirement that is one caret comparator without a pre-release.
#[derive(Clone, Copy, Debug, PartialEq, Eq, PartialOrd, Ord)]
pub(crate) struct Numbers {
    pub(crate) major: u64,
    pub(crate) minor: Option<u64>,
    pub(crate) patch: Option<u64>,
}

/// The numbers of a parsed requirement that is one caret comparator without a pre-release.
fn caret_in(req: &VersionReq) -> Option<Numbers>
    ensures { option_map numbers_of result ≡ caret_in (comparators_of req.now) }
{
    let comparators = req.comparators.as_slice();
    if comparators.len() != 1 {
        return None;
    }
    let comparator = &comparators[0];
    if !matches!(comparator.op, Op::Caret) || !comparator.pre.as_str().is_empty() {
        return None;
    }
    Some(Numbers {
        major: comparator.major,
        minor: comparator.minor,
        patch: comparator.patch,
    })
}

/// The numbers of a text that is a requirement of one caret comparator without a pre-release.
pub(crate) fn caret_of(alloc: Global, text: &str) -> CargoResult<Option<Numbers>>
    ensures numbers { IfOk result (λ o. option_map numbers_of o ≡ caret_of text.now) }
    ensures error { IfErr result IsMemory }
{
    match read_requirement(alloc, text)? {
        Some(req) => Ok(caret_in(&req)),
        None => Ok(None),
    }
}

/// The numbers that each version has that a caret requirement with these numbers admits: those up to the
/// first that is not 0.
pub(crate) fn range_of(numbers: Numbers) -> Numbers
    ensures { numbers_of result ≡ range_of (numbers_of numbers) }
{
    if numbers.major != 0 {
        return Numbers {
            major: numbers.major,
            minor: None,
            patch: None,
        };
    }
    match numbers.minor {
        Some(0) => numbers,
        minor => Numbers {
            major: 0,
            minor,
            patch: None,
        },
    }
}

/// The minor number of a floor where the level keeps it, else 0. The major number is that of the range.
pub(crate) fn kept_minor(level: Option<Level>, numbers: Numbers) -> u64
    ensures { result ≡ kept_minor level (numbers_of numbers) }
{
    match level {
        Some(Level::Patch) => numbers.minor.unwrap_or(0),
        _ => 0,
    }
}

/// Whether the floor of the first numbers is higher than that of the others; missing numbers are 0.
pub(crate) fn is_higher(a: Numbers, b: Numbers) -> bool
    ensures { result ≡ is_higher (numbers_of a) (numbers_of b) }
{
    let order = a
        .major
        .cmp(&b.major)
        .then(a.minor.unwrap_or(0).cmp(&b.minor.unwrap_or(0)))
        .then(a.patch.unwrap_or(0).cmp(&b.patch.unwrap_or(0)));
    matches!(order, Ordering::Greater)
}
