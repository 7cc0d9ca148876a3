//! Warnings about `--package NAME@REQ` where REQ admits no published version of the crate.

use cli_machine::{IndexFiles, index_files};
use edit_base::CargoResult;
use edit_program::LockPlan;
use edit_report::{Change, shell_warn};
use edit_sources::index_dir::DirIndex;
use edit_sources::{Index, IndexKrate};
use edit_steps::absolute_path;
use edit_version::floors::floor;
use edit_version::{CrateSpec, Requirement, admits, allows_prerelease, read_version};
use semver::{Comparator, Version};
use std::alloc::Global;
use std::io::Write;

/// The published versions next to the floor of a requirement: the greatest one below it, and the least one
/// above it.
#[derive(Drop)]
struct Nearest {
    below: Option<Version>,
    above: Option<Version>,
}

/// Whether a version is published that a requirement admits.
#[derive(Drop)]
enum Published {
    /// There is one, or the versions of the crate are not known.
    Admitted,
    /// There is none.
    Missing(Nearest),
}

/// Prints a warning for each `--package NAME@REQ` that changes an entry although REQ admits no version of
/// the crate NAME. Yanked versions do not count.
pub(crate) fn print_unpublished<E: Write>(
    rt: &HostRuntime,
    index_dir: Option<&str>,
    current: &str,
    planned: &LockPlan,
    err: &mut E,
) -> CargoResult<()> {
    let Some(folder) = index_dir else {
        return Ok(());
    };
    let files = index_files(rt, current, Some(folder))?;
    let folder = absolute_path(rt.alloc(), current, folder)?;
    // (all versions: those of the plan are restricted by its policy and its time)
    let mut index = DirIndex::new(files, folder);
    for argument in &planned.options.package {
        let spec = CrateSpec::resolve(rt.alloc(), argument.as_str())?;
        let name = spec.name.as_str();
        let Some(text) = spec.version_req.as_deref() else {
            continue;
        };
        if !is_set(planned, name) {
            continue;
        }
        if let Published::Missing(nearest) = compare_versions(
            rt.alloc(),
            &mut index,
            planned,
            name,
            text,
        )? {
            print_warning(rt.alloc(), name, text, &nearest, err)?;
        }
    }
    Ok(())
}

/// Whether an argument sets the requirement of an entry of this crate.
fn is_set(planned: &LockPlan, name: &str) -> bool {
    planned.plan.rows.iter().any(|row| row.name.as_str() == name
        && row.change == Some(Change::Explicit))
}

/// Compares the versions of a crate, in the registries of a plan, with a requirement.
fn compare_versions(
    alloc: Global,
    index: &mut DirIndex<IndexFiles>,
    planned: &LockPlan,
    name: &str,
    text: &str,
) -> CargoResult<Published> {
    let requirement = Requirement::read(alloc, text)?;
    let mut nearest = Nearest {
        below: None,
        above: None,
    };
    let mut is_known = false;
    for look in &planned.plan.looks {
        if look.name.as_str() != name {
            continue;
        }
        if let Ok(Some(krate)) = index.look(alloc, &look.registry, name) {
            is_known = true;
            if add_versions(alloc, &requirement, &krate, &mut nearest)? {
                return Ok(Published::Admitted);
            }
        }
    }
    if is_known {
        Ok(Published::Missing(nearest))
    } else {
        Ok(Published::Admitted)
    }
}

/// Returns whether a requirement admits one of the versions of a crate; if not, `nearest` has the nearest
/// ones.
fn add_versions(
    alloc: Global,
    requirement: &Requirement<'_>,
    krate: &IndexKrate,
    nearest: &mut Nearest,
) -> CargoResult<bool> {
    let Some(req) = requirement.version_req() else {
        return Ok(true);
    };
    let floor = floor(requirement);
    for entry in &krate.versions {
        if entry.yanked {
            continue;
        }
        let Some(version) = read_version(alloc, entry.version.as_str())? else {
            continue;
        };
        if admits(req, &version) {
            return Ok(true);
        }
        if let Some(floor) = floor {
            add_version(floor, version, nearest);
        }
    }
    Ok(false)
}

/// Whether a version is below the one in a comparator.
fn is_below(version: &Version, floor: &Comparator) -> bool {
    let numbers = (version.major, version.minor, version.patch);
    let named = (
        floor.major,
        floor.minor.unwrap_or(0),
        floor.patch.unwrap_or(0),
    );
    numbers < named || (numbers == named && version.pre < floor.pre)
}

/// Stores a version in `nearest` if it is nearer to the floor than the stored one on the same side.
fn add_version(floor: &Comparator, version: Version, nearest: &mut Nearest) {
    if !version.pre.as_str().is_empty() && floor.pre.as_str().is_empty() {
        return;
    }
    if is_below(&version, floor) {
        if nearest.below.as_ref().is_none_or(|best| best < &version) {
            nearest.below = Some(version);
        }
    } else if nearest.above.as_ref().is_none_or(|best| &version < best) {
        nearest.above = Some(version);
    }
}

/// Prints the warning that no version is admitted, with the nearest ones.
fn print_warning<E: Write>(
    alloc: Global,
    name: &str,
    text: &str,
    nearest: &Nearest,
    err: &mut E,
) -> CargoResult<()> {
    let mut message = format!(in alloc; "no version of {name} is published that {text} admits")?;
    match (&nearest.below, &nearest.above) {
        (Some(below), Some(above)) => {
            write!(message, "; the nearest are {below} and {above}")?;
        }
        (Some(one), None) | (None, Some(one)) => write!(message, "; the nearest is {one}")?,
        (None, None) => {}
    }
    shell_warn(err, message.as_str())
}
