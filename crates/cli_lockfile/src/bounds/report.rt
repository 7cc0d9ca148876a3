//! The error for packages of a lock file that are still beyond a bound.

use crate::bounds::addresses::SourceAddresses;
use crate::bounds::bounded_lock::{BoundFiles, BoundedLock};
use crate::bounds::publication_times::publication_time;
use edit_base::CargoResult;
use edit_lock_bounds::{Correction, Outcome, Package};
use edit_steps::{RunResult, absolute_path};
use std::alloc::{AllocError, Global};
use std::io::Write;

/// How many of the packages that require a package are named.
const NAMED: usize = 3;

/// The packages that require a package, by name and version: the first three, and how many more there are.
fn requiring(alloc: Global, lock: &BoundedLock, package: &Package) -> Result<String, AllocError> {
    let mut text = String::new(alloc);
    let mut count = 0usize;
    for requirement in &lock.requirements.all {
        if requirement.name.as_str() == package.name.as_str() {
            if count < NAMED {
                text.push_str(if count == 0 { "" } else { ", " })?;
                text.push_str(requirement.required_by.as_str())?;
            }
            count = count.saturating_add(1);
        }
    }
    if count > NAMED {
        let more = count - NAMED;
        text.push_str(format!(in alloc; " and {more} more")?.as_str())?;
    }
    Ok(text)
}

/// The line for a package beyond a bound: its version, the time of publication, and what requires it.
fn line_of(
    rt: &HostRuntime,
    room: &str,
    lock: &BoundedLock,
    addresses: &SourceAddresses,
    package: &Package,
) -> CargoResult<String> {
    let alloc = rt.alloc();
    let name = package.name.as_str();
    let version = package.version.as_str();
    let source = package.source.as_deref().unwrap_or("");
    let time = match addresses.address_of(alloc, source)? {
        Some(address) => publication_time(rt, room, &address, name, version)?,
        None => None,
    };
    let by = requiring(alloc, lock, package)?;
    Ok(match time {
        Some(time) => {
            format!(in alloc; "  {name} {version}, published at {time}, required by {by}\n")?
        }
        None => format!(in alloc; "  {name} {version}, required by {by}\n")?,
    })
}

/// Prints a warning with the packages whose index entries are not known, and an error with the packages
/// beyond a bound. Returns whether there is such an error.
pub(super) fn print<E: Write>(
    rt: &HostRuntime,
    named: &BoundFiles<'_>,
    current: &str,
    lock: &BoundedLock,
    addresses: &SourceAddresses,
    corrections: &[Correction],
    err: &mut E,
) -> RunResult<bool> {
    let alloc = rt.alloc();
    let room = absolute_path(alloc, current, named.room)?;
    let mut unknown = String::new(alloc);
    let mut left = String::new(alloc);
    for correction in corrections {
        let package = &correction.package;
        if let Outcome::Unknown = &correction.outcome {
            unknown.push_str(if unknown.is_empty() { "" } else { ", " })?;
            unknown.push_str(package.name.as_str())?;
            continue;
        }
        let line = line_of(rt, room.as_str(), lock, addresses, package)?;
        left.push_str(line.as_str())?;
    }
    if !unknown.is_empty() {
        let _ = writeln!(
            err,
            "warning: whether these packages of Cargo.lock are within the bounds is not known, since their \
             index entries are not: {unknown}"
        );
    }
    if left.is_empty() {
        return Ok(false);
    }
    let bound = match &lock.bounds.time {
        Some(time) => format!(in alloc; " of {time}")?,
        None => String::new(alloc),
    };
    let _ = write!(
        err,
        "Error: the manifests are written, but Cargo.lock has packages beyond the bound{bound}, which \
         cargo did not set back:\n{left}  help: require older versions of the crates that need them, or \
         upgrade with another bound\n"
    );
    Ok(true)
}
