//! Which rows a report shows.
ghost use Rattle.std.specs.Prelude.{◌≡◌, IfErr, IfOk, not, option_map, string_bytes};
ghost use Rattle.std.specs.Result.{result_ok};
ghost use Rattle.semver.specs.Parse.{version_parts};
ghost use Rattle.edit_base.specs.Errors.{IsMemory};
ghost use Rattle.edit_report.specs.ShownRows.{is_held_back, is_outgrown, is_shown, is_unreadable, misses};
ghost use Rattle.edit_version.specs.Requirement.{requirement_read};

use crate::row::{Reason, Row};
use edit_base::{CargoResult, Error};
use edit_version::{admits, read_requirement};
use semver::Version;
use std::alloc::{AllocError, Global};

/// Whether an entry was left unchanged for a reason that an option can lift.
fn is_held_back(reason: Option<Reason>) -> bool
    ensures { result ≡ is_held_back reason }
{
    matches!(
        reason,
        Some(Reason::Compatible | Reason::Incompatible | Reason::Pinned)
    )
}

/// Whether a requirement does not admit a version; false where one of them cannot be parsed.
fn misses(alloc: Global, req: &str, version: &str) -> CargoResult<bool>
    ensures ok { IfOk result (λ b. b
        ≡ misses (requirement_read req.now) (result_ok (version_parts version.now))) }
    ensures error { IfErr result IsMemory }
{
    let Some(req) = read_requirement(alloc, req)? else {
        return Ok(false);
    };
    match Version::parse(alloc, version) {
        Ok(version) => Ok(!admits(&req, &version)),
        Err(error) => {
            if error == semver::Error::from(AllocError) {
                return Err(Error::Memory);
            }
            Ok(false)
        }
    }
}

/// Whether the old requirement can be parsed and does not admit the latest version.
fn is_outgrown(alloc: Global, row: &Row) -> CargoResult<bool>
    ensures ok { IfOk result (λ b. b ≡ is_outgrown row.now) }
    ensures error { IfErr result IsMemory }
{
    match (&row.old, &row.latest) {
        (Some(old), Some(latest)) => misses(alloc, old.as_str(), latest.as_str()),
        _ => Ok(false),
    }
}

/// Whether a report of this verbosity shows a row.
pub fn is_row_shown(alloc: Global, row: &Row, verbosity: i8) -> CargoResult<bool>
    ensures ok { IfOk result (λ b. b ≡ is_shown verbosity row.now) }
    ensures error { IfErr result IsMemory }
{
    if verbosity >= 2 || row.old != row.new {
        return Ok(true);
    }
    if verbosity < 1 {
        return Ok(false);
    }
    if is_held_back(row.reason) {
        return Ok(true);
    }
    is_outgrown(alloc, row)
}

/// Whether the entry of a row was left unchanged because its requirement cannot be parsed. Such a row has the
/// reason `Latest`, as if nothing newer were there.
pub fn is_unreadable(alloc: Global, row: &Row) -> CargoResult<bool>
    ensures ok { IfOk result (λ b. b ≡ is_unreadable row.now) }
    ensures error { IfErr result IsMemory }
{
    match (row.reason, &row.compatible, &row.old) {
        (Some(Reason::Latest), None, Some(old)) => {
            let requirement = read_requirement(alloc, old.as_str())?;
            Ok(requirement.is_none())
        }
        _ => Ok(false),
    }
}
