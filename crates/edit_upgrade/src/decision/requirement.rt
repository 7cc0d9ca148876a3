//! Whether a requirement can be parsed, and whether it pins its entry.
ghost use Rattle.std.specs.List.{list_any};
ghost use Rattle.std.specs.Prelude.{◌≡◌, ◌||◌, IfErr, IfOk, is_ok};
ghost use Rattle.edit_base.specs.Errors.{IsMemory};
ghost use Rattle.edit_version.specs.ReadRequirement.{text_in};
ghost use Rattle.semver.specs.Parse.{req_of};
ghost use Rattle.edit_upgrade.specs.Decision.{has_pin_read, is_pin};

use edit_base::CargoResult;
use edit_version::Requirement;
use semver::{Comparator, Op};
use std::alloc::Global;

/// `=`, `<`, `<=` and wildcards.
fn is_pin(op: Op) -> bool
    ensures { result ≡ is_pin op }
{
    matches!(op, Op::Exact | Op::Less | Op::LessEq | Op::Wildcard)
}

/// Whether one of the comparators is `=`, `<`, `<=` or a wildcard, which pins the entry.
fn has_pin(comparators: &[Comparator]) -> bool
    ensures { result ≡ list_any (λ c. is_pin c.op) comparators.now }
{
    comparators.iter().any(|c| is_pin(c.op))
}

/// Whether a requirement can be parsed, and whether its entry is pinned.
#[derive(Clone, Copy)]
pub struct PinStatus {
    pub readable: bool,
    pub pinned: bool,
}

/// Whether a requirement can be parsed, and whether its comparators or a `package` key (a renamed
/// dependency) pin the entry.
pub fn requirement_pin(renamed: bool, old: &Requirement<'_>) -> PinStatus
    ensures readable { result.readable ≡ is_ok (req_of (text_in old.now)) }
    ensures pinned { result.pinned ≡ (renamed || has_pin_read (req_of (text_in old.now))) }
{
    match old.version_req() {
        Some(req) => PinStatus {
            readable: true,
            pinned: renamed | has_pin(&req.comparators),
        },
        None => PinStatus {
            readable: false,
            pinned: renamed,
        },
    }
}

/// Parses a requirement, and returns whether it can be parsed and whether its entry is pinned.
pub fn read_pin(alloc: Global, renamed: bool, text: &str) -> CargoResult<PinStatus>
    ensures readable { IfOk result (λ p. p.readable ≡ is_ok (req_of text.now)) }
    ensures pinned { IfOk result (λ p. p.pinned ≡ (renamed || has_pin_read (req_of text.now))) }
    ensures error { IfErr result IsMemory }
{
    let read = Requirement::read(alloc, text)?;
    Ok(requirement_pin(renamed, &read))
}
