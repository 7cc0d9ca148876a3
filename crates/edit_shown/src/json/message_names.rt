//! Constant texts in messages.
ghost use Rattle.std.specs.Prelude.{◌≡◌, IfErr, IfOk, option_map, string_bytes};
ghost use Rattle.edit_base.specs.Errors.{IsMemory};
ghost use Rattle.edit_shown.specs.JsonMessages as spec;

use edit_base::CargoResult;
use edit_report::{Change, Reason, Row, is_unreadable};
use std::alloc::Global;

/// Borrows an optional text.
pub(crate) fn borrow_optional_text(text: &Option<String>) -> Option<&str>
    ensures { option_map (λ t. t.now) result ≡ option_map string_bytes text.now }
{
    match text {
        Some(text) => Some(text.as_str()),
        None => None,
    }
}

/// The text of a reason.
fn reason_name(reason: Option<Reason>) -> Option<&'static str>
    ensures { option_map (λ t. t.now) result ≡ spec.reason_name reason }
{
    match reason {
        None => None,
        Some(Reason::Latest) => Some("latest"),
        Some(Reason::Compatible) => Some("compatible"),
        Some(Reason::Incompatible) => Some("incompatible"),
        Some(Reason::Pinned) => Some("pinned"),
        Some(Reason::GitSource) => Some("git"),
        Some(Reason::PathSource) => Some("local"),
        Some(Reason::Excluded) => Some("excluded"),
    }
}

/// The text of why the requirement of a row was not raised further.
pub(crate) fn why_name(alloc: Global, row: &Row) -> CargoResult<Option<&'static str>>
    ensures name { IfOk result (λ name. option_map (λ t. t.now) name ≡ spec.why_name row.now) }
    ensures error { IfErr result IsMemory }
{
    if is_unreadable(alloc, row)? {
        return Ok(Some("unreadable"));
    }
    Ok(reason_name(row.reason))
}

/// The text of a kind of change.
pub(crate) fn change_name(change: Option<Change>) -> Option<&'static str>
    ensures { option_map (λ t. t.now) result ≡ spec.change_name change }
{
    match change {
        None => None,
        Some(Change::Explicit) => Some("explicit"),
        Some(Change::Latest) => Some("latest"),
        Some(Change::Compatible) => Some("compatible"),
        Some(Change::Unified) => Some("unified"),
    }
}
