//! What an item of a policy says.
ghost use Rattle.std.specs.Prelude.{◌≡◌, Some, IfErr, IfOk, IfSome, option_map, string_bytes};
ghost use Rattle.edit_base.specs.Errors.{IsMemory};
ghost use Rattle.edit_document.specs.ItemViews.{view_of};
ghost use Rattle.edit_document.specs.Items.{string_in};
ghost use Rattle.semver.specs.Order.{is_numeric};
ghost use Rattle.edit_version.specs.Requirement.{comparators_of, requirement_read};
ghost use Rattle.edit_version.specs.RustVersions.{numbers_of, rust_of};
ghost use Rattle.edit_policy.specs.Values.{by_text, days_in, days_of, level_of, status_of};

use crate::policy::Hold;
use edit_base::CargoResult;
use edit_document::Item;
use edit_version::{Level, RustVersion, read_requirement, read_rust_version};
use std::alloc::Global;

/// Whether a text allows a kind of upgrade; none for a text that does not say.
fn status_of(text: &str) -> Option<bool>
    ensures { result ≡ status_of text.now }
{
    match text {
        "allow" => Some(true),
        "ignore" => Some(false),
        _ => None,
    }
}

/// Whether an item allows a kind of upgrade; none where it does not say.
pub(crate) fn status_in(item: Item<'_>) -> Option<bool>
    ensures { result ≡ by_text status_of (view_of item.entry) }
{
    let text = item.as_str()?;
    status_of(text)
}

/// The level that a text names; none for other texts.
fn level_of(text: &str) -> Option<Level>
    ensures { result ≡ level_of text.now }
{
    match text {
        "patch" => Some(Level::Patch),
        "minor" => Some(Level::Minor),
        "major" => Some(Level::Major),
        _ => None,
    }
}

/// The level that an item names; none where it names none.
pub(crate) fn level_in(item: Item<'_>) -> Option<Level>
    ensures { result ≡ by_text level_of (view_of item.entry) }
{
    let text = item.as_str()?;
    level_of(text)
}

/// Whether a text has no characters other than decimal digits.
fn is_numeric(text: &str) -> bool
    ensures { result ≡ is_numeric text.now }
{
    text.as_bytes().iter().all(|byte| byte.is_ascii_digit())
}

/// The number of days that decimal digits are; none for other texts, and for a number of more than 32 bits.
fn days_of(text: &str) -> Option<u32>
    ensures { result ≡ days_of text.now }
{
    if !is_numeric(text) {
        return None;
    }
    match text.parse::<u32>() {
        Ok(days) => Some(days),
        Err(_) => None,
    }
}

/// The number of days that an item is; none where it is no such integer.
pub(crate) fn days_in(item: Item<'_>) -> Option<u32>
    ensures { result ≡ days_in (view_of item.entry) }
{
    let text = item.integer_text()?;
    days_of(text)
}

/// The Rust version that an item names; none where it names none.
pub(crate) fn rust_version_in(alloc: Global, item: Item<'_>) -> CargoResult<Option<RustVersion>>
    ensures ok { IfOk result (λ o. option_map numbers_of o ≡ by_text rust_of (view_of item.entry)) }
    ensures error { IfErr result IsMemory }
{
    let Some(text) = item.as_str() else {
        return Ok(None);
    };
    read_rust_version(alloc, text)
}

/// The hold that an item is; none where it is no requirement.
pub(crate) fn hold_in(alloc: Global, item: Item<'_>) -> CargoResult<Option<Hold>>
    ensures ok { IfOk result (λ o. option_map (λ h. comparators_of h.requirement) o
        ≡ by_text requirement_read (view_of item.entry)) }
    ensures text { IfOk result
        (λ o. IfSome o (λ h. string_in (view_of item.entry) ≡ Some (string_bytes h.text))) }
    ensures error { IfErr result IsMemory }
{
    let Some(text) = item.as_str() else {
        return Ok(None);
    };
    match read_requirement(alloc, text)? {
        Some(requirement) => {
            let text = String::from_str(alloc, text)?;
            Ok(Some(Hold { text, requirement }))
        }
        None => Ok(None),
    }
}
