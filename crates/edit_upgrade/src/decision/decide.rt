//! The decision whether and how the requirement of an entry changes.
ghost use Rattle.edit_base.specs.Errors.{IsMemory};
ghost use Rattle.edit_report.specs.declared.row.Reason.TheVariants as reason;
ghost use Rattle.std.specs.Prelude.{◌≡◌, if◌then◌else◌, Some, None, false, IfErr, IfOk, option_and_then, option_copied, option_map, string_bytes};
ghost use Rattle.edit_upgrade.specs.Decision.{decision, is_too_low, newer, or_else, same_text, text_or, unless, unless_old};
ghost use Rattle.edit_upgrade.specs.Decided.{case_view, choice_view, decision_by, jumps_by, raised_choice};
ghost use Rattle.edit_upgrade.specs.Offers.{offered_version};
ghost use Rattle.edit_version.specs.ReadRequirement.{text_in};
ghost use Rattle.edit_version.specs.Requirement.{plain_text, upgrade_of};
ghost use Rattle.semver.specs.Identifiers.{parts_of};

use crate::decision::offers::Offer;
use crate::decision::options::Options;
use crate::decision::requirement::{PinStatus, requirement_pin};
use edit_base::{CargoResult, Error};
use edit_report::{Change, Reason};
use edit_version::Requirement;
use edit_version::floors::is_below;
use semver::Version;
use std::alloc::{AllocError, Global};

/// The decision for an entry: its new requirement, the kind of change, and the reason where there is one.
#[derive(Debug, Drop)]
pub struct Decided {
    pub new: String,
    pub change: Option<Change>,
    pub reason: Option<Reason>,
}

/// The requirement raised to a version; `other` where a comparator cannot be raised (`Error::Unsupported`),
/// and `None` where the requirement cannot be parsed (`Error::InvalidRequirement`).
fn candidate(
    alloc: Global,
    old: &Requirement<'_>,
    version: &Version,
    other: &str,
) -> CargoResult<Option<String>>
    ensures text { IfOk result (λ o. option_map string_bytes o
        ≡ text_or other.now (upgrade_of (text_in old.now) (parts_of version.now))) }
    ensures error { IfErr result IsMemory }
{
    match old.upgrade_to(alloc, version) {
        Ok(text) => Ok(text),
        Err(Error::Unsupported { comparator: _ }) => Ok(Some(String::from_str(alloc, other)?)),
        Err(Error::InvalidRequirement { text: _ }) => Ok(None),
        Err(error) => Err(error),
    }
}

/// The text for the latest version, where that is newer than the compatible one, and not below the floor of a
/// requirement that is never to be lowered.
fn latest_candidate(
    alloc: Global,
    never_lower: bool,
    old: &Requirement<'_>,
    compatible: Option<&Offer<'_>>,
    latest: Option<&Offer<'_>>,
) -> CargoResult<Option<String>>
    ensures text { IfOk result (λ o. option_map string_bytes o
        ≡ unless (is_too_low never_lower (text_in old.now)
        (newer (offered_version (option_copied latest.entry))
        (offered_version (option_copied compatible.entry))))
        (option_and_then (λ v. text_or (plain_text v) (upgrade_of (text_in old.now) v))
        (newer (offered_version (option_copied latest.entry))
        (offered_version (option_copied compatible.entry))))) }
    ensures error { IfErr result IsMemory }
{
    let Some(latest) = latest else {
        return Ok(None);
    };
    let text = latest.text.as_str();
    if let Some(compatible) = compatible {
        if text == compatible.text.as_str() {
            return Ok(None);
        }
    }
    if never_lower && is_below(old, latest.version) {
        return Ok(None);
    }
    candidate(alloc, old, latest.version, text)
}

/// The requirement raised to the compatible version; `None` where there is no such version, or where the
/// requirement cannot be parsed.
fn compatible_candidate(
    alloc: Global,
    old: &Requirement<'_>,
    compatible: Option<&Offer<'_>>,
) -> CargoResult<Option<String>>
    ensures text { IfOk result (λ o. option_map string_bytes o
        ≡ option_and_then (λ v. text_or (text_in old.now) (upgrade_of (text_in old.now) v))
        (offered_version (option_copied compatible.entry))) }
    ensures error { IfErr result IsMemory }
{
    match compatible {
        Some(offer) => candidate(alloc, old, offer.version, old.text()),
        None => Ok(None),
    }
}

/// The decision to leave a requirement unchanged, for this reason.
fn leave_unchanged(alloc: Global, old: &str, why: Reason) -> Result<Decided, AllocError>
    ensures { IfOk result (λ d. choice_view d ≡ record { new = old.now; change = None; reason = Some why }) }
{
    Ok(Decided {
        new: String::from_str(alloc, old)?,
        change: None,
        reason: Some(why),
    })
}

/// The given reason, or `Reason::Latest` where none is given.
fn why_same(why: Option<Reason>) -> Reason
    ensures { Some result ≡ or_else why (Some reason.Latest) }
{
    match why {
        Some(why) => why,
        None => Reason::Latest,
    }
}

/// The decision to set this requirement; no change where it equals the old one.
fn change_requirement(old: &str, text: String, kind: Change, why: Option<Reason>) -> Decided
    ensures { choice_view result ≡ record {
      new = string_bytes text;
      change = unless_old old.now (string_bytes text) kind;
      reason = or_else why (if same_text (string_bytes text) old.now then Some reason.Latest else None);
    } }
{
    if text.as_str() == old {
        Decided {
            new: text,
            change: None,
            reason: Some(why_same(why)),
        }
    } else {
        Decided {
            new: text,
            change: Some(kind),
            reason: why,
        }
    }
}

/// Whether the options allow to raise an entry to the latest version.
fn may_jump(options: &Options, pinned: bool) -> bool
    ensures { result ≡ jumps_by options.now pinned }
{
    if pinned {
        options.pinned
    } else {
        options.incompatible
    }
}

/// Why the latest version is not taken: the given reason, else `Pinned` or `Incompatible`.
fn why_held(pinned: bool, why: Option<Reason>) -> Reason
    ensures { Some result ≡ or_else why (Some (if pinned then reason.Pinned else reason.Incompatible)) }
{
    match why {
        Some(why) => why,
        None => {
            if pinned {
                Reason::Pinned
            } else {
                Reason::Incompatible
            }
        }
    }
}

/// The decision for a requirement that can be parsed, where no `--package` argument sets it. `far` is the
/// text for the latest version, `near` that for the compatible one; `aside` is set where a `--package`
/// argument was ignored because the entry is pinned.
fn decide_raised(
    alloc: Global,
    options: &Options,
    pinned: bool,
    aside: bool,
    old: &str,
    far: Option<String>,
    near: Option<String>,
) -> Result<Decided, AllocError>
    ensures { IfOk result (λ d. choice_view d ≡ raised_choice options.now pinned aside old.now
        (option_map string_bytes far) (option_map string_bytes near)) }
{
    let aside = if aside { Some(Reason::Pinned) } else { None };
    let held = match far {
        Some(text) => {
            if may_jump(options, pinned) {
                return Ok(change_requirement(old, text, Change::Latest, aside));
            }
            Some(why_held(pinned, aside))
        }
        None => aside,
    };
    match near {
        Some(text) => {
            if options.compatible {
                return Ok(change_requirement(old, text, Change::Compatible, held));
            }
            leave_unchanged(alloc, old, held.unwrap_or(Reason::Compatible))
        }
        None => leave_unchanged(alloc, old, why_same(held)),
    }
}

/// The decision from the candidate texts: `far` for the latest version, `near` for the compatible one,
/// `selected` the requirement of a `--package` argument.
fn decide_by(
    alloc: Global,
    options: &Options,
    pin: PinStatus,
    selected: Option<&str>,
    old: &str,
    far: Option<String>,
    near: Option<String>,
) -> Result<Decided, AllocError>
    ensures { IfOk result (λ d. choice_view d ≡ decision_by options.now false pin.pinned pin.readable
        (option_copied selected.entry) old.now
        (option_map string_bytes far) (option_map string_bytes near)) }
{
    let aside = match selected {
        Some(text) => {
            if !pin.pinned || options.pinned {
                let text = String::from_str(alloc, text)?;
                return Ok(change_requirement(old, text, Change::Explicit, None));
            }
            true
        }
        None => false,
    };
    if pin.readable {
        return decide_raised(alloc, options, pin.pinned, aside, old, far, near);
    }
    leave_unchanged(
        alloc,
        old,
        if aside {
            Reason::Pinned
        } else {
            Reason::Latest
        },
    )
}

/// What is decided on beside the requirement of an entry and the options.
#[derive(Clone, Copy)]
pub struct EntryCase<'a> {
    /// Whether a `--exclude` argument names the crate.
    pub excluded: bool,
    /// Whether the entry renames its crate.
    pub renamed: bool,
    /// The requirement of a `--package` argument for the crate.
    pub selected: Option<&'a str>,
    /// The greatest version in the index that the requirement admits.
    pub compatible: Option<&'a Offer<'a>>,
    /// The latest version in the index.
    pub latest: Option<&'a Offer<'a>>,
}

/// Decides whether and how the requirement `old` of an entry changes.
pub fn decide(
    alloc: Global,
    options: &Options,
    case: EntryCase<'_>,
    old: &Requirement<'_>,
) -> CargoResult<Decided>
    ensures decided { IfOk result (λ d. choice_view d ≡ decision options.now
        (case_view case.entry options.now.never_lower (text_in old.now))) }
    ensures error { IfErr result IsMemory }
{
    if case.excluded {
        return Ok(leave_unchanged(alloc, old.text(), Reason::Excluded)?);
    }
    let pin = requirement_pin(case.renamed, old);
    let EntryCase {
        selected,
        compatible,
        latest,
        ..
    } = case;
    let far = latest_candidate(alloc, options.never_lower, old, compatible, latest)?;
    let near = compatible_candidate(alloc, old, compatible)?;
    Ok(decide_by(alloc, options, pin, selected, old.text(), far, near)?)
}
