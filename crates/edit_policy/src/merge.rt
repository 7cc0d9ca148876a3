//! The choices of a run, by the command line and by the policy.
ghost use Rattle.std.specs.Prelude.{◌≡◌, ◌++◌, IfOk, OnOk, map, string_bytes};
ghost use Rattle.std.specs.Option.{option_or, option_to_list};
ghost use Rattle.edit_policy.specs.Merged.{choice, crate_level, merged_levels};
ghost use Rattle.edit_version.specs.Levels.{crate_levels};

use crate::policy::{CratePolicy, Policy};
use edit_version::{CrateLevel, Level};
use std::alloc::{AllocError, Global};

/// Which upgrades are made, and how far they may go.
#[derive(Clone, Copy, Debug, PartialEq, Eq)]
pub struct Choices {
    pub compatible: bool,
    pub incompatible: bool,
    pub pinned: bool,
    pub never_lower: bool,
    pub level: Option<Level>,
}

/// Which of the choices with a default are given on the command line; the others have their default values.
#[derive(Clone, Copy, Debug, PartialEq, Eq)]
pub struct GivenChoices {
    pub compatible: bool,
    pub incompatible: bool,
    pub pinned: bool,
}

/// A choice: that of an argument, where it is given; else the policy's, where it has one; else the default.
fn choice(given: bool, value: bool, policy: Option<bool>) -> bool
    ensures { result ≡ choice given value policy }
{
    if given {
        value
    } else {
        policy.unwrap_or(value)
    }
}

/// The choices of a run: those of arguments, where they are given, else the policy's, else the defaults.
/// `never_lower` is true where an argument or the policy says so, and `level` is that of the arguments, where
/// they give one.
pub fn merge_choices(choices: Choices, given: GivenChoices, policy: &Policy) -> Choices
    ensures compatible { result.compatible
        ≡ choice given.compatible choices.compatible policy.now.compatible }
    ensures incompatible { result.incompatible
        ≡ choice given.incompatible choices.incompatible policy.now.incompatible }
    ensures pinned { result.pinned ≡ choice given.pinned choices.pinned policy.now.pinned }
    ensures never_lower { result.never_lower
        ≡ choice choices.never_lower choices.never_lower policy.now.never_lower }
    ensures level { result.level ≡ option_or choices.level policy.now.level }
{
    let lower = choices.never_lower;
    Choices {
        compatible: choice(given.compatible, choices.compatible, policy.compatible),
        incompatible: choice(
            given.incompatible,
            choices.incompatible,
            policy.incompatible,
        ),
        pinned: choice(given.pinned, choices.pinned, policy.pinned),
        never_lower: choice(lower, lower, policy.never_lower),
        level: choices.level.or(policy.level),
    }
}

/// Appends copies of texts.
fn append_texts(alloc: Global, texts: &[String], all: &mut Vec<String>) -> Result<(), AllocError>
    ensures { OnOk result (map string_bytes all.new.items
        ≡ map string_bytes all.old.items ++ map string_bytes texts.now) }
{
    'texts: for text in texts {
        all.push(String::from_str(alloc, text.as_str())?)?;
    }
    Ok(())
}

/// Copies of texts.
pub fn copy_texts(alloc: Global, texts: &[String]) -> Result<Vec<String>, AllocError>
    ensures { IfOk result (λ v. map string_bytes v.items ≡ map string_bytes texts.now) }
{
    let mut all = Vec::new(alloc);
    append_texts(alloc, texts, &mut all)?;
    Ok(all)
}

/// The names that are excluded by the command line, and then those that the policy excludes.
pub fn merge_excluded(
    alloc: Global,
    exclude: &[String],
    policy: &Policy,
) -> Result<Vec<String>, AllocError>
    ensures { IfOk result (λ v. map string_bytes v.items
        ≡ map string_bytes exclude.now ++ map string_bytes policy.now.exclude.items) }
{
    let mut all = Vec::new(alloc);
    append_texts(alloc, exclude, &mut all)?;
    append_texts(alloc, &policy.exclude, &mut all)?;
    Ok(all)
}

/// Appends the level that a policy has for a crate, where it has one.
fn append_level(
    alloc: Global,
    krate: &CratePolicy,
    levels: &mut Vec<CrateLevel>,
) -> Result<(), AllocError>
    ensures { OnOk result (crate_levels levels.new.items
        ≡ crate_levels levels.old.items ++ option_to_list (crate_level krate.now)) }
{
    if let Some(level) = krate.level {
        let name = String::from_str(alloc, krate.name.as_str())?;
        levels.push(CrateLevel { name, level })?;
    }
    Ok(())
}

/// The levels for single crates: those of the policy, or none where an argument gives a level, which is for
/// all crates.
pub fn merge_crate_levels(
    alloc: Global,
    given: Option<Level>,
    policy: &Policy,
) -> Result<Vec<CrateLevel>, AllocError>
    ensures { IfOk result (λ v. crate_levels v.items ≡ merged_levels given policy.now.crates.items) }
{
    let mut levels = Vec::new(alloc);
    if given.is_some() {
        return Ok(levels);
    }
    'crates: for krate in &policy.crates {
        append_level(alloc, krate, &mut levels)?;
    }
    Ok(levels)
}
