//! A cache of the versions that are chosen for requirements on a crate.
ghost use Rattle.std.specs.Prelude.{◌≡◌, All, IfSome, List, ℕ};
ghost use Rattle.edit_cache.specs.Choices.{AreChoices, IsChoice};
ghost use Rattle.edit_cache.specs.Ranks.{Ranking};

use edit_version::{Level, RustVersion};
use std::alloc::{AllocError, Global};
use std::collections::BTreeMap;

/// The greatest number of choices that are cached for one requirement.
const MOST: usize = 64;

/// The choice for a requirement, a Rust version and a level: the indices among the ranks of the greatest
/// version that the requirement admits and of the latest version.
#[derive(Clone, Copy, Debug)]
pub struct Choice {
    pub(crate) rust_version: Option<RustVersion>,
    pub(crate) level: Option<Level>,
    pub(crate) compatible: Option<usize>,
    pub(crate) latest: Option<usize>,
}

/// The cached choices, by the text of the requirement.
pub(crate) type Choices = BTreeMap<String, Vec<Choice>>;

/// The first choice for a Rust version and a level.
fn choice_for(
    known: &[Choice],
    rust_version: Option<RustVersion>,
    level: Option<Level>,
) -> Option<Choice>
    ensures requested { IfSome result (λ c. c.rust_version ≡ rust_version) }
    ensures level { IfSome result (λ c. c.level ≡ level) }
    ensures among { (ranks : List Ranking) (text : List ℕ) → All (IsChoice ranks text) known.now
        → IfSome result (IsChoice ranks text) }
{
    for choice in known {
        if choice.rust_version == rust_version && choice.level == level {
            return Some(*choice);
        }
    }
    None
}

/// The cached choice for a requirement, a Rust version and a level, if there is one.
pub(crate) fn known_choice(
    choices: &Choices,
    text: &str,
    rust_version: Option<RustVersion>,
    level: Option<Level>,
) -> Option<Choice>
    ensures requested { IfSome result (λ c. c.rust_version ≡ rust_version) }
    ensures level { IfSome result (λ c. c.level ≡ level) }
    ensures known { (ranks : List Ranking) → AreChoices ranks choices.now
        → IfSome result (IsChoice ranks text.now) }
{
    match choices.get(text) {
        Some(known) => choice_for(known, rust_version, level),
        None => None,
    }
}

/// Caches the choice for a requirement, unless `MOST` are cached for it.
pub(crate) fn cache_choice(
    alloc: Global,
    choices: &mut Choices,
    text: &str,
    choice: Choice,
) -> Result<(), AllocError>
    ensures { (ranks : List Ranking) → IsChoice ranks text.now choice → AreChoices ranks choices.old
        → AreChoices ranks choices.new }
{
    if let Some(known) = choices.get_mut(text) {
        if known.len() < MOST {
            known.push(choice)?;
        }
        return Ok(());
    }
    let mut known = Vec::new(alloc);
    known.push(choice)?;
    choices.insert(String::from_str(alloc, text)?, known)?;
    Ok(())
}
