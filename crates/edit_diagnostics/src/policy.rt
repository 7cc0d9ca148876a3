//! Explains errors of the policy of a root manifest.
ghost use Rattle.std.specs.Prelude.{◌≡◌};
ghost use Rattle.edit_base.specs.declared.errors.Error.TheVariants.{Policy};
ghost use Rattle.edit_policy.specs.Errors.{error_of};

use crate::entries::entry_position;
use crate::explanation::Explanation;
use edit_base::Error;
use edit_document::{Place, Step, member_place};
use edit_manifest::Manifest;
use edit_metadata::Input;
use edit_policy::{Expected, PolicyError, policy_place};
use edit_steps::RunError;
use std::alloc::{AllocError, Global};

/// The help for a key that no policy has.
const KEYS: &str =
    "a policy has the keys `compatible`, `crates`, `exclude`, `incompatible`, `level`, `min-age`, \
    `never-lower`, `pinned` and `rust-version`, and each crate in `crates` the keys `hold`, `level` and \
    `reason`";

/// The help for other values.
const IGNORE: &str = "`--no-policy` ignores the policy";

/// The keys of a place, joined by dots, and the indices of elements in brackets.
fn place_text(alloc: Global, place: &[Step]) -> Result<String, AllocError> {
    let mut text = String::new(alloc);
    for step in place {
        match step {
            Step::Key(name) => {
                if !text.as_str().is_empty() {
                    text.push('.')?;
                }
                text.push_str(name.as_str())?;
            }
            Step::Index(index) => {
                let index = format!(in alloc; "[{index}]")?;
                text.push_str(index.as_str())?;
            }
        }
    }
    Ok(text)
}

/// What the item at a place has to be.
fn cause_of(alloc: Global, place: &[Step], expected: Expected) -> Option<String> {
    let text = place_text(alloc, place).ok()?;
    format!(in alloc; "`{text}` {expected}").ok()
}

/// The position of a place in a manifest.
fn position_of(alloc: Global, input: &Input, place: &[Step]) -> Option<String> {
    let manifest = Manifest::read_bytes(alloc, &input.bytes).ok()?;
    entry_position(alloc, input, &manifest.document, place)
}

/// The help where an item is not what is expected.
fn help_for(alloc: Global, expected: Expected) -> Option<String> {
    if expected == Expected::Absent {
        return String::from_str(alloc, KEYS).ok();
    }
    String::from_str(alloc, IGNORE).ok()
}

/// Explains an item of a policy that is not what is expected at its place.
fn unexpected_item(alloc: Global, input: &Input, place: &Place, expected: Expected) -> Explanation {
    Explanation {
        place: position_of(alloc, input, place),
        cause: cause_of(alloc, place, expected),
        help: help_for(alloc, expected),
    }
}

/// Explains an error of the policy in the manifest of an input, with the position of the key at fault.
pub fn explain_policy(alloc: Global, input: &Input, error: PolicyError) -> RunError
    ensures { result.error ≡ error_of error }
{
    let explanation = match &error {
        PolicyError::Unexpected { place, expected } => {
            unexpected_item(alloc, input, place, *expected)
        }
        PolicyError::Failed(_) => Explanation {
            place: None,
            cause: None,
            help: None,
        },
    };
    let Explanation { place, cause, help } = explanation;
    RunError {
        error: error.into_error(),
        place,
        cause,
        help,
    }
}

/// The place of the age in the policy of a manifest.
fn age_place(alloc: Global, manifest: &Manifest) -> Option<Place> {
    let table = policy_place(alloc, &manifest.document).ok()?;
    member_place(alloc, &table, "min-age").ok()
}

/// What the age in the policy of a manifest needs.
fn age_cause(alloc: Global, place: &[Step]) -> Option<String> {
    let text = place_text(alloc, place).ok()?;
    format!(in alloc;
        "`{text}` needs `--now <TIME>`, a time of RFC 3339, as 2026-05-01T12:00:00Z"
    ).ok()
}

/// Explains where an age stands that has no time from which it counts back.
fn untimed_age(alloc: Global, input: &Input) -> Option<Explanation> {
    let manifest = Manifest::read_bytes(alloc, &input.bytes).ok()?;
    let place = age_place(alloc, &manifest)?;
    Some(Explanation {
        place: entry_position(alloc, input, &manifest.document, &place),
        cause: age_cause(alloc, &place),
        help: String::from_str(alloc, IGNORE).ok(),
    })
}

/// Explains that the policy in the manifest of an input sets an age, and that there is no time from which it
/// counts back.
pub fn explain_age(alloc: Global, input: &Input) -> RunError
    ensures { result.error ≡ Policy }
{
    let Some(explanation) = untimed_age(alloc, input) else {
        return RunError::from(Error::Policy);
    };
    let Explanation { place, cause, help } = explanation;
    RunError {
        error: Error::Policy,
        place,
        cause,
        help,
    }
}
