//! Suggestions for misspelt names.
ghost use Rattle.std.specs.Prelude.{◌≡◌, [], Contains, IfSome, IsNone, map};

use edit_base::MissingNames;
use std::alloc::{AllocError, Global};
use strsim::levenshtein;

/// The greatest length in bytes of names that are compared: comparing takes quadratic time.
const LONGEST_NAME: usize = 64;

/// The greatest number of missing names that get a suggestion.
const MOST_MISSING: usize = 5;

/// The greatest number of names that a missing one is compared with.
const MOST_NAMES: usize = 5000;

/// The edit distance of two names; `None` where it is more than a third of the name's length, or one of
/// them is too long to be compared.
fn edits(alloc: Global, name: &str, other: &str) -> Result<Option<usize>, AllocError> {
    if name.len() > LONGEST_NAME || other.len() > LONGEST_NAME {
        return Ok(None);
    }
    let limit = name.len().max(3) / 3;
    if name.len().abs_diff(other.len()) > limit {
        return Ok(None);
    }
    let distance = levenshtein(alloc, name, other)?;
    Ok(if distance <= limit {
        Some(distance)
    } else {
        None
    })
}

/// The first of these names with the least edit distance from a name; `None` where the name is empty, no
/// name is near enough, or memory runs out.
pub fn nearest_name<'a>(alloc: Global, name: &str, names: &[&'a str]) -> Option<&'a str>
    ensures among { IfSome result (λ s. Contains (map (λ t. t.now) names.now) s.now) }
    ensures empty { name.now ≡ [] → IsNone result }
{
    if name.is_empty() {
        return None;
    }
    let mut best: Option<usize> = None;
    let mut fewest = usize::MAX;
    'names: for (i, other) in names.iter().enumerate() {
        if let Some(distance) = edits(alloc, name, other).ok()? {
            if distance < fewest {
                fewest = distance;
                best = Some(i);
            }
        }
    }
    names.get(best?).copied()
}

/// A line of help for missing names, with the nearest existing name of each; `None` where no name is near.
pub(crate) fn suggestions(
    alloc: Global,
    missing: &MissingNames,
    names: &[&str],
) -> Result<Option<String>, AllocError> {
    let mut help = String::new(alloc);
    let names = &names[..names.len().min(MOST_NAMES)];
    for name in missing.names.iter().take(MOST_MISSING) {
        if let Some(near) = nearest_name(alloc, name.as_str(), names) {
            if !help.is_empty() {
                help.push_str("; ")?;
            }
            let line = format!(in alloc; "a name similar to `{name}` exists: `{near}`")?;
            help.push_str(line.as_str())?;
        }
    }
    Ok(if help.is_empty() { None } else { Some(help) })
}
