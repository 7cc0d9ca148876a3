//! What was held back of each crate that the lines of an index are about.
ghost use Rattle.std.specs.Prelude.{◌≡◌, ℕ, List, None, Some, OnOk, if◌then◌else◌};
ghost use Rattle.std.specs.BTreeMap.{get_by_text};
ghost use Rattle.std.specs.Str.{bytes_eq};
ghost use Rattle.edit_sources.specs.Withheld.{joined};

use crate::withheld::{Withheld, either};
use std::alloc::{AllocError, Global};
use std::collections::BTreeMap;

/// What was held back of crates, by their names.
pub(crate) type WithheldCrates = BTreeMap<String, Withheld>;

/// Adds what is held back of a version to that of its crate.
pub(crate) fn add_version(
    alloc: Global,
    name: &str,
    version: Withheld,
    crates: &mut WithheldCrates,
) -> Result<(), AllocError>
    ensures { OnOk result ((q : List ℕ) → get_by_text crates.new q
        ≡ joined (get_by_text crates.old q) (if bytes_eq name.now q then Some version else None)) }
{
    if let Some(before) = crates.get_mut(name) {
        *before = either(*before, version);
        return Ok(());
    }
    let name = String::from_str(alloc, name)?;
    crates.insert(name, version)?;
    Ok(())
}
