//! Sets of names.
ghost use Rattle.std.specs.Prelude.{◌≡◌, ℕ, List, true, if◌then◌else◌, IfOk, OnOk};
ghost use Rattle.std.specs.BTreeSet.{contains_text};
ghost use Rattle.std.specs.Str.{bytes_eq};

use std::alloc::{AllocError, Global};
use std::collections::BTreeSet;

/// A set of names, sorted by bytes.
pub(crate) type Names = BTreeSet<String>;

/// Inserts a name, and returns whether it was present before.
pub(crate) fn add_name(alloc: Global, names: &mut Names, name: &str) -> Result<bool, AllocError>
    ensures had { IfOk result (λ b. b ≡ contains_text names.old name.now) }
    ensures ok { OnOk result ((q : List ℕ) → contains_text names.new q
        ≡ (if bytes_eq name.now q then true else contains_text names.old q)) }
{
    let name = String::from_str(alloc, name)?;
    let added = names.insert(name)?;
    Ok(!added)
}
