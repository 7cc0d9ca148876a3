//! The places of entries and of their version literals.
ghost use Rattle.std.specs.Prelude.{◌≡◌, IfErr, IfOk};
ghost use Rattle.edit_base.specs.Errors.{IsMemory};
ghost use Rattle.edit_document.specs.Items.{place_view};
ghost use Rattle.edit_manifest.specs.EntryViews.{literal_by};

use edit_base::CargoResult;
use edit_document::{Place, Step, clone_place, member_place};
use std::alloc::Global;

/// The place of the version literal of an entry: with `bare`, where the entry is a string, the entry itself,
/// else its key `version`.
pub fn literal_place(alloc: Global, steps: &[Step], bare: bool) -> CargoResult<Place>
    ensures ok { IfOk result (λ p. place_view p.items ≡ literal_by bare (place_view steps.now)) }
    ensures error { IfErr result IsMemory }
{
    if bare {
        return clone_place(alloc, steps);
    }
    member_place(alloc, steps, "version")
}
