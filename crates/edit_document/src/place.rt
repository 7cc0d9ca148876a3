//! Copies of places, and the places of members.
ghost use Rattle.std.specs.Prelude.{◌≡◌, IfErr, IfOk};
ghost use Rattle.edit_base.specs.Errors.{IsMemory};
ghost use Rattle.edit_tree.specs.Assertions.{at, key};
ghost use Rattle.edit_document.specs.Items.{place_view, step_view};

use edit_base::CargoResult;
use edit_tree::{Place, Step};
use std::alloc::Global;

/// A copy of a step.
fn clone_step(alloc: Global, step: &Step) -> CargoResult<Step>
    ensures ok { IfOk result (λ s. step_view s ≡ step_view step.now) }
    ensures error { IfErr result IsMemory }
{
    match step {
        Step::Key(name) => {
            let name = String::from_str(alloc, name.as_str())?;
            Ok(Step::Key(name))
        }
        Step::Index(index) => Ok(Step::Index(*index)),
    }
}

/// A copy of a place.
pub fn clone_place(alloc: Global, steps: &[Step]) -> CargoResult<Place>
    ensures ok { IfOk result (λ p. place_view p.items ≡ place_view steps.now) }
    ensures error { IfErr result IsMemory }
{
    let mut place = Vec::with_capacity(alloc, steps.len())?;
    'steps: for step in steps {
        let copy = clone_step(alloc, step)?;
        place.push(copy)?;
    }
    Ok(place)
}

/// The place of a member of the table at a place.
pub fn member_place(alloc: Global, steps: &[Step], name: &str) -> CargoResult<Place>
    ensures ok { IfOk result (λ p. place_view p.items ≡ at (place_view steps.now) (key name.now)) }
    ensures error { IfErr result IsMemory }
{
    let mut place = clone_place(alloc, steps)?;
    let name = String::from_str(alloc, name)?;
    place.push(Step::Key(name))?;
    Ok(place)
}
