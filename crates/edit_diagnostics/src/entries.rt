//! The position of an entry in the text of its manifest.
ghost use Rattle.std.specs.Prelude.{IfSome, string_bytes};
ghost use Rattle.edit_diagnostics.specs.FailurePlaces.{IsInManifest};

use edit_document::{Document, Place, Step, member_place};
use edit_metadata::Input;
use edit_steps::position;
use std::alloc::Global;

/// The offset of the value at a place; `None` where there is none, or memory runs out.
fn value_offset(alloc: Global, document: &Document, place: &[Step]) -> Option<usize> {
    if !document.is_value(place) {
        return None;
    }
    // (the text before a value that was just replaced is the first piece of the text)
    let mut copy = document.try_clone(alloc).ok()?;
    if !copy.is_value(place) {
        return None;
    }
    copy.set_literal(alloc, place, "").ok()?;
    let before = copy.piece(0)?;
    Some(before.len())
}

/// The offset of the first value at a place, or at a key below it.
fn entry_offset(alloc: Global, document: &Document, place: &[Step]) -> Option<usize> {
    if let Some(at) = value_offset(alloc, document, place) {
        return Some(at);
    }
    let item = document.item(place)?;
    for name in item.keys() {
        let member = member_place(alloc, place, name).ok()?;
        if let Some(at) = value_offset(alloc, document, &member) {
            return Some(at);
        }
    }
    None
}

/// The position of an entry in its manifest: `PATH:LINE:COLUMN` of its value, or the path alone where no
/// value is found.
pub(crate) fn entry_position(
    alloc: Global,
    input: &Input,
    document: &Document,
    place: &[Step],
) -> Option<String>
    ensures { IfSome result (λ s. IsInManifest input.now (string_bytes s)) }
{
    let path = input.path.as_str();
    match entry_offset(alloc, document, place) {
        Some(at) => position(alloc, path, &input.bytes, at),
        None => String::from_str(alloc, path).ok(),
    }
}

/// The place of these keys.
pub(crate) fn place_of(alloc: Global, names: &[&str]) -> Option<Place> {
    let mut place = Vec::new(alloc);
    for name in names {
        let name = String::from_str(alloc, name).ok()?;
        place.push(Step::Key(name)).ok()?;
    }
    Some(place)
}
