//! Places below the root of a document, by keys.
ghost use Rattle.std.specs.Prelude.{◌≡◌, [], ◌∷◌, IfOk, option_and_then, option_map};
ghost use Rattle.edit_base.specs.Paths.{texts};
ghost use Rattle.edit_tree.specs.Assertions.{Place as PlaceSeen, at, key};
ghost use Rattle.edit_document.specs.ItemViews.{Finds};
ghost use Rattle.edit_document.specs.Items.{place_view, string_in, truth_in};
ghost use Rattle.edit_tree.specs.DocumentViews.{tree_of};
ghost use Rattle.edit_manifest.specs.Tables.{place_of_keys};

use edit_document::{Document, Item, Place, Step};
use std::alloc::{AllocError, Global};

/// The place that these keys lead to from the root.
pub fn place_of(alloc: Global, names: &[&str]) -> Result<Place, AllocError>
    ensures ok { IfOk result (λ p. place_view p.items ≡ place_of_keys (texts names.now)) }
{
    let mut place = Vec::with_capacity(alloc, names.len())?;
    'names: for name in names {
        let name = String::from_str(alloc, name)?;
        place.push(Step::Key(name))?;
    }
    Ok(place)
}

/// The value of a key in an item, if there is one. It allocates no memory.
pub fn item_below<'a>(
    document: &'a Document,
    item: Option<Item<'a>>,
    name: &str,
) -> Option<Item<'a>>
    ensures { (place : PlaceSeen) → Finds document.now place item.entry
        → Finds document.now (at place (key name.now)) result }
{
    document.lemma_form();
    match item {
        Some(item) => item.get(name),
        None => None,
    }
}

/// The item that three keys lead to, if there is one. It allocates no memory.
fn item_at<'a>(document: &'a Document, first: &str, second: &str, third: &str) -> Option<Item<'a>>
    ensures { Finds document.now (place_of_keys (first.now ∷ second.now ∷ third.now ∷ [])) result }
{
    let root = document.item(&[]);
    let upper = item_below(document, root, first);
    let table = item_below(document, upper, second);
    item_below(document, table, third)
}

/// The boolean that three keys lead to, if there is one.
pub(crate) fn bool_at_keys(
    document: &Document,
    first: &str,
    second: &str,
    third: &str,
) -> Option<bool>
    ensures { result ≡ option_and_then truth_in
        (tree_of document.now (place_of_keys (first.now ∷ second.now ∷ third.now ∷ []))) }
{
    let item = item_at(document, first, second, third)?;
    item.as_bool()
}

/// The string that three keys lead to, if there is one.
pub(crate) fn string_at<'a>(
    document: &'a Document,
    first: &str,
    second: &str,
    third: &str,
) -> Option<&'a str>
    ensures { option_map (λ s. s.now) result ≡ option_and_then string_in
        (tree_of document.now (place_of_keys (first.now ∷ second.now ∷ third.now ∷ []))) }
{
    let item = item_at(document, first, second, third)?;
    item.as_str()
}
