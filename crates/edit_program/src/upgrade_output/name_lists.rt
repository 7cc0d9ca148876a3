//! Notes that list names.
ghost use Rattle.std.specs.Prelude.{◌≡◌, ◌++◌, IfOk, OnOk, codes, map, string_bytes};
ghost use Rattle.std.specs.List.{join_by};
ghost use Rattle.edit_program.specs.NameLists as spec;

use crate::upgrade_output::messages::push_note;
use std::alloc::{AllocError, Global};

/// The greatest number of names in a note.
const MOST_NAMES: usize = 5;

/// What has the names of a note.
#[derive(Clone, Copy)]
pub(crate) enum Noun {
    Crate,
    Registry,
}

/// Names, joined by commas.
fn join_names(alloc: Global, names: &[String]) -> Result<String, AllocError>
    ensures { IfOk result (λ s. string_bytes s
        ≡ join_by (λ name. name) (codes ", ") (map string_bytes names.now)) }
{
    names.join(alloc, ", ")
}

/// Names as a note lists them: at most five, and the number of the others.
fn abbreviate_names(alloc: Global, names: &[String]) -> Result<String, AllocError>
    ensures { IfOk result (λ s. string_bytes s ≡ spec.abbreviate_names (map string_bytes names.now)) }
{
    if names.len() <= MOST_NAMES {
        return join_names(alloc, names);
    }
    let first = join_names(alloc, &names[..MOST_NAMES])?;
    let rest = names.len() - MOST_NAMES;
    format!(in alloc; "{first} and {rest} more")
}

/// One of these words, by a number.
fn one_or_many(count: usize, one: &'static str, many: &'static str) -> &'static str
    ensures { result.now ≡ spec.one_or_many count one.now many.now }
{
    if count == 1 { one } else { many }
}

/// A noun, in the singular or the plural.
fn noun_text(noun: Noun, count: usize) -> &'static str
    ensures { result.now ≡ spec.noun_text noun count }
{
    match noun {
        Noun::Crate => one_or_many(count, "crate", "crates"),
        Noun::Registry => one_or_many(count, "registry", "registries"),
    }
}

/// The text of a note: what it says, of how many, and their names.
fn list_text<'a>(
    alloc: Global,
    what: &'a str,
    noun: Noun,
    names: &'a [String],
) -> Result<String, AllocError>
    ensures { IfOk result (λ s. string_bytes s
        ≡ spec.list_text what.now noun (map string_bytes names.now)) }
{
    let count = names.len();
    let noun = noun_text(noun, count);
    let list = abbreviate_names(alloc, names)?;
    format!(in alloc; "{what} for {count} {noun}: {list}")
}

/// Appends a note with names, if there are any: what it says, of how many, and the names.
pub(crate) fn push_list(
    alloc: Global,
    what: &str,
    noun: Noun,
    names: &[String],
    text: &mut String,
) -> Result<(), AllocError>
    ensures text { OnOk result (string_bytes text.new
        ≡ string_bytes text.old ++ spec.list_note what.now noun (map string_bytes names.now)) }
{
    if names.is_empty() {
        return Ok(());
    }
    let message = list_text(alloc, what, noun, names)?;
    push_note(alloc, message.as_str(), text)
}
