//! The registry and the crate name of an entry, and what they have to do with an error.
ghost use Rattle.std.specs.Prelude.{IfSome, string_bytes};
ghost use Rattle.edit_diagnostics.specs.FailurePlaces.{IsInManifest};

use crate::entries::entry_position;
use crate::explanation::Explanation;
use crate::sources::{registry_cause, registry_help};
use edit_base::Error;
use edit_base::paths::folder;
use edit_document::{Document, Step};
use edit_manifest::Manifest;
use edit_manifest::entries::{Entry, ReadEntry, entries};
use edit_metadata::Input;
use edit_record::Source;
use edit_sources::Config;
use std::alloc::Global;

/// The registry and the crate name that an entry is looked up by.
#[derive(Clone, Copy)]
pub(crate) struct Lookup<'a> {
    pub(crate) name: &'a str,
    /// The registry's name, where the entry has one.
    pub(crate) registry: Option<&'a str>,
}

/// An entry of a manifest, by its place, and the configurations that apply to the manifest.
#[derive(Clone, Copy)]
pub(crate) struct EntryAt<'a> {
    pub(crate) input: &'a Input,
    pub(crate) configs: &'a [Config],
    pub(crate) place: &'a [Step],
}

/// The lookup of an entry; `None` where it is no entry of a registry.
pub(crate) fn lookup_of(entry: &Entry) -> Option<Lookup<'_>> {
    let ReadEntry::Read(dependency) = &entry.said else {
        return None;
    };
    match &dependency.source {
        Some(Source::Registry(_)) => Some(Lookup {
            name: dependency.name.as_str(),
            registry: dependency.registry.as_deref(),
        }),
        _ => None,
    }
}

/// Reads the entry at a place of a document.
pub(crate) fn read_entry(alloc: Global, at: EntryAt<'_>, document: &Document) -> Option<Entry> {
    let found = entries(alloc, folder(at.input.path.as_str()), document).ok()?;
    for entry in found {
        if &entry.place[..] == at.place {
            return Some(entry);
        }
    }
    None
}

/// The cause of an error of an entry's lookup.
fn cause_of(
    alloc: Global,
    error: &Error,
    lookup: Lookup<'_>,
    configs: &[Config],
) -> Option<String> {
    match error {
        Error::BadCrateName { .. } => String::from_str(
            alloc,
            "a name has 1 to 64 ASCII letters, digits, `-` and `_`",
        )
        .ok(),
        _ => registry_cause(alloc, error, lookup.name, lookup.registry, configs),
    }
}

/// Explains an error of the registry or the crate name of an entry.
pub(crate) fn explain_lookup(alloc: Global, error: &Error, at: EntryAt<'_>) -> Option<Explanation>
    ensures place { IfSome result
        (λ x. IfSome x.place (λ s. IsInManifest at.entry.input.now (string_bytes s))) }
{
    let manifest = Manifest::read_bytes(alloc, &at.input.bytes).ok()?;
    let document = &manifest.document;
    let entry = read_entry(alloc, at, document)?;
    let lookup = lookup_of(&entry)?;
    Some(Explanation {
        place: entry_position(alloc, at.input, document, at.place),
        cause: cause_of(alloc, error, lookup, at.configs),
        help: registry_help(alloc, error),
    })
}
