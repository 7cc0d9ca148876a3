//! The entries of a manifest that get a row.
ghost use Rattle.std.specs.Prelude.{◌≡◌, IfErr, IfOk, Ok, map, option_and_then, option_map};
ghost use Rattle.std.specs.List.{filter_map};
ghost use Rattle.edit_base.specs.Errors.{IsMemory};
ghost use Rattle.edit_document.specs.Items.{place_view};
ghost use Rattle.edit_record.specs.RecordViews.{record_view};
ghost use Rattle.edit_manifest.specs.EntryViews.{entry_view, literal_by};
ghost use Rattle.edit_manifest.specs.Entries.{Entry as Found};
ghost use Rattle.edit_upgrade.specs.Found.{row_entry_view};
ghost use Rattle.edit_upgrade.specs.Records.{row_entry_at, row_entry_of, with_row};

use edit_base::CargoResult;
use edit_document::Place;
use edit_manifest::entries::{ReadEntry, literal_place};
use edit_record::Dependency;
use std::alloc::{AllocError, Global};

/// Where the crate of an entry comes from.
#[derive(Drop)]
pub(crate) enum Source {
    /// A registry, by its name, or the default one.
    Registry(Option<String>),
    Git,
    Path,
}

/// An entry that gets a row.
#[derive(Drop)]
pub(crate) struct Entry {
    pub(crate) name: String,
    pub(crate) rename: Option<String>,
    pub(crate) place: Place,
    /// Whether the entry is a string, its version literal; else the literal is its `version` key.
    pub(crate) bare: bool,
    pub(crate) source: Source,
    /// Its requirement, without build metadata: cut before the first `+`.
    pub(crate) old: Option<String>,
}

/// The entry from its `Dependency` and its place, where it gets a row.
fn with_record(place: Place, bare: bool, dependency: Dependency) -> Option<Entry>
    ensures { (e : Found) → e.place ≡ place_view place.items → e.literal
        ≡ literal_by bare (place_view place.items)
        → option_map row_entry_view result ≡ row_entry_of e (record_view dependency) }
{
    let Dependency {
        name,
        rename,
        registry,
        source,
        ..
    } = dependency;
    let (source, old) = match source {
        Some(edit_record::Source::Registry(source)) => {
            (Source::Registry(registry), Some(source.version))
        }
        Some(edit_record::Source::Path(source)) => (Source::Path, source.version),
        Some(edit_record::Source::Git(source)) => (Source::Git, source.version),
        Some(edit_record::Source::Workspace(_)) => return None,
        None => return None,
    };
    Some(Entry {
        name,
        rename,
        place,
        bare,
        source,
        old,
    })
}

/// The entry in the form that rows are made from, where it gets a row.
fn with_row(found: edit_manifest::entries::Entry) -> Option<Entry>
    ensures { option_map row_entry_view result ≡ with_row (entry_view found) }
{
    let edit_manifest::entries::Entry {
        place,
        bare,
        said,
        ..
    } = found;
    match said {
        ReadEntry::Read(dependency) => with_record(place, bare, dependency),
        ReadEntry::Unsupported(_) => None,
    }
}

/// The entries that get a row, in order.
pub(crate) fn with_rows(
    alloc: Global,
    found: Vec<edit_manifest::entries::Entry>,
) -> Result<Vec<Entry>, AllocError>
    ensures ok { IfOk result
        (λ es. map row_entry_view es.items ≡ filter_map with_row (map entry_view found.items)) }
{
    let mut entries = Vec::new(alloc);
    'found: for entry in found {
        match with_row(entry) {
            Some(entry) => entries.push(entry)?,
            None => {}
        }
    }
    Ok(entries)
}

/// The place of the version literal of an entry.
pub(crate) fn literal_of(alloc: Global, entry: &Entry) -> CargoResult<Place>
    ensures ok { IfOk result (λ p. place_view p.items ≡ (row_entry_view entry.now).literal) }
    ensures error { IfErr result IsMemory }
{
    literal_place(alloc, &entry.place, entry.bare)
}
