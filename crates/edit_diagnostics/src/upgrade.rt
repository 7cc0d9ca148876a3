//! Explains errors of the plan of an upgrade, from the input or the entry that caused them.
ghost use Rattle.std.specs.Prelude.{◌≡◌, ◌⊎◌, IfSome, string_bytes};
ghost use Rattle.edit_diagnostics.specs.FailurePlaces.{IsInManifest, IsIndexError, IsPlaceOf};
ghost use Rattle.edit_store.specs.Store.{OnlyReads};

use crate::explanation::with_explanation;
use crate::index_files::index_file;
use crate::registries::{EntryAt, explain_lookup};
use edit_base::Error;
use edit_metadata::Input;
use edit_steps::upgrade_read::SharedConfigs;
use edit_steps::{RunError, absolute_path, at_byte, at_first};
use edit_store::Store;
use edit_upgrade::{Origin, PlanFailure};
use std::alloc::Global;

/// The help for an invalid line of an index.
const INDEX_LINE: &str = "a line of an index is a JSON object with strings `name` and `vers`";

/// Adds to an error of reading an index the file that the lookup of an entry reads.
fn at_index<S: Store>(
    alloc: Global,
    error: Error,
    dir: Option<&str>,
    at: EntryAt<'_>,
    files: &mut S,
) -> RunError
    ensures same { result.error ≡ error }
    ensures reads { OnlyReads (S.view files.old) (S.view files.new) }
{
    let Some(path) = index_file(alloc, dir, at) else {
        return with_explanation(error, None);
    };
    let is_line = matches!(&error, Error::IndexLine { .. });
    let failure = at_first(alloc, error, &[path], files);
    if !is_line {
        return failure;
    }
    let cause = String::from_str(alloc, INDEX_LINE).ok();
    RunError { cause, ..failure }
}

/// Explains an error of an entry's lookup.
fn explain_entry<S: Store>(
    alloc: Global,
    error: Error,
    dir: Option<&str>,
    at: EntryAt<'_>,
    files: &mut S,
) -> RunError
    ensures same { result.error ≡ error }
    ensures reads { OnlyReads (S.view files.old) (S.view files.new) }
    ensures place { IfSome result.place
        (λ s. IsIndexError error ⊎ IsInManifest at.entry.input.now (string_bytes s)) }
{
    match &error {
        Error::Memory => with_explanation(error, None),
        Error::IndexLine { .. } | Error::Device(_) => at_index(alloc, error, dir, at, files),
        _ => {
            let explanation = explain_lookup(alloc, &error, at);
            with_explanation(error, explanation)
        }
    }
}

/// The absolute path of the given index folder.
fn folder_named(alloc: Global, index_dir: Option<&str>, current: &str) -> Option<String> {
    absolute_path(alloc, current, index_dir?).ok()
}

/// Explains a failure of the plan of an upgrade over these manifests, with place and help: the manifest that
/// is no TOML, the entry whose registry or name is invalid, or the index file that its lookup reads, which is
/// below the given index folder, where one is given. Reads files again for it; no file changes.
pub fn explain_upgrade<S: Store>(
    alloc: Global,
    failure: PlanFailure,
    index_dir: Option<&str>,
    current: &str,
    inputs: &[Input],
    configs: &SharedConfigs,
    files: &mut S,
) -> RunError
    ensures same { result.error ≡ failure.error }
    ensures reads { OnlyReads (S.view files.old) (S.view files.new) }
    // without a place where memory ran out
    ensures place { IfSome result.place (λ s. IsPlaceOf inputs.now failure (string_bytes s)) }
{
    let PlanFailure { error, origin } = failure;
    match origin {
        None => with_explanation(error, None),
        Some(Origin::Input(i)) => match inputs.get(i) {
            Some(input) => at_byte(alloc, error, input.path.as_str(), &input.bytes),
            None => with_explanation(error, None),
        },
        Some(Origin::Entry { input, place }) => {
            let (Some(input), Some(configs)) = (inputs.get(input), configs.list_of(input)) else {
                return with_explanation(error, None);
            };
            let place = place.as_slice();
            let at = EntryAt {
                input,
                configs,
                place,
            };
            let dir = folder_named(alloc, index_dir, current);
            explain_entry(alloc, error, dir.as_deref(), at, files)
        }
    }
}
