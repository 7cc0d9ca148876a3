//! The members of the response to a request, as JSON.
ghost use Rattle.std.specs.Prelude.{◌≡◌, None};

use crate::edits::{Edit, edits_between};
use crate::files::RequestFile;
use edit_steps::RunError;
use edit_store::{MemoryStore, Store};
use json::{Reader, Scratch, Token, Writer, is_valid};
use std::alloc::{AllocError, Global};

/// A manifest that a run changed.
#[derive(Drop)]
pub(crate) struct ChangedManifest<'a> {
    file: &'a RequestFile,
    /// The new text.
    text: String,
}

/// The text of a manifest after the run, where it was changed.
fn new_text(alloc: Global, store: &mut MemoryStore, manifest: &RequestFile) -> Option<String> {
    let bytes = store.read(alloc, manifest.path.as_str()).ok()??;
    if bytes.as_slice() == manifest.text.as_bytes() {
        return None;
    }
    String::from_utf8(bytes).ok()
}

/// The manifests that a run changed, in their order.
pub(crate) fn changed_manifests<'a>(
    alloc: Global,
    store: &mut MemoryStore,
    manifests: &'a [RequestFile],
) -> Result<Vec<ChangedManifest<'a>>, AllocError> {
    let mut changed = Vec::new(alloc);
    for file in manifests {
        if let Some(text) = new_text(alloc, store, file) {
            changed.push(ChangedManifest { file, text })?;
        }
    }
    Ok(changed)
}

/// Writes a member with a text, or with `null` where there is none.
fn write_text(out: &mut Writer, key: &str, text: Option<&str>) -> Result<(), AllocError> {
    out.key(key)?;
    match text {
        Some(text) => out.string(text),
        None => out.null(),
    }
}

/// Writes a member with a number.
pub(crate) fn write_number(out: &mut Writer, key: &str, number: u64) -> Result<(), AllocError> {
    out.key(key)?;
    out.u64(number)
}

/// Writes an edit of a manifest as an object.
fn write_edit(out: &mut Writer, path: &str, edit: Edit<'_>) -> Result<(), AllocError> {
    out.begin_object()?;
    write_number(out, "end", edit.end as u64)?;
    write_text(out, "path", Some(path))?;
    write_number(out, "start", edit.start as u64)?;
    write_text(out, "text", Some(edit.text))?;
    out.end_object()
}

/// Writes the member `edits`: those that turn the texts of manifests into the new ones.
pub(crate) fn write_edits(
    alloc: Global,
    out: &mut Writer,
    changed: &[ChangedManifest<'_>],
) -> Result<(), AllocError> {
    out.key("edits")?;
    out.begin_array()?;
    for manifest in changed {
        let old = manifest.file.text.as_str();
        for edit in edits_between(alloc, old, manifest.text.as_str())? {
            write_edit(out, manifest.file.name.as_str(), edit)?;
        }
    }
    out.end_array()
}

/// Writes the member `manifests`: the new text of each manifest that changes, by its path.
pub(crate) fn write_manifests(
    out: &mut Writer,
    changed: &[ChangedManifest<'_>],
) -> Result<(), AllocError> {
    out.key("manifests")?;
    out.begin_object()?;
    for manifest in changed {
        write_text(
            out,
            manifest.file.name.as_str(),
            Some(manifest.text.as_str()),
        )?;
    }
    out.end_object()
}

/// The place of an error and the excerpt of the file that follows it, where each is known.
pub fn place_and_excerpt(failure: &RunError) -> (Option<&str>, Option<&str>)
    ensures { failure.now.place ≡ None → (result.0 ≡ None) × (result.1 ≡ None) }
{
    let Some(place) = failure.place.as_deref() else {
        return (None, None);
    };
    match place.split_once('\n') {
        Some((place, excerpt)) => (Some(place), Some(excerpt)),
        None => (Some(place), None),
    }
}

/// Writes the member `error`: the number and message of an error, and what is known of it.
pub(crate) fn write_error(
    alloc: Global,
    out: &mut Writer,
    failure: &RunError,
) -> Result<(), AllocError> {
    let error = &failure.error;
    let message = format!(in alloc; "{error}")?;
    let (place, excerpt) = place_and_excerpt(failure);
    out.key("error")?;
    out.begin_object()?;
    write_text(out, "cause", failure.cause.as_deref())?;
    write_text(out, "excerpt", excerpt)?;
    write_text(out, "help", failure.help.as_deref())?;
    write_text(out, "message", Some(message.as_str()))?;
    write_number(out, "number", error.number() as u64)?;
    write_text(out, "place", place)?;
    out.end_object()
}

/// Writes the member `error` with a message alone.
pub(crate) fn write_message(out: &mut Writer, message: &str) -> Result<(), AllocError> {
    out.key("error")?;
    out.begin_object()?;
    write_text(out, "message", Some(message))?;
    write_text(out, "number", None)?;
    out.end_object()
}

/// Writes a JSON value token by token; nothing of a text that is none.
fn write_json(out: &mut Writer, text: &str, scratch: &mut Scratch) -> Result<(), AllocError> {
    if !is_valid(text, scratch)? {
        return Ok(());
    }
    let Ok(mut reader) = Reader::new(text, scratch) else {
        return Err(AllocError);
    };
    while let Some(token) = reader.next() {
        if matches!(token, Token::Bad) {
            return Ok(());
        }
        out.token(token)?;
    }
    Ok(())
}

/// Writes the member `messages`: each line that was printed, as JSON.
pub(crate) fn write_messages(
    alloc: Global,
    out: &mut Writer,
    printed: &str,
) -> Result<(), AllocError> {
    let mut scratch = Scratch::new(alloc);
    out.key("messages")?;
    out.begin_array()?;
    for line in printed.lines() {
        write_json(out, line, &mut scratch)?;
    }
    out.end_array()
}

/// Writes a lookup that was printed as a line, as an object.
fn write_lookup(out: &mut Writer, line: &str) -> Result<(), AllocError> {
    let mut fields = line.split('\t');
    let registry = fields.next();
    let name = fields.next();
    let path = fields.next();
    out.begin_object()?;
    write_text(out, "name", name)?;
    write_text(out, "path", path)?;
    write_text(out, "registry", registry)?;
    out.end_object()
}

/// Writes the member `lookups`: each line that was printed, as an object.
pub(crate) fn write_lookups(out: &mut Writer, printed: &str) -> Result<(), AllocError> {
    out.key("lookups")?;
    out.begin_array()?;
    for line in printed.lines() {
        write_lookup(out, line)?;
    }
    out.end_array()
}
