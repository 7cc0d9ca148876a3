//! Notes about the tokens of registries, which `fetch-store` prints as the reasons for missing entries.

use crate::registries::Registry;
use crate::verdicts::Verdict;
use edit_base::CargoResult;
use edit_base::paths::join;
use edit_lookups::{Lookup, push_escaped, read_lookups};
use edit_store::{HostStore, Store};
use std::alloc::AllocError;
use std::str;

/// A note about a registry.
#[derive(Drop)]
struct Note<'a> {
    /// Whether no request was made, since there is no token for it.
    is_withheld: bool,
    address: &'a str,
    text: &'a str,
}

/// The text of the note that is printed if the registry gives no entry.
fn text_of(rt: &HostRuntime, registry: &Registry, verdict: &Verdict) -> CargoResult<String> {
    match verdict {
        Verdict::Open(text) | Verdict::Unsendable(text) => Ok(String::from_str(
            rt.alloc(),
            text.as_str(),
        )?),
        Verdict::Found { place, .. } => {
            let shown = registry.shown(rt)?;
            Ok(format!(in rt.alloc(); "{shown} refused {place}")?)
        }
    }
}

/// Writes the file `notes` in the folder of the run: a line for each registry, without its token.
pub(crate) fn write_notes(
    rt: &HostRuntime,
    room: &str,
    registries: &[Registry],
    verdicts: &[Verdict],
) -> CargoResult<()> {
    let mut text = String::new(rt.alloc());
    for (registry, verdict) in registries.iter().zip(verdicts.iter()) {
        let kind = if let Verdict::Unsendable(_) = verdict {
            "withheld"
        } else {
            "asked"
        };
        text.push_str(kind)?;
        text.push_str("\t")?;
        text.push_str(registry.address.as_str())?;
        text.push_str("\t")?;
        push_escaped(&mut text, text_of(rt, registry, verdict)?.as_str())?;
        text.push_str("\n")?;
    }
    let path = join(rt.alloc(), room, "notes")?;
    let mut files = HostStore::new(rt.clone()?);
    files.write(rt.alloc(), path.as_str(), text.as_bytes())
}

/// Reads a file in the folder of the run; no bytes if there is none.
fn working_file(
    rt: &HostRuntime,
    files: &mut HostStore<HostRuntime>,
    room: &str,
    name: &str,
) -> CargoResult<Vec<u8>> {
    let path = join(rt.alloc(), room, name)?;
    match files.read(rt.alloc(), path.as_str())? {
        Some(bytes) => Ok(bytes),
        None => Ok(Vec::new(rt.alloc())),
    }
}

/// Parses the lines of notes.
fn read_notes<'a>(rt: &HostRuntime, text: &'a str) -> CargoResult<Vec<Note<'a>>> {
    let mut notes = Vec::new(rt.alloc());
    for line in text.lines() {
        if let Some((kind, rest)) = line.split_once('\t')
            && let Some((address, text)) = rest.split_once('\t')
        {
            notes.push(Note {
                is_withheld: kind == "withheld",
                address,
                text,
            })?;
        }
    }
    Ok(notes)
}

/// The note for the registry of a lookup.
fn note_of<'a, 'b>(notes: &'a [Note<'b>], lookup: &Lookup<'_>) -> Option<&'a Note<'b>> {
    notes.iter().find(|note| note.address == lookup.address)
}

/// Appends the outcome of a transfer that failed for want of a token, or whose token was not accepted.
fn push_outcome(
    text: &mut String,
    number: &str,
    code: &str,
    reason: &str,
) -> Result<(), AllocError> {
    text.push_str(number)?;
    text.push_str("\t")?;
    text.push_str(code)?;
    text.push_str("\ttoken\t0\t")?;
    text.push_str(reason)?;
    text.push_str("\n")
}

/// Appends an outcome for each lookup in a registry to which no request was made.
fn push_withheld(
    rt: &HostRuntime,
    text: &mut String,
    lookups: &[Lookup<'_>],
    notes: &[Note<'_>],
) -> CargoResult<()> {
    for (i, lookup) in lookups.iter().enumerate() {
        if let Some(note) = note_of(notes, lookup)
            && note.is_withheld
        {
            let number = format!(in rt.alloc(); "{}", i + 1)?;
            push_outcome(text, number.as_str(), "0", note.text)?;
        }
    }
    Ok(())
}

/// The number and the HTTP status of a transfer that the registry answered with 401 or 403.
fn refused_transfer(line: &str) -> Option<(&str, &str)> {
    let (number, rest) = line.split_once('\t')?;
    let (code, rest) = rest.split_once('\t')?;
    let (exit, _) = rest.split_once('\t')?;
    if exit == "0" && (code == "401" || code == "403") {
        Some((number, code))
    } else {
        None
    }
}

/// The note for the lookup with a number.
fn note_at<'a, 'b>(
    notes: &'a [Note<'b>],
    lookups: &[Lookup<'_>],
    number: &str,
) -> Option<&'a Note<'b>> {
    let number = number.parse::<usize>().ok()?;
    let lookup = lookups.get(number.checked_sub(1)?)?;
    note_of(notes, lookup)
}

/// Appends an outcome of curl. For a status of 401 or 403 the note of the registry is the reason.
fn push_answer(
    rt: &HostRuntime,
    text: &mut String,
    lookups: &[Lookup<'_>],
    notes: &[Note<'_>],
    line: &str,
) -> CargoResult<()> {
    if let Some((number, code)) = refused_transfer(line)
        && let Some(note) = note_at(notes, lookups, number)
    {
        let reason = format!(in rt.alloc(); "status {code}: {}", note.text)?;
        push_outcome(text, number, code, reason.as_str())?;
        return Ok(());
    }
    text.push_str(line)?;
    text.push_str("\n")?;
    Ok(())
}

/// Rewrites the outcomes of transfers with the notes about tokens, if there are notes. Both are files of the
/// run, so that no clause says what is written.
pub fn note_answers(rt: &HostRuntime, room: &str) -> CargoResult<()> {
    let mut files = HostStore::new(rt.clone()?);
    let notes = working_file(rt, &mut files, room, "notes")?;
    let lookups = working_file(rt, &mut files, room, "lookups")?;
    let answers = working_file(rt, &mut files, room, "answers")?;
    let (Ok(notes), Ok(lookups), Ok(answers)) = (
        str::from_utf8(&notes),
        str::from_utf8(&lookups),
        str::from_utf8(&answers),
    ) else {
        return Ok(());
    };
    let Some(lookups) = read_lookups(rt.alloc(), lookups)? else {
        return Ok(());
    };
    let notes = read_notes(rt, notes)?;
    if notes.is_empty() {
        return Ok(());
    }
    let mut text = String::new(rt.alloc());
    push_withheld(rt, &mut text, &lookups, &notes)?;
    for line in answers.split_inclusive('\n') {
        match line.strip_suffix('\n') {
            Some(line) => push_answer(rt, &mut text, &lookups, &notes, line)?,
            None => text.push_str(line)?,
        }
    }
    let path = join(rt.alloc(), room, "answers")?;
    files.write(rt.alloc(), path.as_str(), text.as_bytes())
}
