//! The metadata of a request, taken out of its text: a run reads them from text, so no tree is built of them.

use edit_json::skip_value;
use json::{Reader, Scratch, Token};
use std::alloc::{AllocError, Global};

/// The text of a request, without its metadata.
#[derive(Drop)]
pub(crate) struct SplitRequest<'a> {
    /// A JSON object.
    pub(crate) metadata: &'a str,
    /// The request with `null` in place of the metadata.
    pub(crate) rest: String,
}

/// The range of bytes from after the key `metadata` to the next key; `None` where the request has no such
/// member, or several, or is no object in JSON.
fn member_range(text: &str, scratch: &mut Scratch) -> Option<(usize, usize)> {
    let mut reader = Reader::new(text, scratch).ok()?;
    let Some(Token::BeginObject) = reader.next() else {
        return None;
    };
    let mut found = None;
    // an object has fewer members than bytes
    for _ in 0..text.len() {
        let Some(key) = reader.next_key().ok()? else {
            return match reader.next() {
                None => found,
                Some(_) => None,
            };
        };
        let is_metadata = key == "metadata";
        let start = reader.offset();
        skip_value(&mut reader, 126)?;
        if is_metadata {
            if found.is_some() {
                return None;
            }
            found = Some((start, reader.offset()));
        }
    }
    None
}

/// Whether a byte may stand between a key and its value, or after that.
fn is_between(byte: char) -> bool {
    matches!(byte, ' ' | '\t' | '\n' | '\r' | ':' | ',')
}

/// The range of the object that is the value of a member; `None` where that is no object.
fn object_range(text: &str, member: (usize, usize)) -> Option<(usize, usize)> {
    let value = text.get(member.0..member.1)?;
    let object = value.trim_start_matches(is_between);
    let start = member.1.checked_sub(object.len())?;
    let object = object.trim_end_matches(is_between);
    if object.starts_with('{') && object.ends_with('}') {
        Some((start, object.len()))
    } else {
        None
    }
}

/// Takes the part of a text out that begins at `start` and has `len` bytes.
fn take_out<'a>(
    alloc: Global,
    text: &'a str,
    start: usize,
    len: usize,
) -> Result<Option<SplitRequest<'a>>, AllocError> {
    let Some((before, from)) = text.split_at_checked(start) else {
        return Ok(None);
    };
    let Some((metadata, after)) = from.split_at_checked(len) else {
        return Ok(None);
    };
    let mut rest = String::with_capacity(alloc, before.len())?;
    rest.push_str(before)?;
    rest.push_str("null")?;
    rest.push_str(after)?;
    Ok(Some(SplitRequest { metadata, rest }))
}

/// Takes the metadata out of the text of a request; `None` where it has none, or has to be read as a whole.
pub(crate) fn split_metadata<'a>(
    alloc: Global,
    text: &'a str,
) -> Result<Option<SplitRequest<'a>>, AllocError> {
    let mut scratch = Scratch::new(alloc);
    let Some(member) = member_range(text, &mut scratch) else {
        return Ok(None);
    };
    match object_range(text, member) {
        Some((start, len)) => take_out(alloc, text, start, len),
        None => Ok(None),
    }
}
