//! The texts of cached index entries: the ETag of the response on a first line, and the body of the response.
ghost use Rattle.std.specs.Prelude.{◌≡◌, ◌≢◌, ◌∷◌, ◌++◌, ℕ, List, [], IfOk, MatchOption, ◌==◌};
ghost use Rattle.std.specs.List.{position};
ghost use Rattle.edit_lookups.specs.CachedTexts.{IsCachedText, cached_body, cached_text};
ghost use Rattle.edit_lookups.specs.Lookups.{HasNo};

use std::alloc::{AllocError, Global};
use std::str;

/// The text of a cached entry: a line with the ETag of the response, and the body.
///
/// The ETag is empty if the response had none.
pub fn cached_text(alloc: Global, etag: &str, body: &[u8]) -> Result<Vec<u8>, AllocError>
    ensures { IfOk result (λ v. v.items ≡ cached_text etag.now body.now) }
{
    let mut text = Vec::new(alloc);
    text.extend_from_slice(b"ETag: ")?;
    text.extend_from_slice(etag.as_bytes())?;
    text.push(b'\n')?;
    text.extend_from_slice(body)?;
    Ok(text)
}

/// The offset of the first line feed in a text.
fn line_end(text: &[u8]) -> Option<usize>
    ensures { result ≡ position (λ b. b == 10) text.now }
{
    text.iter().position(|b| *b == b'\n')
}

/// The body in a cached file: what follows its first line.
///
/// A file of an older version of this program does not begin with `ETag: `; its body is the whole file.
pub fn cached_body(text: &[u8]) -> &[u8]
    ensures { result.now ≡ cached_body text.now }
{
    if !text.starts_with(b"ETag: ") {
        return text;
    }
    match line_end(text) {
        Some(end) => &text[end + 1..],
        None => &[],
    }
}

/// The first line of a text, without its line end; `None` where the text has no line feed.
fn first_line(text: &[u8]) -> Option<&[u8]>
    ensures { MatchOption result (HasNo 10 text.now)
        (λ line. HasNo 10 line.now × (rest : List ℕ) × (text.now ≡ line.now ++ 10 ∷ rest)) }
{
    match line_end(text) {
        Some(end) => Some(&text[..end]),
        None => None,
    }
}

/// The ETag in a cached file; `None` where it is empty, and in a file of an older version of this program.
pub fn cached_etag(text: &[u8]) -> Option<&str>
    ensures { MatchOption result ((etag body : List ℕ) → IsCachedText text.now etag body → etag ≡ [])
        (λ e. (e.now ≢ []) × (body : List ℕ) × IsCachedText text.now e.now body) }
{
    let Some(rest) = text.strip_prefix(b"ETag: ") else {
        return None;
    };
    let Some(etag) = first_line(rest) else {
        return None;
    };
    if etag.is_empty() {
        return None;
    }
    match str::from_utf8(etag) {
        Ok(etag) => Some(etag),
        Err(_) => None,
    }
}
