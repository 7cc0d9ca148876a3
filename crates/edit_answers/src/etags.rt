//! The ETags of responses, which curl saves in files.
ghost use Rattle.std.specs.Prelude.{◌≡◌, Some, true, IfErr, IfOk};
ghost use Rattle.edit_answers.specs.Changes.{Fails};
ghost use Rattle.edit_answers.specs.Etags.{IsEntryText, IsSavedEtag};
ghost use Rattle.edit_store.specs.Store.{OnlyReads};

use edit_base::CargoResult;
use edit_lookups::cached_text;
use edit_store::Store;
use std::alloc::Global;
use std::str;

/// The ETag in the file that curl saved: the text before the first line end; empty if the file has none, or
/// is not UTF-8.
fn saved_etag(text: &[u8]) -> &str
    ensures { IsSavedEtag (Some text.now) result.now }
{
    let Ok(text) = str::from_utf8(text) else {
        return "";
    };
    match text.split_once('\n') {
        Some((etag, _)) => etag,
        None => "",
    }
}

/// The text of the cached entry with a new body: after the ETag in the file at a path if no redirect was
/// followed. After a redirect curl may have saved the ETag of the redirecting response.
pub(crate) fn entry_text<S: Store>(
    alloc: Global,
    files: &mut S,
    etag_path: &str,
    body: &[u8],
    is_direct: bool,
) -> CargoResult<Vec<u8>>
    ensures reads { OnlyReads (S.view files.old) (S.view files.new) }
    ensures text { IfOk result (λ v. (S.view files.old).tells ≡ true
        → IsEntryText is_direct ((S.view files.old).file_at etag_path.now) body.now v.items) }
    ensures error { IfErr result (Fails (S.view files.old).faults (S.view files.new).faults) }
{
    if !is_direct {
        return Ok(cached_text(alloc, "", body)?);
    }
    match files.read(alloc, etag_path) {
        Ok(Some(saved)) => Ok(cached_text(alloc, saved_etag(&saved), body)?),
        Ok(None) => Ok(cached_text(alloc, "", body)?),
        Err(error) => Err(error),
    }
}
