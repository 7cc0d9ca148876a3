//! The requests for lookups.
ghost use Rattle.std.specs.Prelude.{◌≡◌, ◌++◌, ◌⊎◌, true, IfErr, IfOk, map, option_map, string_bytes};
ghost use Rattle.std.specs.List.{count_by};
ghost use Rattle.edit_base.specs.Errors.{IsMemory};
ghost use Rattle.edit_fetch.specs.Plans.{AreEffectiveRequests, AreRequests, IsCachedEtag, IsRequest, fetched_url, is_requested, is_sparse_registry, is_withheld, request_count, with_slash};
ghost use Rattle.edit_lookups.specs.CachePaths.{cached_path};
ghost use Rattle.edit_lookups.specs.Lookups.{lookup_text};
ghost use Rattle.edit_sources.specs.ConfigurationFiles.{HasFailed};
ghost use Rattle.edit_store.specs.Store.{OnlyReads};

use crate::plan::FetchPlan;
use crate::tokens::token_of;
use crate::transfers::Request;
use edit_base::CargoResult;
use edit_lookups::{Lookup, cached_etag, cached_path};
use edit_store::Store;
use std::alloc::{AllocError, Global};

/// Whether a registry uses the sparse protocol, so that its entries can be fetched.
fn is_sparse_registry(address: &[u8]) -> bool
    ensures { result ≡ is_sparse_registry address.now }
{
    address.starts_with(b"sparse+http://") || address.starts_with(b"sparse+https://")
}

/// Whether nothing is requested of a registry, since it wants a token and none can be sent.
fn is_withheld(plan: &FetchPlan<'_>, address: &str) -> bool
    ensures { result ≡ is_withheld plan.now address.now }
{
    plan.withheld.iter().any(|other| *other == address)
}

/// Whether the entries of a registry are requested.
fn is_requested(plan: &FetchPlan<'_>, address: &str) -> bool
    ensures { result ≡ is_requested plan.now address.now }
{
    is_sparse_registry(address.as_bytes()) && !is_withheld(plan, address)
}

/// Appends a slash, unless the text ends with one.
fn end_with_slash(text: &mut Vec<u8>) -> Result<(), AllocError>
    ensures { IfOk result (λ _. text.new.items ≡ with_slash text.old.items) }
{
    if !text.ends_with(b"/") {
        text.push(b'/')?;
    }
    Ok(())
}

/// The URL of an index entry.
fn fetched_url(alloc: Global, lookup: &Lookup<'_>) -> Result<Vec<u8>, AllocError>
    ensures { IfOk result (λ v. v.items ≡ fetched_url (lookup_text lookup.now)) }
{
    let mut url = Vec::new(alloc);
    if let Some(base) = lookup.address.as_bytes().get(7..) {
        url.extend_from_slice(base)?;
    }
    end_with_slash(&mut url)?;
    url.extend_from_slice(lookup.path.as_bytes())?;
    Ok(url)
}

/// The ETag in the text of a cached entry.
fn etag_in(alloc: Global, text: &[u8]) -> Result<Option<String>, AllocError>
    ensures { IfOk result (λ e. IsCachedEtag (Some text.now) (option_map string_bytes e)) }
{
    match cached_etag(text) {
        Some(etag) => Ok(Some(String::from_str(alloc, etag)?)),
        None => Ok(None),
    }
}

/// The ETag of a cached entry; `None` where the entry is not in the cache.
fn etag_at<S: Store>(alloc: Global, store: &mut S, entry: &str) -> CargoResult<Option<String>>
    ensures store { OnlyReads (S.view store.old) (S.view store.new) }
    ensures etag { IfOk result (λ e. (S.view store.old).tells ≡ true
        → IsCachedEtag ((S.view store.old).file_at entry.now) (option_map string_bytes e)) }
    ensures error { IfErr result (λ e. IsMemory e
        ⊎ HasFailed (S.view store.old).faults (S.view store.new).faults e) }
{
    match store.read(alloc, entry) {
        Ok(Some(text)) => Ok(etag_in(alloc, &text)?),
        Ok(None) => Ok(None),
        Err(error) => Err(error),
    }
}

/// The request for a lookup.
fn request<'a, S: Store>(
    alloc: Global,
    store: &mut S,
    plan: &FetchPlan<'a>,
    number: usize,
    lookup: &Lookup<'_>,
) -> CargoResult<Request<'a>>
    ensures store { OnlyReads (S.view store.old) (S.view store.new) }
    ensures request { IfOk result (λ r. (S.view store.old).tells ≡ true
        → IsRequest (S.view store.old).file_at plan.now number (lookup_text lookup.now) r) }
    ensures error { IfErr result (λ e. IsMemory e
        ⊎ HasFailed (S.view store.old).faults (S.view store.new).faults e) }
{
    let url = fetched_url(alloc, lookup)?;
    let entry = cached_path(alloc, plan.cache, lookup)?;
    let etag = match etag_at(alloc, store, entry.as_str()) {
        Ok(etag) => etag,
        Err(error) => return Err(error),
    };
    let token = token_of(plan.tokens, lookup.address);
    Ok(Request {
        number,
        url,
        etag,
        token,
    })
}

/// The requests for lookups, in their order; none for a registry without the sparse protocol or for one of
/// which nothing is requested.
pub(crate) fn requests<'a, S: Store>(
    alloc: Global,
    store: &mut S,
    plan: &FetchPlan<'a>,
    lookups: &[Lookup<'_>],
) -> CargoResult<Vec<Request<'a>>>
    ensures store { OnlyReads (S.view store.old) (S.view store.new) }
    ensures requests { IfOk result (λ v. (S.view store.old).tells ≡ true
        → AreRequests (S.view store.old).file_at plan.now (map lookup_text lookups.now) v.items) }
    ensures error { IfErr result (λ e. IsMemory e
        ⊎ HasFailed (S.view store.old).faults (S.view store.new).faults e) }
{
    let mut requests = Vec::new(alloc);
    for (i, lookup) in lookups.iter().enumerate() {
        if !is_requested(plan, lookup.address) {
            continue;
        }
        match request(alloc, store, plan, i + 1, lookup) {
            Ok(request) => requests.push(request)?,
            Err(error) => return Err(error),
        }
    }
    Ok(requests)
}

/// The requests for lookups; none offline.
pub(crate) fn effective_requests<'a, S: Store>(
    alloc: Global,
    store: &mut S,
    plan: &FetchPlan<'a>,
    lookups: &[Lookup<'_>],
) -> CargoResult<Vec<Request<'a>>>
    ensures store { OnlyReads (S.view store.old) (S.view store.new) }
    ensures requests { IfOk result (λ v. (S.view store.old).tells ≡ true
        → AreEffectiveRequests (S.view store.old).file_at plan.now (map lookup_text lookups.now) v.items) }
    ensures error { IfErr result (λ e. IsMemory e
        ⊎ HasFailed (S.view store.old).faults (S.view store.new).faults e) }
{
    if plan.settings.offline {
        return Ok(Vec::new(alloc));
    }
    requests(alloc, store, plan, lookups)
}

/// The number of lookups of registries of which entries are requested.
fn count_requested(plan: &FetchPlan<'_>, lookups: &[Lookup<'_>]) -> usize
    ensures { result ≡ count_by (λ l. is_requested plan.now l.address.now) lookups.now }
{
    lookups
        .iter()
        .filter(|lookup| is_requested(plan, lookup.address))
        .count()
}

/// The number of the requests for lookups; 0 offline.
pub(crate) fn request_count(plan: &FetchPlan<'_>, lookups: &[Lookup<'_>]) -> usize
    ensures { result ≡ request_count plan.now (map lookup_text lookups.now) }
{
    if plan.settings.offline {
        return 0;
    }
    count_requested(plan, lookups)
}
