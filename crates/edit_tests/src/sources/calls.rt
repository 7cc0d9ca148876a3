//! Calls of an index and of its cache, as texts.
use super::index_texts::entries;
use crate::assertion_helpers::{
    check_result, error_number_and_text, success_or_error, text, unwrap_alloc,
};
use crate::records::parts::choice_text;
use crate::rows::field;
use edit_cache::{IndexCache, Ranked};
use edit_sources::{Index, IndexKrate};
use semver::VersionReq;
use std::alloc::Global;
use std::process::Abort;
use url::Url;

/// The cached entries.
fn answer(rt: &impl Abort, alloc: Global, krate: Option<&IndexKrate>) -> String {
    match krate {
        Some(krate) => entries(rt, alloc, krate),
        None => text(rt, alloc, "none"),
    }
}

/// The first four versions of a ranking.
fn ranking(rt: &impl Abort, alloc: Global, ranked: Option<&Ranked>) -> String {
    let Some(ranked) = ranked else {
        return text(rt, alloc, "none");
    };
    let mut seen = String::new(alloc);
    'versions: for n in 0..4usize {
        if let Some(version) = ranked.version(n) {
            unwrap_alloc(rt, write!(seen, "{version};"));
        }
    }
    seen
}

/// The greatest version of a ranking that a requirement admits.
fn select_compatible(rt: &impl Abort, alloc: Global, ranked: &Ranked, req: &str) -> String {
    match VersionReq::parse(alloc, req) {
        Ok(req) => choice_text(rt, alloc, ranked.compatible(alloc, &req, None)),
        Err(_) => text(rt, alloc, "no requirement"),
    }
}

/// The version of a ranking for a requirement, or its latest version without one.
fn choice(rt: &impl Abort, alloc: Global, ranked: Option<&Ranked>, req: &str) -> String {
    let Some(ranked) = ranked else {
        return text(rt, alloc, "no ranking");
    };
    if req.is_empty() {
        choice_text(rt, alloc, ranked.latest(alloc, false, None))
    } else {
        select_compatible(rt, alloc, ranked, req)
    }
}

/// Queries the index, and returns what is cached of the answer.
fn query_index<I: Index>(
    rt: &impl Abort,
    alloc: Global,
    cache: &mut IndexCache<I>,
    registry: &Url,
    name: &str,
) -> String {
    match cache.krate(alloc, registry, name) {
        Ok(krate) => answer(rt, alloc, krate),
        Err(error) => error_number_and_text(rt, alloc, error),
    }
}

/// Whether the index has a name.
fn has<I: Index>(
    rt: &impl Abort,
    alloc: Global,
    cache: &mut IndexCache<I>,
    registry: &Url,
    name: &str,
) -> String {
    match cache.has_krate(alloc, registry, name) {
        Ok(has) => unwrap_alloc(rt, format!(in alloc; "{has}")),
        Err(error) => error_number_and_text(rt, alloc, error),
    }
}

/// Whether the index has a version.
fn has_version<I: Index>(
    rt: &impl Abort,
    alloc: Global,
    cache: &mut IndexCache<I>,
    registry: &Url,
    name: &str,
    version: &str,
) -> String {
    match cache.has_krate_version(alloc, registry, name, version) {
        Ok(has) => unwrap_alloc(rt, format!(in alloc; "{has:?}")),
        Err(error) => error_number_and_text(rt, alloc, error),
    }
}

/// The ranking of the answer of the index.
fn query_ranking<I: Index>(
    rt: &impl Abort,
    alloc: Global,
    cache: &mut IndexCache<I>,
    registry: &Url,
    name: &str,
) -> String {
    match cache.ranked(alloc, registry, name) {
        Ok(ranked) => ranking(rt, alloc, ranked),
        Err(error) => error_number_and_text(rt, alloc, error),
    }
}

/// A call without a result.
fn call_without_result<I: Index>(
    rt: &impl Abort,
    alloc: Global,
    cache: &mut IndexCache<I>,
    registry: &Url,
    row: &str,
) -> String {
    let name = field(row, 2);
    let done = match field(row, 1) {
        "fetch" => cache.fetch(alloc, registry, name),
        "rank" => cache.rank(alloc, registry, name),
        _ => cache.update_krate(registry, name),
    };
    success_or_error(rt, alloc, done, "done")
}

/// The result of a call. Its row has a name, the call, the crate's name, and a version or a requirement.
fn call<I: Index>(
    rt: &impl Abort,
    alloc: Global,
    cache: &mut IndexCache<I>,
    registry: &Url,
    row: &str,
) -> String {
    let name = field(row, 2);
    match field(row, 1) {
        "krate" => query_index(rt, alloc, cache, registry, name),
        "shown" => answer(rt, alloc, cache.cached_krate(registry, name)),
        "has" => has(rt, alloc, cache, registry, name),
        "has version" => has_version(rt, alloc, cache, registry, name, field(row, 3)),
        "ranked" => query_ranking(rt, alloc, cache, registry, name),
        "shown ranking" => ranking(rt, alloc, cache.cached_ranking(registry, name)),
        "choice" => choice(
            rt,
            alloc,
            cache.cached_ranking(registry, name),
            field(row, 3),
        ),
        _ => call_without_result(rt, alloc, cache, registry, row),
    }
}

/// Makes the calls of a table in turn. After the fields of its call, a row has the expected result.
pub(crate) fn calls<I: Index>(
    rt: &impl Abort,
    alloc: Global,
    cache: &mut IndexCache<I>,
    rows: &str,
) {
    let registry = Url::parse(alloc, "file:///idx")
        .ok()
        .expect(rt, "an address");
    'rows: for row in rows.lines() {
        let seen = call(rt, alloc, cache, &registry, row);
        check_result(rt, row, seen.as_str(), field(row, 4));
    }
}
