//! Tests of `PublishedBefore` and indexes with a bound.
use super::calls::calls;
use super::index_texts::files_of;
use crate::assertion_helpers::unwrap_ok;
use edit_cache::IndexCache;
use edit_sources::{FileIndex, LocalIndex, PublishedBefore};

/// A line of each crate, with the time at which its version was published.
const DATED: &[u8] = b"\
{\"name\":\"before\",\"vers\":\"1.0.0\",\"pubtime\":\"2025-05-01T11:59:59Z\"}\n\
{\"name\":\"equal\",\"vers\":\"1.0.0\",\"pubtime\":\"2025-05-01T12:00:00Z\"}\n\
{\"name\":\"after\",\"vers\":\"1.0.0\",\"pubtime\":\"2025-05-01T12:00:01Z\"}\n\
{\"name\":\"absent\",\"vers\":\"1.0.0\"}\n\
{\"name\":\"null\",\"vers\":\"1.0.0\",\"pubtime\":null}\n\
{\"name\":\"number\",\"vers\":\"1.0.0\",\"pubtime\":1746100799}\n\
{\"name\":\"unreadable\",\"vers\":\"1.0.0\",\"pubtime\":\"May 2025\"}\n\
{\"name\":\"east\",\"vers\":\"1.0.0\",\"pubtime\":\"2025-05-01T13:59:59+02:00\"}\n\
{\"name\":\"west\",\"vers\":\"1.0.0\",\"pubtime\":\"2025-05-01T11:59:59-02:00\"}\n";

/// The calls over them with a bound: a crate of which nothing is left has no entries.
const OVER_DATED: &str = "\
before the bound|krate|before||before 1.0.0.
at the bound|krate|equal||equal 1.0.0.
after the bound|krate|after||
no time|krate|absent||
null|krate|null||
a number|krate|number||
an unreadable text|krate|unreadable||
an earlier instant, a later clock|krate|east||east 1.0.0.
a later instant, an earlier clock|krate|west||
another crate|krate|other||none";

#[test]
fn finds_published_versions(rt: HostRuntime) {
    let bound = PublishedBefore::parse("2025-05-01T12:00:00Z");
    let index = unwrap_ok(&rt, FileIndex::with_bound(rt.alloc(), DATED, bound));
    let mut cache = IndexCache::new(rt.alloc(), index);
    calls(&rt, rt.alloc(), &mut cache, OVER_DATED);
}

/// Paths with lines: of one the first is not published by the bound, and of another the last is malformed.
const FILES: &str = "\
/idx/1/a|{\"name\":\"a\",\"vers\":\"1.1.0\"}@\
{\"name\":\"a\",\"vers\":\"1.0.0\",\"pubtime\":\"2025-05-01T12:00:00Z\"}
/idx/1/b|{\"name\":\"b\",\"vers\":\"1.0.0\"}@{\"name\":1}";

/// The calls over them.
const OVER_FILES: &str = "\
the second line|krate|a||a 1.0.0.
a malformed line has its number|krate|b||30 Invalid index line 2";

#[test]
fn looks_up_published_versions(rt: HostRuntime) {
    let bound = PublishedBefore::parse("2025-05-01T14:00:00+02:00");
    let index = LocalIndex::with_bound(files_of(&rt, rt.alloc(), FILES), bound);
    let mut cache = IndexCache::new(rt.alloc(), index);
    calls(&rt, rt.alloc(), &mut cache, OVER_FILES);
}

#[test]
fn counts_days_back(rt: HostRuntime) {
    let bound = PublishedBefore::days_before("2025-05-01T14:00:00.5+02:00", 7);
    assert!(rt;
        bound == PublishedBefore::parse("2025-04-24T12:00:00.5Z"),
        "another time"
    );
}
