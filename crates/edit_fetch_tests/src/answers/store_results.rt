//! Tests of which answers are stored, and of the list of the entries that an upgrade reads.
use super::PLACES;
use edit_answers::{Report, StoreOptions, store_answers};
use edit_store::{FaultStore, MemoryStore, Store};
use std::alloc::Global;
use std::test::Fail;

const OPTIONS: StoreOptions<'static> = StoreOptions {
    offline: false,
    excluded: &[],
};

/// The path of the cached entry of `serde`.
const SERDE: &str = "/c/sparse+https:%2F%2Fh.example%2F/se/rd/serde";

/// The path of the list of the available entries.
const LIST: &str = "/c/.run.1/index";

/// The list with the cached entry of `serde` alone.
const LISTED: &[u8] = b"cached\tsparse+https:%2F%2Fu:p@h.example%2F/se/rd/serde\t\
/c/sparse+https:%2F%2Fh.example%2F/se/rd/serde\0";

/// A cached entry of an older run.
const OLD: &[u8] = b"ETag: W/\"1\"\n{\"name\":\"serde\",\"vers\":\"1.0.0\"}\n";

/// A new body.
const NEW: &[u8] =
    b"{\"name\":\"serde\",\"vers\":\"1.0.0\"}\n{\"name\":\"serde\",\"vers\":\"1.1.0\",\"yanked\":false}\n";

/// The entry with the new body and the ETag of its response.
const STORED: &[u8] =
    b"ETag: W/\"2\"\n{\"name\":\"serde\",\"vers\":\"1.0.0\"}\n{\"name\":\"serde\",\"vers\":\"1.1.0\",\"yanked\":false}\n";

/// The entry with the new body after a redirect.
const MOVED: &[u8] =
    b"ETag: \n{\"name\":\"serde\",\"vers\":\"1.0.0\"}\n{\"name\":\"serde\",\"vers\":\"1.1.0\",\"yanked\":false}\n";

fn put(alloc: Global, store: &mut MemoryStore, path: &str, bytes: &[u8]) -> Result<(), Fail> {
    store.write(alloc, path, bytes)?;
    Ok(())
}

/// Runs one lookup with this outcome and body, over a cache with an old entry.
fn run_with(alloc: Global, answer: &[u8], body: &[u8]) -> Result<(MemoryStore, Report), Fail> {
    let mut store = MemoryStore::new(alloc);
    put(
        alloc,
        &mut store,
        "/c/.run.1/lookups",
        b"sparse+https://u:p@h.example/\tserde\tse/rd/serde\n",
    )?;
    put(alloc, &mut store, "/c/.run.1/answers", answer)?;
    put(alloc, &mut store, "/c/.run.1/1", body)?;
    put(alloc, &mut store, "/c/.run.1/1.etag", b"W/\"2\"\n")?;
    put(alloc, &mut store, SERDE, OLD)?;
    let report = store_answers(alloc, &mut store, &PLACES, &OPTIONS)?;
    Ok((store, report))
}

fn entry(alloc: Global, store: &mut MemoryStore) -> Result<Vec<u8>, Fail> {
    Ok(store.read(alloc, SERDE)?.ok_or("no entry")?)
}

fn list(alloc: Global, store: &mut MemoryStore) -> Result<Vec<u8>, Fail> {
    Ok(store.read(alloc, LIST)?.ok_or("no list")?)
}

#[test]
fn a_new_body(rt: HostRuntime) -> Result<(), Fail> {
    let (mut store, report) = run_with(rt.alloc(), b"1\t200\t0\t0\t\n", NEW)?;
    assert!(rt; report.error.is_none());
    assert!(rt; report.warnings.is_empty());
    assert_eq!(rt; entry(rt.alloc(), &mut store)?.as_slice(), STORED);
    assert_eq!(rt; list(rt.alloc(), &mut store)?.as_slice(), LISTED);
    Ok(())
}

/// Whether a run with this outcome and body uses the old entry unchanged, with a warning.
fn is_old_entry_used(alloc: Global, answer: &[u8], body: &[u8]) -> Result<bool, Fail> {
    let (mut store, report) = run_with(alloc, answer, body)?;
    let keeps = entry(alloc, &mut store)?.as_slice() == OLD;
    let is_listed = list(alloc, &mut store)?.as_slice() == LISTED;
    Ok(keeps && is_listed && report.error.is_none() && !report.warnings.is_empty())
}

#[test]
fn answers_without_an_entry(rt: HostRuntime) -> Result<(), Fail> {
    let alloc = rt.alloc();
    assert!(rt;
        is_old_entry_used(alloc, b"1\t403\t0\t0\t\n", b"")?,
        "forbidden"
    );
    assert!(rt;
        is_old_entry_used(alloc, b"1\t000\t6\t0\tCould not resolve host\n", b"")?,
        "no host"
    );
    assert!(rt;
        is_old_entry_used(alloc, b"1\t200\t18\t0\ttransfer closed\n", NEW)?,
        "cut off"
    );
    assert!(rt;
        is_old_entry_used(alloc, b"1\t200\t0\t0\t", NEW)?,
        "a cut line"
    );
    assert!(rt;
        is_old_entry_used(alloc, b"1\t200\t0\t0\t\n", b"<html>log in</html>\n")?,
        "a page"
    );
    assert!(rt;
        is_old_entry_used(
            alloc,
            b"1\t200\t0\t0\t\n",
            b"{\"name\":\"serde\",\"vers\":\"1.1.0\"}"
        )?,
        "a cut body"
    );
    assert!(rt;
        is_old_entry_used(
            alloc,
            b"1\t200\t0\t0\t\n",
            b"{\"name\":\"log\",\"vers\":\"1.1.0\"}\n"
        )?,
        "another crate"
    );
    Ok(())
}

#[test]
fn a_redirected_body(rt: HostRuntime) -> Result<(), Fail> {
    let (mut store, report) = run_with(rt.alloc(), b"1\t200\t0\t1\t\n", NEW)?;
    assert!(rt; report.error.is_none());
    assert_eq!(rt; entry(rt.alloc(), &mut store)?.as_slice(), MOVED);
    assert_eq!(rt; list(rt.alloc(), &mut store)?.as_slice(), LISTED);
    Ok(())
}

#[test]
fn an_unmodified_entry(rt: HostRuntime) -> Result<(), Fail> {
    let (mut store, report) = run_with(rt.alloc(), b"1\t304\t0\t0\t\n", b"")?;
    assert!(rt; report.error.is_none());
    assert!(rt; report.warnings.is_empty());
    assert_eq!(rt; entry(rt.alloc(), &mut store)?.as_slice(), OLD);
    assert_eq!(rt; list(rt.alloc(), &mut store)?.as_slice(), LISTED);
    Ok(())
}

#[test]
fn a_local_entry(rt: HostRuntime) -> Result<(), Fail> {
    let alloc = rt.alloc();
    let mut store = MemoryStore::new(alloc);
    put(
        alloc,
        &mut store,
        "/c/.run.1/lookups",
        b"file:///idx\tserde\tse/rd/serde\nfile:///idx\tlog\t3/l/log\n",
    )?;
    put(alloc, &mut store, "/idx/se/rd/serde", b"not read")?;
    let report = store_answers(alloc, &mut store, &PLACES, &OPTIONS)?;
    assert!(rt; report.error.is_none());
    assert!(rt; report.warnings.is_empty());
    assert_eq!(rt;
        list(alloc, &mut store)?.as_slice(),
        b"local\tfile:%2F%2F%2Fidx/se/rd/serde\t/idx/se/rd/serde\0".as_slice()
    );
    Ok(())
}

/// Whether a run with neither an outcome nor a cached entry ends with an error.
fn is_error(alloc: Global, excluded: &[&str]) -> Result<bool, Fail> {
    let mut store = MemoryStore::new(alloc);
    put(
        alloc,
        &mut store,
        "/c/.run.1/lookups",
        b"sparse+https://h.example/\tserde\tse/rd/serde\n",
    )?;
    let options = StoreOptions {
        offline: false,
        excluded,
    };
    let report = store_answers(alloc, &mut store, &PLACES, &options)?;
    Ok(report.error.is_some())
}

#[test]
fn an_excluded_crate(rt: HostRuntime) -> Result<(), Fail> {
    assert!(rt; is_error(rt.alloc(), &[])?, "no entry");
    assert!(rt; is_error(rt.alloc(), &["log"])?, "another crate");
    assert!(rt; !is_error(rt.alloc(), &["log", "serde"])?, "excluded");
    Ok(())
}

#[test]
fn a_crate_that_is_not_there(rt: HostRuntime) -> Result<(), Fail> {
    let (mut store, report) = run_with(rt.alloc(), b"1\t404\t0\t0\t\n", b"")?;
    assert!(rt; report.error.is_none());
    assert!(rt; report.warnings.is_empty());
    assert_eq!(rt; entry(rt.alloc(), &mut store)?.as_slice(), OLD);
    assert!(rt; list(rt.alloc(), &mut store)?.is_empty());
    Ok(())
}

#[test]
fn a_failed_write(rt: HostRuntime) -> Result<(), Fail> {
    let (mut store, _report) = run_with(rt.alloc(), b"1\t304\t0\t0\t\n", NEW)?;
    put(
        rt.alloc(),
        &mut store,
        "/c/.run.1/answers",
        b"1\t200\t0\t0\t\n",
    )?;
    put(rt.alloc(), &mut store, "/c/other", OLD)?;
    // the earlier calls read the lookups, the outcomes, the body and its ETag
    let mut store = FaultStore::new(store, 4, 5);
    let result = store_answers(rt.alloc(), &mut store, &PLACES, &OPTIONS);
    assert!(rt; result.is_err());
    let other = store.read(rt.alloc(), "/c/other")?.ok_or("no other entry")?;
    assert_eq!(rt; other.as_slice(), OLD);
    Ok(())
}
