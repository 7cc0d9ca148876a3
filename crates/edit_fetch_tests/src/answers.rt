//! Tests of curl's version, local registries, messages, and of what is removed from the cache.
mod store_results;

use edit_answers::local::local_folder;
use edit_answers::{
    AgedFile, Failure, MemoryCache, Outcome, Places, StoreOptions, is_new_enough, prune, report_of,
};
use edit_lookups::Lookup;
use std::alloc::Global;
use std::test::Fail;

/// The folders of the cache and of a run.
const PLACES: Places<'static> = Places {
    cache: "/c",
    room: "/c/.run.1",
};

#[test]
fn versions(rt: HostRuntime) {
    let new = [
        "curl 7.88.1 (x86_64-pc-linux-gnu) libcurl/7.88.1 OpenSSL/3.0.19",
        "curl 7.75.0 (x86_64-pc-linux-gnu)",
        "curl 8.14.1 (aarch64-apple-darwin)",
        "curl 10.0.0",
    ];
    for text in new {
        assert!(rt; is_new_enough(text), "{text}");
    }
    let old = [
        "",
        "curl 7.74.0 (x86_64-pc-linux-gnu)",
        "curl 7.9.8",
        "curl 6.99.0",
        "wget 8.1.0",
        "curl 8",
    ];
    for text in old {
        assert!(rt; !is_new_enough(text), "{text}");
    }
}

/// The folder of an address, or `-` where it names none.
fn folder_or_dash(alloc: Global, address: &str) -> Result<String, Fail> {
    match local_folder(alloc, address)? {
        Some(folder) => Ok(folder),
        None => Ok(String::from_str(alloc, "-")?),
    }
}

#[test]
fn folders(rt: HostRuntime) -> Result<(), Fail> {
    let cases = [
        ("file:///idx/", "/idx"),
        ("file:///a%20b/c", "/a b/c"),
        ("file:///", "/"),
        ("file:///a%2F", "/a"),
        ("file://host.example/idx", "-"),
        ("file:///a%00b", "-"),
        ("file:///a%FF", "-"),
        ("https://h.example/idx", "-"),
        ("idx", "-"),
    ];
    for (address, folder) in cases {
        assert_eq!(rt; folder_or_dash(rt.alloc(), address)?.as_str(), folder);
    }
    Ok(())
}

/// Lookups in two registries.
const LOOKUPS: [Lookup<'static>; 4] = [
    Lookup {
        address: "sparse+https://u:p@h.example/",
        name: "log",
        path: "3/l/log",
    },
    Lookup {
        address: "file:///idx",
        name: "serde",
        path: "se/rd/serde",
    },
    Lookup {
        address: "sparse+https://u:p@h.example/",
        name: "rand",
        path: "ra/nd/rand",
    },
    Lookup {
        address: "file:///idx",
        name: "ab",
        path: "2/ab",
    },
];

#[test]
fn two_registries(rt: HostRuntime) -> Result<(), Fail> {
    let options = StoreOptions {
        offline: false,
        excluded: &["ab"],
    };
    let outcomes = [
        Outcome::Cached(Failure::Curl("6", "no\u{1b} host")),
        Outcome::Missing(Failure::NoFolder),
        Outcome::Cached(Failure::Status("500")),
        Outcome::Missing(Failure::Unanswered),
    ];
    let report = report_of(rt.alloc(), &LOOKUPS, &outcomes, &options)?;
    assert_eq!(rt;
        report.warnings.as_str(),
        "warning: 2 index entries of sparse+https://h.example/ could not be fetched \
(no\\u{1b} host, curl: 6): the cached ones are used (log, rand)\n"
    );
    let error = report.error.ok_or("no error")?;
    assert_eq!(rt;
        error.as_str(),
        "index entries could not be fetched, and are not in the cache; \
leave the crates out by `--exclude`, or as they are by `--offline`:\n  \
file:///idx: serde (there is no such folder)"
    );
    Ok(())
}

/// Adds a file to a cache.
fn add(
    alloc: Global,
    cache: &mut MemoryCache,
    path: &str,
    is_run: bool,
    days: u64,
) -> Result<(), Fail> {
    let path = String::from_str(alloc, path)?;
    cache.files.push(AgedFile { path, is_run, days })?;
    Ok(())
}

#[test]
fn unused_entries(rt: HostRuntime) -> Result<(), Fail> {
    let alloc = rt.alloc();
    let mut cache = MemoryCache {
        files: Vec::new(alloc),
    };
    add(alloc, &mut cache, "/c/h/se/rd/serde", false, 400)?;
    add(alloc, &mut cache, "/c/h/se/rd/serde.etag", false, 89)?;
    add(alloc, &mut cache, "/c/h/3/l/log", false, 90)?;
    add(alloc, &mut cache, "/c/h/3/l/log.etag", false, 90)?;
    add(alloc, &mut cache, "/c/.run.1", true, 1)?;
    add(alloc, &mut cache, "/c/.run.2", true, 0)?;
    add(alloc, &mut cache, "/c/h/2/ab", false, 0)?;
    prune(alloc, &mut cache)?;
    let left = [
        "/c/h/se/rd/serde",
        "/c/h/se/rd/serde.etag",
        "/c/.run.2",
        "/c/h/2/ab",
    ];
    assert_eq!(rt; cache.files.len(), left.len());
    for (aged, path) in cache.files.iter().zip(left.iter()) {
        assert_eq!(rt; aged.path.as_str(), *path);
    }
    Ok(())
}
