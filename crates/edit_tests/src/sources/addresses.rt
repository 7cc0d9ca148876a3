//! Addresses under configuration files.
use super::index_texts::files_of;
use crate::assertion_helpers::{
    check_result, error_number_and_text, text, unwrap_alloc, unwrap_ok,
};
use crate::rows::field;
use edit_sources::config::{Config, ConfigCache, read_configs};
use edit_sources::registry::{registry_url, resolve};
use edit_store::{FaultStore, MemoryStore};
use std::alloc::Global;
use std::process::Abort;

/// The configurations of a workspace of two members, each a path and its lines.
const WORKSPACE: &str = "\
/w/a/.cargo/config|registries.r.index = 'file:///a'
/w/.cargo/config.toml|registries.r.index = 'file:///w'
/home/config|registries.r.index = 'file:///home'";

/// The manifest of a member, the place behind its name, and the configurations that count there, each
/// by its path, with the address that the first of them to define the registry gives it.
const MEMBERS: &str = "\
/w/a/.cargo/config /w/.cargo/config.toml /home/config file:///a|a member's own|/w/a/Cargo.toml
/w/.cargo/config.toml /home/config file:///w|a member without|/w/b/Cargo.toml
/w/a/.cargo/config /w/.cargo/config.toml /home/config file:///a|the first again|/w/a/Cargo.toml";

/// The address that configurations give a registry, or why they give none.
fn address(rt: &impl Abort, alloc: Global, configs: &[Config]) -> String {
    match resolve(alloc, configs, Some("r")) {
        Ok(url) => text(rt, alloc, url.as_str()),
        Err(error) => error_number_and_text(rt, alloc, error),
    }
}

/// The paths of configurations, and the address that they give a registry.
fn configs_text(rt: &impl Abort, alloc: Global, configs: &[Config]) -> String {
    let mut seen = String::new(alloc);
    for config in configs {
        unwrap_alloc(rt, write!(seen, "{} ", config.path));
    }
    let address = address(rt, alloc, configs);
    unwrap_alloc(rt, seen.push_str(address.as_str()));
    seen
}

/// What counts for the other manifest, and the address.
fn member_configs_text(rt: &impl Abort, alloc: Global, store: &mut MemoryStore) -> String {
    let configs = unwrap_ok(
        rt,
        read_configs(alloc, store, "/w/b/Cargo.toml", Some("/home")),
    );
    configs_text(rt, alloc, &configs)
}

/// The calls for one manifest alone: what counts for it, and the address.
#[test]
fn without_a_cache(rt: HostRuntime) {
    let mut store = files_of(&rt, rt.alloc(), WORKSPACE);
    let seen = member_configs_text(&rt, rt.alloc(), &mut store);
    check_result(
        &rt,
        "a member without",
        seen.as_str(),
        "/w/.cargo/config.toml /home/config file:///w",
    );
    a_member_alone(&rt, rt.alloc(), &mut store);
}

/// Whether the call for the address alone gives a member its own one.
fn a_member_alone(rt: &impl Abort, alloc: Global, store: &mut MemoryStore) {
    let url = registry_url(alloc, store, "/w/a/Cargo.toml", Some("/home"), Some("r"));
    let url = unwrap_ok(rt, url);
    check_result(rt, "a member's own", url.as_str(), "file:///a");
}

/// What counts for a manifest, and the address, by a cache.
fn by_cache(
    rt: &impl Abort,
    alloc: Global,
    cache: &mut ConfigCache,
    store: &mut FaultStore,
    path: &str,
) -> String {
    match cache.read_configs(alloc, store, path, Some("/home")) {
        Ok(configs) => configs_text(rt, alloc, &configs),
        Err(error) => error_number_and_text(rt, alloc, error),
    }
}

/// Whether one cache gives each manifest in turn what counts for it.
fn cached_rows(rt: &impl Abort, alloc: Global, cache: &mut ConfigCache, store: &mut FaultStore) {
    'rows: for row in MEMBERS.lines() {
        let seen = by_cache(rt, alloc, cache, store, field(row, 2));
        check_result(rt, row, seen.as_str(), field(row, 0));
    }
}

/// The first manifest takes six reads, since two of its four places have no `config`, the second one two
/// of the place that is its own, and the third one none: the ninth, which would fail, is never made.
#[test]
fn configurations_by_one_cache(rt: HostRuntime) {
    let mut store = FaultStore::new(files_of(&rt, rt.alloc(), WORKSPACE), 8, 0);
    let mut cache = ConfigCache::new(rt.alloc());
    cached_rows(&rt, rt.alloc(), &mut cache, &mut store);
}

/// The paths of the configurations that count for a manifest, by a cache.
fn paths_by_cache(
    rt: &impl Abort,
    alloc: Global,
    cache: &mut ConfigCache,
    store: &mut FaultStore,
    path: &str,
) -> String {
    let paths = unwrap_ok(rt, cache.config_paths(alloc, store, path, Some("/home")));
    let mut seen = String::new(alloc);
    for path in &paths {
        unwrap_alloc(rt, write!(seen, "{path} "));
    }
    seen
}

/// The third call makes no read, since all its folders were searched: it would be the ninth, which fails.
#[test]
fn paths_by_one_cache(rt: HostRuntime) {
    let mut store = FaultStore::new(files_of(&rt, rt.alloc(), WORKSPACE), 8, 0);
    let mut cache = ConfigCache::new(rt.alloc());
    'rows: for row in MEMBERS.lines() {
        let seen = paths_by_cache(&rt, rt.alloc(), &mut cache, &mut store, field(row, 2));
        let (paths, _) = field(row, 0).split_once("file:").unwrap_or(("", ""));
        check_result(&rt, row, seen.as_str(), paths);
    }
}

#[test]
fn config_errors_are_not_cached(rt: HostRuntime) {
    let mut store = FaultStore::new(files_of(&rt, rt.alloc(), WORKSPACE), 1, 0);
    let mut cache = ConfigCache::new(rt.alloc());
    let seen = by_cache(&rt, rt.alloc(), &mut cache, &mut store, "/w/a/Cargo.toml");
    check_result(
        &rt,
        "the second read",
        seen.as_str(),
        "3 Failed to read a file",
    );
    cached_rows(&rt, rt.alloc(), &mut cache, &mut store);
}
