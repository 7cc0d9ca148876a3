//! Tests of plans of transfers, network settings, tokens and headers.
mod addressless;
mod retries;
mod variables;

use edit_fetch::{
    Environment, FetchPlan, NetSettings, Place, Provider, Providers, Reply, Step, counted_place,
    fetch_config, fetch_plan, is_header_text, net_settings, next_step, provider_variable,
    registry_address, token_variable, wants_token,
};
use edit_sources::config::read_configs;
use edit_store::{MemoryStore, Store};
use std::str;
use std::test::Fail;

/// Lookups in two registries.
const LOOKUPS: &str =
    "sparse+https://index.example/\tserde\tse/rd/serde\nfile:///idx\tabc\t3/a/abc\n";

/// The configuration of curl for these lookups.
const CONFIG: &[u8] = b"url = \"https://index.example/se/rd/serde\"
output = \"/room/1\"
etag-save = \"/room/1.etag\"
write-out = \"1\\t%{response_code}\\t%{exitcode}\\t%{num_redirects}\\t%{time_total}\\t%{errormsg}\\n\"
dump-header = \"/room/1.head\"
location
max-redirs = \"5\"
proto = \"=https\"
proto-redir = \"=https\"
silent
globoff
compressed
user-agent = \"cargo-edit/0.1.0\"
connect-timeout = \"30\"
speed-limit = \"10\"
speed-time = \"30\"
max-filesize = \"104857600\"
";

#[test]
fn plans_only_sparse_lookups(rt: HostRuntime) -> Result<(), Fail> {
    let settings = NetSettings {
        offline: false,
        retry: 3,
        timeout: 30,
        proxy: None,
        cainfo: None,
    };
    let plan = FetchPlan {
        cache: "/cache",
        room: "/room",
        settings: &settings,
        tokens: &[],
        withheld: &[],
    };
    let mut store = MemoryStore::new(rt.alloc());
    let count = fetch_plan(rt.alloc(), &mut store, &plan, LOOKUPS)?;
    assert_eq!(rt; count, Some(1));
    let config = fetch_config(rt.alloc(), &mut store, &plan, LOOKUPS)?.ok_or("malformed")?;
    assert_eq!(rt; config.as_slice(), CONFIG);
    Ok(())
}

/// The path of the cached entry of `serde`.
const SERDE: &str = "/cache/sparse+https:%2F%2Findex.example%2F/se/rd/serde";

#[test]
fn sends_the_etag_of_a_cached_entry(rt: HostRuntime) -> Result<(), Fail> {
    let settings = NetSettings {
        offline: false,
        retry: 3,
        timeout: 30,
        proxy: None,
        cainfo: None,
    };
    let plan = FetchPlan {
        cache: "/cache",
        room: "/room",
        settings: &settings,
        tokens: &[],
        withheld: &[],
    };
    let mut store = MemoryStore::new(rt.alloc());
    store.write(rt.alloc(), SERDE, b"ETag: W/\"1\"\n{}\n")?;
    let config = fetch_config(rt.alloc(), &mut store, &plan, LOOKUPS)?.ok_or("malformed")?;
    let text = str::from_utf8(&config).expect(&rt, "UTF-8");
    assert!(rt;
        text.contains("header = \"If-None-Match: W/\\\"1\\\"\"\n"),
        "{text}"
    );
    Ok(())
}

#[test]
fn requests_nothing_of_a_withheld_registry(rt: HostRuntime) -> Result<(), Fail> {
    let settings = NetSettings {
        offline: false,
        retry: 3,
        timeout: 30,
        proxy: None,
        cainfo: None,
    };
    let plan = FetchPlan {
        cache: "/cache",
        room: "/room",
        settings: &settings,
        tokens: &[],
        withheld: &["sparse+https://index.example/"],
    };
    let mut store = MemoryStore::new(rt.alloc());
    let config = fetch_config(rt.alloc(), &mut store, &plan, LOOKUPS)?.ok_or("malformed")?;
    assert!(rt; config.is_empty());
    Ok(())
}

#[test]
fn asks_the_last_provider_first(rt: HostRuntime) -> Result<(), Fail> {
    let providers = Providers {
        own: false,
        global: 2,
    };
    assert!(rt; matches!(next_step(providers, &[]), Step::Ask(Provider::Global(1))));
    let one = [Reply::Nothing];
    assert!(rt; matches!(next_step(providers, &one), Step::Ask(Provider::Global(0))));
    let two = [Reply::Nothing, Reply::Token];
    assert!(rt; matches!(next_step(providers, &two), Step::Decided(1)));
    let none = [Reply::Nothing, Reply::Nothing];
    assert!(rt; matches!(next_step(providers, &none), Step::Exhausted));
    Ok(())
}

#[test]
fn takes_the_environment_before_files(rt: HostRuntime) -> Result<(), Fail> {
    assert!(rt; matches!(counted_place(true, true, &[true]), Some(Place::Environment)));
    assert!(rt;
        matches!(
            counted_place(false, true, &[true]),
            Some(Place::Credentials)
        )
    );
    assert!(rt;
        matches!(
            counted_place(false, false, &[false, true]),
            Some(Place::File(1))
        )
    );
    assert!(rt; counted_place(false, false, &[false]).is_none());
    assert!(rt; wants_token("401", false));
    assert!(rt; wants_token("200", true));
    assert!(rt; !wants_token("200", false));
    let variable = provider_variable(rt.alloc(), "my-own")?.ok_or("no name")?;
    assert_eq!(rt;
        variable.as_str(),
        "CARGO_REGISTRIES_MY_OWN_CREDENTIAL_PROVIDER"
    );
    Ok(())
}

/// A configuration file of cargo.
const SETTINGS: &[u8] = b"[net]\nretry = 7\n[http]\ntimeout = 5\ncainfo = \"ca.pem\"\n";

#[test]
fn environment_before_file(rt: HostRuntime) -> Result<(), Fail> {
    let mut store = MemoryStore::new(rt.alloc());
    store.write(rt.alloc(), "/w/.cargo/config.toml", SETTINGS)?;
    let configs = read_configs(rt.alloc(), &mut store, "/w/Cargo.toml", None)?;
    let environment = Environment {
        offline: Some("true"),
        retry: Some("9"),
        timeout: None,
        proxy: None,
        cainfo: None,
    };
    let settings = net_settings(rt.alloc(), &mut store, &environment, &configs)?;
    assert!(rt; settings.offline);
    assert_eq!(rt; settings.retry, 9);
    assert_eq!(rt; settings.timeout, 5);
    assert_eq!(rt; settings.cainfo.as_deref(), Some("/w/ca.pem"));
    Ok(())
}

#[test]
fn names_token_variable(rt: HostRuntime) -> Result<(), Fail> {
    let variable = token_variable(rt.alloc(), "my-registry")?.ok_or("no variable")?;
    assert_eq!(rt; variable.as_str(), "CARGO_REGISTRIES_MY_REGISTRY_TOKEN");
    let address = registry_address(rt.alloc(), "HTTPS://Index.Example")?.ok_or("no address")?;
    assert_eq!(rt; address.as_str(), "https://index.example/");
    assert!(rt; registry_address(rt.alloc(), "index.example")?.is_none());
    Ok(())
}

#[test]
fn texts_of_headers(rt: HostRuntime) -> Result<(), Fail> {
    assert!(rt; is_header_text(b"Bearer a-token \xff~"));
    assert!(rt; !is_header_text(b"token\n"));
    assert!(rt; !is_header_text(b"a\x7f"));
    Ok(())
}
