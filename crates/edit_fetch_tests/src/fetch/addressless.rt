//! Tests of sources without a URL.
use edit_fetch::{addressless_sources, placeholder_address, sources_text};
use edit_sources::Config;
use std::alloc::Global;
use std::test::Fail;

/// The configuration of a vendored project.
const VENDORED: &[u8] = b"[source.crates-io]
replace-with = 'vendored \"it\"'
[source.'vendored \"it\"']
directory = 'vendor'
[source.own]
registry = 'file:///own'
";

/// A configuration of the user's home.
const HOME: &[u8] = b"[source.own]
[source.'vendored \"it\"']
[source.git]
git = 'https://git.example/'
[source.crates-io]
";

fn configs(alloc: Global) -> Result<Vec<Config>, Fail> {
    let mut configs = Vec::new(alloc);
    configs.push(Config::read(alloc, "/w/.cargo/config.toml", VENDORED)?)?;
    configs.push(Config::read(alloc, "/h/config.toml", HOME)?)?;
    Ok(configs)
}

#[test]
fn first_definitions(rt: HostRuntime) -> Result<(), Fail> {
    let configs = configs(rt.alloc())?;
    let sources = addressless_sources(rt.alloc(), &configs)?;
    assert_eq!(rt; sources.len(), 2);
    assert_eq!(rt; sources[0].key, "vendored \"it\"");
    assert_eq!(rt; sources[0].file, "/w/.cargo/config.toml");
    assert_eq!(rt; sources[1].key, "git");
    assert_eq!(rt; sources[1].file, "/h/config.toml");
    Ok(())
}

#[test]
fn read_back(rt: HostRuntime) -> Result<(), Fail> {
    let configs = configs(rt.alloc())?;
    let sources = addressless_sources(rt.alloc(), &configs)?;
    let text = sources_text(rt.alloc(), &sources)?;
    let config = Config::read(rt.alloc(), "first.toml", &text)?;
    assert_eq!(rt; config.sources.len(), 2);
    for (key, source) in &config.sources {
        let address = placeholder_address(rt.alloc(), key.as_str())?;
        assert_eq!(rt; source.registry.as_deref(), Some(address.as_str()));
    }
    Ok(())
}
