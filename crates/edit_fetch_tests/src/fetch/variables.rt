//! Tests of registries that environment variables define.
use edit_fetch::{default_registry_text, variables_text};
use edit_sources::Config;
use std::test::Fail;

#[test]
fn read_back(rt: HostRuntime) -> Result<(), Fail> {
    let alloc = rt.alloc();
    let mut variables = Vec::new(alloc);
    for (name, value) in [
        ("CARGO_REGISTRIES_ONE_INDEX", "sparse+https://one.example/"),
        ("CARGO_REGISTRIES_MY_OWN_INDEX", "'a' \"b\" \\c\t\u{7f}\né"),
        ("CARGO_REGISTRIES__INDEX", "x"),
        ("CARGO_REGISTRIES_small_INDEX", "x"),
        ("CARGO_REGISTRIES_ONE_TOKEN", "x"),
    ] {
        variables.push((
            String::from_str(alloc, name)?,
            String::from_str(alloc, value)?,
        ))?;
    }
    let text = variables_text(alloc, &variables)?;
    let config = Config::read(alloc, "first.toml", &text)?;
    assert_eq!(rt; config.registries.len(), 3);
    for (key, index) in &config.registries {
        let wanted = if key.as_str() == "one" {
            "sparse+https://one.example/"
        } else {
            assert!(rt; key.as_str() == "my-own" || key.as_str() == "my_own");
            "'a' \"b\" \\c\t\u{7f}\né"
        };
        assert_eq!(rt; index.as_deref(), Some(wanted));
    }
    Ok(())
}

#[test]
fn default_registry(rt: HostRuntime) -> Result<(), Fail> {
    let text = default_registry_text(rt.alloc())?;
    let config = Config::read(rt.alloc(), "last.toml", &text)?;
    assert_eq!(rt; config.sources.len(), 1);
    let (key, source) = &config.sources[0];
    assert_eq!(rt; key.as_str(), "crates-io");
    assert_eq!(rt;
        source.registry.as_deref(),
        Some("sparse+https://index.crates.io/")
    );
    Ok(())
}
