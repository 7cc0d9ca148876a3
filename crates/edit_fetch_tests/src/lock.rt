//! Tests of lock files, and of the calls that are right against them.
use edit_base::Error;
use edit_lock::{Lock, adapt_calls, read_calls};
use std::alloc::{AllocError, Global};
use std::test::Fail;

const BEFORE: &str = r#"version = 4

[[package]]
name = "app"
version = "0.1.0"
dependencies = ["serde", "rand 0.9.0"]

[[package]]
name = "rand"
version = "0.8.5"
source = "registry+https://example.org/index"
checksum = "34af8d1a0e25924bc5b7c43c079c942339d8f0a8b57c39049bef581b46327404"

[[package]]
name = "rand"
version = "0.9.0"

[[package]]
name = "serde"
version = "1.0.0"
"#;

const NOW: &str = r#"version = 4
package = [
  { name = "rand", version = "0.8.5" },
  { name = "rand", version = "0.9.2" },
  { name = "serde", version = "1.0.228" },
  { name = "serde", version = "2.0.0" },
]
"#;

/// One call a line, its arguments parted by spaces.
fn calls_in(alloc: Global, text: &str) -> Result<Vec<Vec<String>>, AllocError> {
    let mut calls = Vec::new(alloc);
    for line in text.lines() {
        let mut call = Vec::new(alloc);
        for argument in line.split(' ') {
            call.push(String::from_str(alloc, argument)?)?;
        }
        calls.push(call)?;
    }
    Ok(calls)
}

/// The same, as a text.
fn format_calls(alloc: Global, calls: &[Vec<String>]) -> Result<String, AllocError> {
    let mut text = String::new(alloc);
    for call in calls {
        for argument in call {
            text.push_str(argument.as_str())?;
            text.push_str(" ")?;
        }
        text.push_str("\n")?;
    }
    Ok(text)
}

const CALLS: &str = "\
cargo update --manifest-path /w/Cargo.toml --precise 1.0.200 --package serde@1.0.0 --offline
cargo update --manifest-path /w/Cargo.toml --offline
cargo update --manifest-path /w/Cargo.toml --package gone@3.0.0 --offline
cargo update --manifest-path /w/Cargo.toml --aggressive --package rand@0.8.5 --package rand@0.9.0 --package gone@3.0.0 --offline";

#[test]
fn leaves_locked_packages(rt: HostRuntime) -> Result<(), Fail> {
    let alloc = rt.alloc();
    let calls = calls_in(alloc, CALLS)?;
    let before = Lock::read(alloc, BEFORE.as_bytes())?;
    let standing = adapt_calls(alloc, &calls, &before, &before, false)?;
    assert_eq!(rt;
        format_calls(alloc, &standing)?.as_str(),
        "\
cargo update --manifest-path /w/Cargo.toml --precise 1.0.200 --package serde@1.0.0 
cargo update --manifest-path /w/Cargo.toml --aggressive --package rand@0.8.5 --package rand@0.9.0 
"
    );
    Ok(())
}

#[test]
fn replaces_updated_packages(rt: HostRuntime) -> Result<(), Fail> {
    let alloc = rt.alloc();
    let calls = calls_in(alloc, CALLS)?;
    let before = Lock::read(alloc, BEFORE.as_bytes())?;
    let now = Lock::read(alloc, NOW.as_bytes())?;
    let standing = adapt_calls(alloc, &calls, &before, &now, true)?;
    assert_eq!(rt;
        format_calls(alloc, &standing)?.as_str(),
        "\
cargo update --manifest-path /w/Cargo.toml --precise 1.0.200 --package serde@1.0.228 --package serde@2.0.0 --offline 
cargo update --manifest-path /w/Cargo.toml --aggressive --package rand@0.8.5 --package rand@0.9.2 --offline 
"
    );
    Ok(())
}

#[test]
fn reads_a_file_of_calls(rt: HostRuntime) -> Result<(), Fail> {
    let alloc = rt.alloc();
    let calls = read_calls(
        alloc,
        "cargo\nupdate\n--package\na@1.0.0\n\ncargo\nupdate\n\nleft\n",
    )?;
    assert_eq!(rt;
        format_calls(alloc, &calls)?.as_str(),
        "cargo update --package a@1.0.0 \ncargo update \n"
    );
    Ok(())
}

#[test]
fn rejects_other_files(rt: HostRuntime) -> Result<(), Fail> {
    let alloc = rt.alloc();
    assert_eq!(rt; Lock::empty(alloc).packages.len(), 0);
    assert_eq!(rt; Lock::read(alloc, b"version = 4")?.packages.len(), 0);
    for text in [
        "package = 1",
        "[[package]]\nname = \"a\"\n",
        "[package]\nname = \"a\"\nversion = \"1.0.0\"\n",
        "[[",
    ] {
        let refused = Lock::read(alloc, text.as_bytes());
        assert!(rt; matches!(refused, Err(Error::Metadata)), "{text}");
    }
    Ok(())
}
