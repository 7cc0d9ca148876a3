//! Tests of lookups, their files in the cache, and texts of messages.
use edit_lookups::{
    Lookup, cached_body, cached_etag, cached_path, cached_text, push_escaped, read_lookups,
    strip_userinfo,
};
use std::test::Fail;

#[test]
fn etag_and_body(rt: HostRuntime) -> Result<(), Fail> {
    let text = cached_text(rt.alloc(), "W/\"x y\"", b"abc\n")?;
    assert_eq!(rt; text.as_slice(), b"ETag: W/\"x y\"\nabc\n".as_slice());
    assert_eq!(rt; cached_etag(&text), Some("W/\"x y\""));
    assert_eq!(rt; cached_body(&text), b"abc\n".as_slice());
    let moved = cached_text(rt.alloc(), "", b"abc\n")?;
    assert_eq!(rt; cached_etag(&moved), None);
    assert_eq!(rt; cached_body(&moved), b"abc\n".as_slice());
    // a file of an older version of this program
    assert_eq!(rt; cached_etag(b"abc\n"), None);
    assert_eq!(rt; cached_body(b"abc\n"), b"abc\n".as_slice());
    Ok(())
}

#[test]
fn two_lookups(rt: HostRuntime) -> Result<(), Fail> {
    let text = "sparse+https://index.example/\tserde\tse/rd/serde\nfile:///idx\tAbc\t3/a/abc\n";
    let lookups = read_lookups(rt.alloc(), text)?.ok_or("no lookups")?;
    assert_eq!(rt; lookups.len(), 2);
    assert_eq!(rt; lookups[0].address, "sparse+https://index.example/");
    assert_eq!(rt; lookups[0].name, "serde");
    assert_eq!(rt; lookups[1].path, "3/a/abc");
    assert!(rt; read_lookups(rt.alloc(), "a\tb\n")?.is_none());
    assert!(rt; read_lookups(rt.alloc(), "a\tb\tc\td\n")?.is_none());
    assert!(rt; read_lookups(rt.alloc(), "a\tb\tc")?.is_none());
    Ok(())
}

#[test]
fn paths_in_cache(rt: HostRuntime) -> Result<(), Fail> {
    let lookup = Lookup {
        address: "sparse+https://user:pw@host.example/a%20b/",
        name: "serde",
        path: "se/rd/serde",
    };
    let entry = cached_path(rt.alloc(), "/cache", &lookup)?;
    assert_eq!(rt;
        entry.as_str(),
        "/cache/sparse+https:%2F%2Fhost.example%2Fa%2520b%2F/se/rd/serde"
    );
    Ok(())
}

#[test]
fn without_userinfo(rt: HostRuntime) -> Result<(), Fail> {
    let shown = strip_userinfo(rt.alloc(), "sparse+https://user:p@ss@host.example/a@b")?;
    assert_eq!(rt; shown.as_str(), "sparse+https://host.example/a@b");
    let shown = strip_userinfo(rt.alloc(), "https://host.example?q=a@b")?;
    assert_eq!(rt; shown.as_str(), "https://host.example?q=a@b");
    Ok(())
}

#[test]
fn control_characters(rt: HostRuntime) -> Result<(), Fail> {
    let mut text = String::from_str(rt.alloc(), "<")?;
    push_escaped(&mut text, "a\u{1b}[1m\u{85}\u{e9}")?;
    assert_eq!(rt; text.as_str(), "<a\\u{1b}[1m\\u{85}\u{e9}");
    Ok(())
}
