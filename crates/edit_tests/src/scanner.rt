//! Tests of `edit_json::Scanner`, which reads index lines.
use crate::assertion_helpers::check_result;
use edit_json::{Scanner, SkippedValue};
use std::process::Abort;

/// A line as registries write it.
const LINE: &str =
    "{\"name\":\"a-name-of-more-than-16-bytes\",\"yanked\":true,\"rust_version\":null, \
\"deps\": [{\"req\":\"^1\",\"features\":[],\"optional\":false,\"target\":null},{}],\
\"features2\":{\"a\":[\"b\",\"c\"]},\"v\":2,\"rust_version\":\"1.70\"}";

/// The next key of an object; an empty text at its end.
fn key<'a>(rt: &impl Abort, scanner: &mut Scanner<'a>) -> &'a str {
    let key = scanner.next_key().expect(rt, "a key or a brace");
    std::str::from_utf8(key.unwrap_or(b"".as_slice())).unwrap_or("?")
}

#[test]
fn scans_a_line(rt: HostRuntime) {
    let mut scanner = Scanner::new(LINE);
    scanner.begin_object().expect(&rt, "a brace");
    check_result(&rt, "the first key", key(&rt, &mut scanner), "name");
    let name = scanner.read_text().expect(&rt, "a string");
    check_result(&rt, "a string", name, "a-name-of-more-than-16-bytes");
    check_result(&rt, "the second key", key(&rt, &mut scanner), "yanked");
    assert!(rt; scanner.read_bool().expect(&rt, "a boolean"));
    check_result(&rt, "the third key", key(&rt, &mut scanner), "rust_version");
    assert!(rt; scanner.read_optional_text().expect(&rt, "null").is_none());
    check_result(&rt, "a key after a blank", key(&rt, &mut scanner), "deps");
    scanner.skip_value(3).expect(&rt, "an array");
    check_result(
        &rt,
        "a key after an array",
        key(&rt, &mut scanner),
        "features2",
    );
    scanner.skip_value(2).expect(&rt, "an object");
    check_result(&rt, "a key after an object", key(&rt, &mut scanner), "v");
    scanner.skip_value(0).expect(&rt, "a number");
    check_result(&rt, "the last key", key(&rt, &mut scanner), "rust_version");
    let rust = scanner
        .read_optional_text()
        .expect(&rt, "a string")
        .unwrap_or("none");
    check_result(&rt, "a string at the end", rust, "1.70");
    assert!(rt; !scanner.is_at_end());
    check_result(&rt, "the end", key(&rt, &mut scanner), "");
    assert!(rt; scanner.is_at_end());
}

/// Whether a value is skipped that is nested at most so deep, with nothing after it.
fn skips(text: &str, depth: usize) -> bool {
    let mut scanner = Scanner::new(text);
    scanner.skip_value(depth).is_some() && scanner.is_at_end()
}

#[test]
fn skips_values_as_registries_write_them(rt: HostRuntime) {
    assert!(rt; skips("[[{}]]", 3));
    assert!(rt; skips("{\"a\":\"\",\"b\": 1}", 1));
    assert!(rt; !skips("[[{}]]", 2));
    assert!(rt; skips("[\"cfg(target_os = \\\"redox\\\")\",\"\\\\\"]", 1));
    assert!(rt; !skips("\"\\n\"", 1));
    assert!(rt; !skips("\"\\\"", 1));
    assert!(rt; !skips("\"\t\"", 1));
    assert!(rt; !skips("\"a", 1));
    assert!(rt; !skips("3", 1));
    assert!(rt; !skips("truest", 1));
    assert!(rt; !skips("[\"a\",]", 1));
    assert!(rt; !skips("[\"a\" \"b\"]", 1));
    assert!(rt; !skips("{\"a\"}", 1));
    assert!(rt; !skips("{\"a\":1}1", 1));
}

/// The text that is read after the value of a key, if the value is nested at most this deep.
fn behind_value<'a>(
    rt: &impl Abort,
    text: &'a str,
    depth: usize,
    known: &mut Option<SkippedValue<'a>>,
) -> &'a str {
    let mut scanner = Scanner::new(text);
    scanner.begin_object().expect(rt, "a brace");
    check_result(rt, "the key", key(rt, &mut scanner), "k");
    match scanner.skip_known_value(depth, known) {
        Some(()) => key(rt, &mut scanner),
        None => "no value",
    }
}

#[test]
fn skips_a_value_that_is_known(rt: HostRuntime) {
    let mut known = None;
    let rows = [
        ("a first value", "{\"k\":[[\"a\"]],\"b\":1}", 2, "b"),
        ("the same again", "{\"k\":[[\"a\"]],\"c\":1}", 2, "c"),
        ("one too deep", "{\"k\":[[\"a\"]],\"c\":1}", 1, "no value"),
        ("a longer one", "{\"k\":[[\"a\"],[]],\"d\":1}", 2, "d"),
        ("the front of that", "{\"k\":[[\"a\"]],\"e\":1}", 2, "e"),
        ("the last member", "{\"k\":[[\"a\"]]}", 2, ""),
        ("a member again", "{\"k\":[[\"a\"]],\"f\":1}", 2, "f"),
        ("a colon behind it", "{\"k\":[[\"a\"]]:1}", 2, "no value"),
    ];
    for (row, text, depth, want) in rows {
        check_result(&rt, row, behind_value(&rt, text, depth, &mut known), want);
    }
}
