//! Tests of names that an error suggests.
use edit_diagnostics::nearest_name;

#[test]
fn finds_the_name_that_was_meant(rt: HostRuntime) {
    let alloc = rt.alloc();
    let names = ["serde", "serde_json", "syn"];
    assert!(rt; nearest_name(alloc, "serd", &names) == Some("serde"));
    assert!(rt; nearest_name(alloc, "serde_jsno", &names) == Some("serde_json"));
    assert!(rt; nearest_name(alloc, "tokio", &names).is_none());
    assert!(rt; nearest_name(alloc, "", &["a"]).is_none());
}
