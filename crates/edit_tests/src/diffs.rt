//! Tests of diffs of arbitrary texts. Those of edited manifests are in `tests/cases/upgrade/diffs.toml`.
use crate::assertion_helpers::{text, unwrap_ok};
use crate::rows::{TILDES, check_rows};
use edit_shown::diff::diff_text;
use std::alloc::Global;
use std::process::Abort;
use std::str;

/// What `diff -U3 --label a/f --label b/f` of GNU diffutils 3.8 gives, the old text and the new one: a last
/// line feed that comes, one that goes, a line more, two lines less, from nothing, to nothing, equal texts.
const ROWS: &str = "\
--- a/f\n+++ b/f\n@@ -1,2 +1,2 @@\n a\n-b\n\\ No newline at end of file\n+b\n|a\nb|a\nb\n~\
--- a/f\n+++ b/f\n@@ -1,2 +1,2 @@\n a\n-b\n+b\n\\ No newline at end of file\n|a\nb\n|a\nb~\
--- a/f\n+++ b/f\n@@ -2,3 +2,4 @@\n l2\n l3\n l4\n+l5\n|l1\nl2\nl3\nl4\n|l1\nl2\nl3\nl4\nl5\n~\
--- a/f\n+++ b/f\n@@ -2,5 +2,3 @@\n l2\n l3\n l4\n-l5\n-l6\n|\
l1\nl2\nl3\nl4\nl5\nl6\n|l1\nl2\nl3\nl4\n~\
--- a/f\n+++ b/f\n@@ -0,0 +1,2 @@\n+a\n+b\n||a\nb\n~\
--- a/f\n+++ b/f\n@@ -1 +0,0 @@\n-a\n|a\n|~\
|a\nb\n|a\nb\n";

/// The diff of two texts.
fn diff_of_texts(rt: &impl Abort, alloc: Global, old: &str, new: &str) -> String {
    let diff = unwrap_ok(rt, diff_text(alloc, "f", old.as_bytes(), new.as_bytes()));
    text(rt, alloc, str::from_utf8(&diff).expect(rt, "UTF-8"))
}

#[test]
fn shows_changes(rt: HostRuntime) {
    check_rows(&rt, rt.alloc(), ROWS, TILDES, diff_of_texts);
}
