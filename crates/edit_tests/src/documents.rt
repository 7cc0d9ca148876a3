//! Tests of what `Debug` prints of documents and of views of their items: what Rust's derive prints of
//! structs and enums with these names and fields. A document is printed as a struct with one field, its text,
//! that has no name.
use crate::assertion_helpers::{push, text, unwrap_alloc, unwrap_ok};
use crate::rows::{LINES, check_rows};
use edit_document::{Document, Item, NewItem, NewValue};
use std::alloc::Global;
use std::fmt::Debug;
use std::process::Abort;

/// The text of a document.
const TEXT: &str = "a = [\"é\\t\"]\n";

/// The `Debug` text of the document.
const DOCUMENT: &str = r#"Document("a = [\"é\\t\"]\n")"#;

/// The `Debug` texts of new entries: of a list, and of a table.
const LIST: &str = r#"Value(Strings(["\"", ""]))"#;

const TABLE: &str =
    r#"Inline { members: [("o", Bool(true)), ("f", Strings(["s"]))], dotted: false }"#;

/// What is printed, with `@` in the place of the document or of the new entry; of which view; and the steps
/// to an item, or how many keys were taken before.
const PRINTED: &str = r#"@|document|
Item { source: Node(NodeRef { document: @, number: 0 }) }|item|
Item { source: Node(NodeRef { document: @, number: 1 }) }|item|a
Item { source: Node(NodeRef { document: @, number: 2 }) }|item|a 0
Keys { item: Item { source: Node(NodeRef { document: @, number: 0 }) }, next: 0 }|keys|0
Keys { item: Item { source: Node(NodeRef { document: @, number: 0 }) }, next: 1 }|keys|1
Item { source: Part(EntryPart { item: @, part: Whole }) }|list|
Item { source: Part(EntryPart { item: @, part: Element(Strings(["\"", ""]), 1) }) }|list|1
Item { source: Part(EntryPart { item: @, part: Whole }) }|table|
Item { source: Part(EntryPart { item: @, part: Member(("o", Bool(true))) }) }|table|o
Item { source: Part(EntryPart { item: @, part: MemberElement(("f", Strings(["s"])), 0) }) }|table|f 0"#;

/// The `Debug` text of a value, with `@` for a text in it.
fn debug_text<D: Debug>(rt: &impl Abort, alloc: Global, value: &D, part: &str) -> String {
    let all = unwrap_alloc(rt, format!(in alloc; "{value:?}"));
    unwrap_alloc(rt, all.replace(alloc, part, "@"))
}

/// The item one step below an item: an element by its index, or a member by its key.
fn child_item<'a>(rt: &impl Abort, item: Item<'a>, step: &str) -> Item<'a> {
    let found = match step.parse() {
        Ok(number) => item.at(number),
        Err(_) => item.get(step),
    };
    found.expect(rt, "an item")
}

/// The `Debug` text of the item that these steps lead to.
fn debug_text_at(
    rt: &impl Abort,
    alloc: Global,
    root: Item<'_>,
    steps: &str,
    part: &str,
) -> String {
    let mut item = root;
    'steps: for step in steps.split_whitespace() {
        item = child_item(rt, item, step);
    }
    debug_text(rt, alloc, &item, part)
}

/// The `Debug` text of the keys of an item, after some of them are taken.
fn keys(rt: &impl Abort, alloc: Global, item: Item<'_>, taken: &str) -> String {
    let mut keys = item.keys();
    if taken == "1" {
        let _ = keys.next();
    }
    debug_text(rt, alloc, &keys, DOCUMENT)
}

/// A list of texts.
fn list(rt: &impl Abort, alloc: Global, texts: &[&str]) -> NewValue {
    let mut list = Vec::new(alloc);
    'texts: for item in texts {
        push(rt, &mut list, text(rt, alloc, item));
    }
    NewValue::Strings(list)
}

/// A table with a boolean and a list.
fn table(rt: &impl Abort, alloc: Global) -> NewItem {
    let mut members = Vec::new(alloc);
    push(
        rt,
        &mut members,
        (text(rt, alloc, "o"), NewValue::Bool(true)),
    );
    let texts = list(rt, alloc, &["s"]);
    push(rt, &mut members, (text(rt, alloc, "f"), texts));
    NewItem::Inline {
        members,
        dotted: false,
    }
}

/// The `Debug` text of a view of a document.
fn of_document(rt: &impl Abort, alloc: Global, view: &str, rest: &str) -> String {
    let document = unwrap_ok(rt, Document::read(alloc, TEXT));
    let root = document.item(&[]).expect(rt, "the root");
    match view {
        "document" => debug_text(rt, alloc, &document, DOCUMENT),
        "keys" => keys(rt, alloc, root, rest),
        _ => debug_text_at(rt, alloc, root, rest, DOCUMENT),
    }
}

/// The `Debug` text of a view of a document or of a new entry.
fn view_text(rt: &impl Abort, alloc: Global, view: &str, rest: &str) -> String {
    match view {
        "list" => {
            let entry = NewItem::Value(list(rt, alloc, &["\"", ""]));
            debug_text_at(rt, alloc, entry.view(), rest, LIST)
        }
        "table" => debug_text_at(rt, alloc, table(rt, alloc).view(), rest, TABLE),
        _ => of_document(rt, alloc, view, rest),
    }
}

#[test]
fn printed_as_derived(rt: HostRuntime) {
    check_rows(&rt, rt.alloc(), PRINTED, LINES, view_text);
}
