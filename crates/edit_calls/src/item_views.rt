//! Prints the item at a place of a document, or of a new entry.
use crate::arg_cursor::ArgCursor;
use crate::print_helpers::print_text;
use edit_document::{CargoResult, Document, Item, Step};

/// `true` or `false`.
fn bool_text(truth: bool) -> &'static str {
    if truth { "true" } else { "false" }
}

/// The item one step below.
fn item_one_step_below<'a>(item: Item<'a>, step: &Step) -> Option<Item<'a>> {
    match step {
        Step::Key(key) => item.get(key.as_str()),
        Step::Index(index) => item.at(*index),
    }
}

/// The item at a place below an item, reached step by step.
fn item_at_steps<'a>(root: Item<'a>, place: &[Step]) -> Option<Item<'a>> {
    let mut item = root;
    for step in place {
        item = item_one_step_below(item, step)?;
    }
    Some(item)
}

/// Prints the type of an item, the number of its members or elements, and the views that it has.
fn show_kind(rt: &HostRuntime, item: Item<'_>) {
    let array = item.as_array().map_or("-", |array| array.type_name());
    let truth = item.as_bool().map_or("-", bool_text);
    let name = item.type_name();
    let count = item.len();
    let text = bool_text(item.is_str());
    let table = bool_text(item.is_table_like());
    let inline = bool_text(item.is_inline_table());
    print_text(
        rt,
        format_args!("type {name}\nlen {count}\ntruth {truth}\narray {array}\n"),
    );
    print_text(
        rt,
        format_args!("is_str {text}\nis_table_like {table}\nis_inline_table {inline}\n"),
    );
}

/// Prints the keys of an item.
fn show_keys(rt: &HostRuntime, item: Item<'_>) {
    for key in item.keys() {
        print_text(rt, format_args!("key {key}\n"));
    }
}

/// Prints all that an item gives access to, its string last.
fn show_item(rt: &HostRuntime, item: Item<'_>) {
    show_kind(rt, item);
    show_keys(rt, item);
    if let Some(text) = item.as_str() {
        print_text(rt, format_args!("string {text}"));
    }
}

/// Prints the item at a place below an item; nothing where there is none.
fn show_below(rt: &HostRuntime, root: Item<'_>, place: &[Step]) {
    if let Some(item) = item_at_steps(root, place) {
        show_item(rt, item);
    }
}

/// Prints what a document reports of a place, and then the item there.
fn show_place(rt: &HostRuntime, document: &Document, place: &[Step]) {
    let item = document.item(place).map_or("-", |item| item.type_name());
    let one = bool_text(document.one_statement(place));
    print_text(rt, format_args!("item {item}\none_statement {one}\n"));
    if let Some(root) = document.item(&[]) {
        show_below(rt, root, place);
    }
}

/// Prints the item at a place of the entry in the arguments.
fn show_entry(rt: &HostRuntime, place: &[Step], args: &mut ArgCursor<'_>) -> CargoResult<()> {
    let item = args.take_item(rt.alloc())?;
    show_below(rt, item.view(), place);
    Ok(())
}

/// Prints how the entry in the arguments is written.
pub(crate) fn show_written(rt: &HostRuntime, args: &[String]) -> CargoResult<()> {
    let item = ArgCursor::new(args).take_item(rt.alloc())?;
    print_text(rt, item.text(rt.alloc())?);
    Ok(())
}

/// Prints the item at the place in the arguments, in the document or in the entry given after the place.
pub(crate) fn show_by_args(
    rt: &HostRuntime,
    document: &Document,
    args: &[String],
) -> CargoResult<()> {
    let mut taken = ArgCursor::new(args);
    let place = taken.take_place(rt.alloc())?;
    match args.last() {
        Some(last) if last.as_str() == "=" => {
            show_place(rt, document, &place);
            Ok(())
        }
        _ => show_entry(rt, &place, &mut taken),
    }
}
