//! Prints the views of a document.
use crate::print_helpers::print_text;
use edit_document::{CargoResult, Document, Item};

/// Prints the key and the kind of each member of a table.
fn show_members(rt: &HostRuntime, table: Item<'_>) {
    for key in table.keys() {
        if let Some(item) = table.get(key) {
            print_text(rt, format_args!("{key}: {}\n", item.type_name()));
        }
    }
}

/// Prints the members of the root, and then those of each table among them.
pub(crate) fn show_views(rt: &HostRuntime, document: &Document) {
    let Some(root) = document.item(&[]) else {
        return;
    };
    show_members(rt, root);
    for key in root.keys() {
        if let Some(item) = root.get(key) {
            show_members(rt, item);
        }
    }
}

/// Prints the number of pieces of a document's text, the text, and each piece, also one past the last if
/// there is one: each after a byte 0, which no document contains.
pub(crate) fn show_pieces(rt: &HostRuntime, document: &Document) -> CargoResult<()> {
    let text = document.text(rt.alloc())?;
    let count = document.pieces();
    print_text(rt, format_args!("\0{count}\0{text}"));
    for number in 0..=count {
        if let Some(piece) = document.piece(number) {
            print_text(rt, format_args!("\0{piece}"));
        }
    }
    Ok(())
}
