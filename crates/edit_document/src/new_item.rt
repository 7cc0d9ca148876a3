//! New values and new entries, and how they are written.
ghost use Rattle.std.specs.Prelude.{◌≡◌, [], ◌++◌, false, IfOk, IfErr, OnOk, map, string_bytes};
ghost use Rattle.std.specs.List.{list_all};
ghost use Rattle.edit_base.specs.Errors.{IsMemory};
ghost use Rattle.edit_syntax.specs.Characters as characters;
ghost use Rattle.edit_syntax.specs.Grammar.{value as value_text};
ghost use Rattle.edit_syntax.specs.Strings.{key as key_text};
ghost use Rattle.edit_tree.specs.Assertions.{Place};
ghost use Rattle.edit_document.specs.ItemViews.{document_of, place_of};
ghost use Rattle.edit_tree.specs.IntendedTrees.{item_view};
ghost use Rattle.edit_tree.specs.DocumentViews.{tree_of};
ghost use Rattle.edit_tree.specs.NewItems.{a_list, new_value, new_key, new_pair, new_entry, new_table};
ghost use Rattle.edit_document.specs.NewItemViews.{new_value_view, new_pair_view, new_pair_views, new_item_view, item_text, is_dotted};

use crate::entry_part::EntryPart;
use crate::item::Item;
use crate::literal::push_literal;
use edit_base::errors::CargoResult;
use std::alloc::{AllocError, Global};

/// A new value: a string, a boolean or a list of strings.
#[derive(Debug, Drop)]
pub enum NewValue {
    Str(String),
    Bool(bool),
    Strings(Vec<String>),
}

/// A new entry: a value, or an inline table of values in the order in which they are written. A dotted entry
/// has the one member `workspace = true` and is written as `.workspace = true` behind its key.
#[derive(Debug, Drop)]
pub enum NewItem {
    Value(NewValue),
    Inline {
        members: Vec<(String, NewValue)>,
        dotted: bool,
    },
}

impl NewItem {
    /// The entry as an item, to be read before it is written; a dotted entry is a table.
    pub fn view(&self) -> Item<'_>
        ensures document { (q : Place) →
            tree_of (document_of result) q ≡ item_view false (new_item_view self.now) q }
        ensures place { place_of result ≡ [] }
    {
        Item::of_part(EntryPart::entry_root(self))
    }

    /// The entry written as a value: a literal, `{ k = v, k = v }`, or `{}` (TOML 1.0.0, "Keys" to "Inline
    /// Table").
    pub fn text(&self, alloc: Global) -> CargoResult<String>
        ensures text { IfOk result (λ s. string_bytes s ≡ item_text (new_item_view self.now)) }
        ensures error { IfErr result IsMemory }
    {
        let mut out = String::new(alloc);
        push_item(&mut out, self)?;
        Ok(out)
    }

    /// Whether the entry is written as a dotted key.
    fn is_dotted(&self) -> bool
        ensures { result ≡ is_dotted (new_item_view self.now) }
    {
        match self {
            NewItem::Value(_) => false,
            NewItem::Inline { dotted, .. } => *dotted,
        }
    }
}

/// Appends what follows the key of an entry: ` = ` and the entry as a value, or `.workspace = true`.
pub fn push_entry(out: &mut String, item: &NewItem) -> Result<(), AllocError>
    ensures { OnOk result (string_bytes out.new
        ≡ string_bytes out.old ++ new_entry (new_item_view item.now) []) }
{
    if item.is_dotted() {
        out.push_str(".workspace = true")
    } else {
        out.push_str(" = ")?;
        push_item(out, item)
    }
}

/// Appends an entry written as a value.
fn push_item(out: &mut String, item: &NewItem) -> Result<(), AllocError>
    ensures { OnOk result (string_bytes out.new
        ≡ string_bytes out.old ++ item_text (new_item_view item.now)) }
{
    match item {
        NewItem::Value(value) => push_value(out, value),
        NewItem::Inline { members, .. } => push_table(out, members.as_slice()),
    }
}

/// Appends a value as a literal.
pub fn push_value(out: &mut String, value: &NewValue) -> Result<(), AllocError>
    ensures { OnOk result (string_bytes out.new
        ≡ string_bytes out.old ++ value_text (new_value (new_value_view value.now)) []) }
{
    match value {
        NewValue::Str(text) => push_literal(out, text.as_str()),
        NewValue::Bool(truth) => out.push_str(if *truth { "true" } else { "false" }),
        NewValue::Strings(list) => push_list(out, list.as_slice()),
    }
}

/// Appends a list: `[`, its literals joined by `, `, and `]`.
fn push_list(out: &mut String, list: &[String]) -> Result<(), AllocError>
    ensures { OnOk result (string_bytes out.new
        ≡ string_bytes out.old ++ value_text (new_value (a_list (map string_bytes list.now))) []) }
{
    let [first, others @ ..] = list else {
        return out.push_str("[]");
    };
    out.push_str("[")?;
    push_literal(out, first.as_str())?;
    'others: for text in others {
        out.push_str(", ")?;
        push_literal(out, text.as_str())?;
    }
    out.push_str("]")
}

/// Appends an inline table: `{ k = v, k = v }`, or `{}` where it has no member.
fn push_table(out: &mut String, members: &[(String, NewValue)]) -> Result<(), AllocError>
    ensures { OnOk result (string_bytes out.new
        ≡ string_bytes out.old ++ value_text (new_table (new_pair_views members.now)) []) }
{
    let [first, others @ ..] = members else {
        return out.push_str("{}");
    };
    out.push_str("{ ")?;
    push_pair(out, first)?;
    'others: for member in others {
        out.push_str(", ")?;
        push_pair(out, member)?;
    }
    out.push_str(" }")
}

/// Appends a pair of an inline table: its key, ` = ` and its literal.
pub(crate) fn push_pair(out: &mut String, member: &(String, NewValue)) -> Result<(), AllocError>
    ensures { OnOk result (string_bytes out.new
        ≡ string_bytes out.old ++ new_pair (string_bytes member.now.0) (new_value_view member.now.1) []) }
{
    push_member(out, member.0.as_str(), &member.1)
}

/// Appends a pair: a key, ` = ` and a literal.
pub fn push_member(out: &mut String, name: &str, value: &NewValue) -> Result<(), AllocError>
    ensures { OnOk result (string_bytes out.new
        ≡ string_bytes out.old ++ new_pair name.now (new_value_view value.now) []) }
{
    push_key(out, name)?;
    out.push_str(" = ")?;
    push_value(out, value)
}

/// Appends a key: bare where it can be, else as a basic string.
pub(crate) fn push_key(out: &mut String, name: &str) -> Result<(), AllocError>
    ensures { OnOk result (string_bytes out.new ≡ string_bytes out.old ++ key_text (new_key name.now) []) }
{
    if name.is_empty() || !is_bare(name) {
        push_literal(out, name)
    } else {
        out.push_str(name)
    }
}

/// Whether each byte of a name may be part of a bare key.
fn is_bare(name: &str) -> bool
    ensures { result ≡ list_all characters.is_bare name.now }
{
    name.as_bytes().iter().all(|byte| is_bare_byte(*byte))
}

/// Whether a byte may be part of a bare key.
fn is_bare_byte(b: u8) -> bool
    ensures { result ≡ characters.is_bare b }
{
    (b >= b'A' && b <= b'Z')
        || (b >= b'a' && b <= b'z')
        || (b >= b'0' && b <= b'9')
        || b == b'_'
        || b == b'-'
}
