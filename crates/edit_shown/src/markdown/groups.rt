//! Lines with the same cells as one row of a table.
ghost use Rattle.std.specs.Prelude.{◌≡◌, ◌++◌, [], ℕ, List, None, IfOk, OnOk, codes, map, string_bytes};
ghost use Rattle.std.specs.BTreeMap.{get_by_text};
ghost use Rattle.std.specs.List.{join_by};
ghost use Rattle.std.specs.Map.{update};
ghost use Rattle.std.specs.Option.{option_map_or};
ghost use Rattle.std.specs.Str.{bytes_eq};
ghost use Rattle.edit_shown.specs.Markdown as spec;

use crate::markdown::cells::cell_text;
use crate::markdown::lines::MarkdownLine;
use edit_metadata::Input;
use std::alloc::{AllocError, Global};
use std::collections::BTreeMap;

/// The inputs of the lines by their cells, in order.
pub(crate) fn group_inputs(
    alloc: Global,
    lines: &[MarkdownLine],
) -> Result<BTreeMap<String, Vec<usize>>, AllocError>
    ensures { IfOk result (λ m. (cells : List ℕ) → option_map_or (λ g. g.items) (get_by_text m cells) []
        ≡ spec.inputs_of (map spec.line_view lines.now) cells) }
{
    let mut groups: BTreeMap<String, Vec<usize>> = BTreeMap::new(alloc);
    for line in lines {
        let group = groups.entry(line.cells.clone()?)?.or_default();
        group.push(line.input)?;
    }
    Ok(groups)
}

/// The name of the input at this index; empty where there is none.
fn member_cell(alloc: Global, inputs: &[Input], i: usize) -> Result<String, AllocError>
    ensures { IfOk result (λ s. string_bytes s ≡ spec.member_cell inputs.now i) }
{
    match inputs.get(i) {
        Some(input) => cell_text(alloc, input.name.as_str()),
        None => Ok(String::new(alloc)),
    }
}

/// The names of inputs, joined.
fn joined_names(alloc: Global, inputs: &[Input], members: &[usize]) -> Result<String, AllocError>
    ensures { IfOk result (λ s. string_bytes s
        ≡ join_by (spec.member_cell inputs.now) (codes ", ") members.now) }
{
    let mut names = Vec::new(alloc);
    for member in members {
        names.push(member_cell(alloc, inputs, *member)?)?;
    }
    names.as_slice().join(alloc, ", ")
}

/// The names of inputs, one that follows itself once.
fn members_cell(
    alloc: Global,
    inputs: &[Input],
    mut members: Vec<usize>,
) -> Result<String, AllocError>
    ensures { IfOk result (λ s. string_bytes s ≡ spec.members_cell inputs.now members.items) }
{
    members.dedup();
    joined_names(alloc, inputs, members.as_slice())
}

/// Appends a row of the table: its cells, and the names of its inputs.
fn push_group(
    alloc: Global,
    cells: &str,
    members: Vec<usize>,
    inputs: &[Input],
    text: &mut String,
) -> Result<(), AllocError>
    ensures { OnOk result (string_bytes text.new
        ≡ string_bytes text.old ++ spec.table_row inputs.now cells.now members.items) }
{
    let names = members_cell(alloc, inputs, members)?;
    let row = format!(in alloc; "{cells}{names} |\n")?;
    text.push_str(row.as_str())
}

/// Appends the row of these cells and removes their inputs; nothing where they were removed before.
fn push_first(
    alloc: Global,
    cells: &str,
    groups: &mut BTreeMap<String, Vec<usize>>,
    inputs: &[Input],
    text: &mut String,
) -> Result<(), AllocError>
    ensures removed { (q : List ℕ) → get_by_text groups.new q
        ≡ update bytes_eq (get_by_text groups.old) cells.now None q }
    ensures text { OnOk result (string_bytes text.new ≡ string_bytes text.old
        ++ option_map_or (λ members. spec.table_row inputs.now cells.now members.items)
        (get_by_text groups.old cells.now) []) }
{
    match groups.remove(cells) {
        Some(members) => push_group(alloc, cells, members, inputs, text),
        None => Ok(()),
    }
}

/// Appends the rows of the table, in the order in which their cells first occur. The map has the inputs of
/// these lines by their cells.
pub(crate) fn push_groups(
    alloc: Global,
    lines: &[MarkdownLine],
    mut groups: BTreeMap<String, Vec<usize>>,
    inputs: &[Input],
    text: &mut String,
) -> Result<(), AllocError>
    requires { (cells : List ℕ) → option_map_or (λ g. g.items) (get_by_text groups cells) []
        ≡ spec.inputs_of (map spec.line_view lines.now) cells }
    ensures { OnOk result (string_bytes text.new
        ≡ string_bytes text.old ++ spec.table_rows inputs.now (map spec.line_view lines.now)) }
{
    for line in lines {
        push_first(alloc, line.cells.as_str(), &mut groups, inputs, text)?;
    }
    Ok(())
}
