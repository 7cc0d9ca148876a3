//! Adds the nodes that the statements of a document define, and checks that no key is defined twice (TOML
//! 1.0.0, "Table" and "Keys").
ghost use Rattle.std.specs.Prelude.{◌≡◌, ℕ, List, IfOk, None, map, nat_le};
ghost use Rattle.edit_tree.specs.Nodes.{ModelNode, RepresentsNodes, bytes_of, elements_of, shape_of};
ghost use Rattle.edit_tree.specs.Redefinition as taking;
ghost use Rattle.edit_tree.specs.declared.nodes.DefinedBy.TheVariants.{Super};
ghost use Rattle.edit_tree.specs.Walk.{child, last_table, target_of, node_extended, member_added, element_added, member_defined, front_shape, fronts_followed};
ghost use Rattle.edit_tree.specs.WalkState.{HasNodes, HasNodeAt};

use crate::members::Members;
use crate::nodes::{Content, DecodedText, DefinedBy, Node, clone_decoded, decoded_str};
use edit_syntax::Span;
use std::alloc::{AllocError, Global};

/// How a key or a table is defined.
#[derive(Drop)]
pub(crate) struct Definition {
    pub(crate) content: Content,
    pub(crate) taken: DefinedBy,
    /// The span of the value in the text, where it has one.
    pub(crate) span: Option<Span>,
}

/// Whether a table or key already defined in the way `before` may be extended in the way `after`.
fn can_extend(before: DefinedBy, after: DefinedBy) -> bool
    ensures { result ≡ taking.can_extend before after }
{
    match before {
        DefinedBy::Dotted => matches!(after, DefinedBy::Dotted | DefinedBy::Super),
        DefinedBy::Value => false,
        DefinedBy::Super => {
            matches!(
                after,
                DefinedBy::Dotted | DefinedBy::Super | DefinedBy::Header | DefinedBy::Element
            )
        }
        DefinedBy::Header => matches!(after, DefinedBy::Super),
        DefinedBy::Array => matches!(after, DefinedBy::Array),
        DefinedBy::Element => matches!(after, DefinedBy::Super),
    }
}

/// How a node counts as defined after it was defined in the way `before` and then extended in the way
/// `after`.
fn merged_definition(before: DefinedBy, after: DefinedBy) -> DefinedBy
    ensures { result ≡ taking.merged_definition before after }
{
    match before {
        DefinedBy::Super => after,
        _ => before,
    }
}

/// Extends a node that is already defined. Returns false where TOML does not allow it.
fn extend_node(nodes: &mut Vec<Node>, number: usize, taken: DefinedBy) -> bool
    ensures { (text : List ℕ) (models : List ModelNode) → RepresentsNodes text nodes.old.items models
        → HasNodes text nodes.new.items (node_extended models number taken) result }
{
    if number >= nodes.len() {
        return false;
    }
    let before = nodes[number].taken;
    if !can_extend(before, taken) {
        return false;
    }
    let node = &mut nodes[number];
    node.taken = merged_definition(before, taken);
    true
}

/// The index of the node's member of this name.
fn find(text: &str, nodes: &[Node], number: usize, name: &str) -> Option<usize>
    ensures { (models : List ModelNode) → RepresentsNodes text.now nodes.now models
        → result ≡ child models number name.now }
{
    if number >= nodes.len() {
        return None;
    }
    let node = &nodes[number];
    node.members.get(text, name)
}

/// The index of the last table of an array of tables.
fn last_table(node: &Node) -> Option<usize>
    ensures { (text : List ℕ) → result
        ≡ last_table (shape_of text node.now.content) (elements_of node.now.members) }
{
    match &node.content {
        Content::Tables => node.members.elements().last().copied(),
        Content::Text(_)
        | Content::Truth(_)
        | Content::Integer(_)
        | Content::Float(_)
        | Content::DateTime(_)
        | Content::Array
        | Content::Inline
        | Content::Table => None,
    }
}

/// The index of the last element where the node is an array of tables, else `number`.
fn last_element(nodes: &[Node], number: usize) -> usize
    ensures { (text : List ℕ) (models : List ModelNode) → RepresentsNodes text nodes.now models
        → result ≡ target_of models number Super }
{
    if number >= nodes.len() {
        return number;
    }
    last_table(&nodes[number]).unwrap_or(number)
}

/// The node to extend: a header that passes through an array of tables refers to its last element.
fn target(nodes: &[Node], number: usize, taken: DefinedBy) -> usize
    ensures { (text : List ℕ) (models : List ModelNode) → RepresentsNodes text nodes.now models
        → result ≡ target_of models number taken }
{
    match taken {
        DefinedBy::Super => last_element(nodes, number),
        _ => number,
    }
}

/// Whether a node is 80 steps below the root, the limit of a place, so that nothing may be added below it.
fn is_deepest(node: &Node) -> bool
    ensures { result ≡ nat_le 80 node.now.steps }
{
    node.steps >= 80
}

/// Appends a new member to a node that has none of this name. Returns the index of the new node, or `None`
/// where it would lie more than 80 steps below the root.
fn add(
    alloc: Global,
    text: &str,
    nodes: &mut Vec<Node>,
    number: usize,
    name: DecodedText,
    definition: Definition,
) -> Result<Option<usize>, AllocError>
    ensures added { (models : List ModelNode) → RepresentsNodes text.now nodes.old.items models
        → child models number (bytes_of text.now name) ≡ None
        → IfOk result (HasNodeAt text.now nodes.new.items
        (member_added models number (bytes_of text.now name) (shape_of text.now definition.content)
        definition.taken definition.span)) }
{
    let count = nodes.len();
    if number >= count {
        return Ok(None);
    }
    let node = &mut nodes[number];
    if is_deepest(node) {
        return Ok(None);
    }
    let steps = node.steps + 1;
    node.members.insert(alloc, text, name, count)?;
    nodes.push(Node {
        content: definition.content,
        taken: definition.taken,
        steps,
        span: definition.span,
        members: Members::none(),
    })?;
    Ok(Some(count))
}

/// Appends an element to an array. Returns the index of its node, or `None` where it would lie more than 80
/// steps below the root.
pub(crate) fn add_element(
    alloc: Global,
    nodes: &mut Vec<Node>,
    number: usize,
    content: Content,
    taken: DefinedBy,
    span: Option<Span>,
) -> Result<Option<usize>, AllocError>
    ensures added { (text : List ℕ) (models : List ModelNode) → RepresentsNodes text nodes.old.items models
        → IfOk result (HasNodeAt text nodes.new.items
        (element_added models number (shape_of text content) taken span)) }
{
    let count = nodes.len();
    if number >= count {
        return Ok(None);
    }
    let node = &mut nodes[number];
    if is_deepest(node) {
        return Ok(None);
    }
    let steps = node.steps + 1;
    node.members.push_element(alloc, count)?;
    nodes.push(Node {
        content,
        taken,
        steps,
        span,
        members: Members::none(),
    })?;
    Ok(Some(count))
}

/// Defines a member of the node at `number`: extends the member of this name, or adds a new one. Returns the
/// index of the defined node, or `None` where TOML does not allow it.
pub(crate) fn assert_member(
    alloc: Global,
    text: &str,
    nodes: &mut Vec<Node>,
    number: usize,
    name: DecodedText,
    definition: Definition,
) -> Result<Option<usize>, AllocError>
    ensures made { (models : List ModelNode) → RepresentsNodes text.now nodes.old.items models
        → IfOk result (HasNodeAt text.now nodes.new.items
        (member_defined models number (bytes_of text.now name) (shape_of text.now definition.content)
        definition.taken definition.span)) }
{
    let Some(member) = find(text, nodes, number, decoded_str(text, &name)) else {
        return add(alloc, text, nodes, number, name, definition);
    };
    let place = target(nodes, member, definition.taken);
    if !extend_node(nodes, place, definition.taken) {
        return Ok(None);
    }
    Ok(Some(place))
}

/// Follows all parts of a key but its last from the table at `number`, defining each on the way. Returns the
/// index of the table that the last part belongs to.
pub(crate) fn follow_fronts(
    alloc: Global,
    text: &str,
    nodes: &mut Vec<Node>,
    number: usize,
    fronts: &[DecodedText],
    is_inline: bool,
    taken: DefinedBy,
) -> Result<Option<usize>, AllocError>
    ensures made { (models : List ModelNode) → RepresentsNodes text.now nodes.old.items models
        → IfOk result (HasNodeAt text.now nodes.new.items
        (fronts_followed models number (map (bytes_of text.now) fronts.now) (front_shape is_inline) taken)) }
{
    let mut table = number;
    'fronts: for front in fronts {
        let name = clone_decoded(alloc, front)?;
        let content = front_content(is_inline);
        let definition = Definition {
            content,
            taken,
            span: None,
        };
        match assert_member(alloc, text, nodes, table, name, definition)? {
            Some(next) => table = next,
            None => return Ok(None),
        }
    }
    Ok(Some(table))
}

/// The content of a table that is made by a part of a dotted key.
fn front_content(is_inline: bool) -> Content
    ensures { (text : List ℕ) → shape_of text result ≡ front_shape is_inline }
{
    if is_inline {
        Content::Inline
    } else {
        Content::Table
    }
}
