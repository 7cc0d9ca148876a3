//! Builds the nodes of a text from its tokens.
ghost use Rattle.std.specs.Prelude.{◌≡◌, ◌∷◌, [], ℕ, List, IfOk, IfErr, MatchResult, length, Some, None};
ghost use Rattle.edit_base.specs.Errors.{IsMemory};
ghost use Rattle.edit_tree.specs.Nodes.{bytes_of, shape_of};
ghost use Rattle.edit_tree.specs.Walk.{State, with_key_part, is_dotted_within, pending_defined, value_added_at, value_added, value_opened, value_closed, table_opened, array_table_opened, start, step, state_after};
ghost use Rattle.edit_tree.specs.WalkState.{Walks, HasNextState, HasDefinedState, IsToken, KeepsState};
ghost use Rattle.edit_syntax.specs.SyntaxTokens.{IsTokenizeError};
ghost use Rattle.std.specs.List.{AllByRecursion};

use crate::assertions::{Definition, add_element, assert_member, follow_fronts};
use crate::members::Members;
use crate::nodes::{Content, DecodedText, DefinedBy, Node};
use crate::token_content::{decode_token, scalar_content};
use edit_base::errors::{CargoResult, Error};
use edit_syntax::Span;
use edit_syntax::read::{SyntaxToken, TokenKind};
use std::alloc::{AllocError, Global};

/// The state of the walk over the tokens: the nodes so far, the indices of the open tables and arrays (the
/// innermost last), and the pending key, split into its last part and the parts before it.
#[derive(Drop)]
pub(crate) struct Walk {
    pub(crate) nodes: Vec<Node>,
    pub(crate) tables: Vec<usize>,
    fronts: Vec<DecodedText>,
    name: Option<DecodedText>,
}

impl Walk {
    /// The state with the root alone, with room for `count` nodes.
    fn new(alloc: Global, count: usize) -> Result<Walk, AllocError>
        ensures root { IfOk result (λ w. (text : List ℕ) → Walks text w start) }
    {
        let mut nodes = Vec::with_capacity(alloc, count)?;
        nodes.push(Node {
            content: Content::Table,
            taken: DefinedBy::Header,
            steps: 0,
            span: None,
            members: Members::none(),
        })?;
        let mut tables = Vec::new(alloc);
        tables.push(0)?;
        Ok(Walk {
            nodes,
            tables,
            fronts: Vec::new(alloc),
            name: None,
        })
    }

    /// Returns the nodes and drops the rest of the state.
    fn into_nodes(self) -> Vec<Node>
        ensures { result ≡ self.nodes }
    {
        let Walk {
            nodes,
            tables: _,
            fronts: _,
            name: _,
        } = self;
        nodes
    }

    /// Appends a part to the pending key.
    fn push_key_part(&mut self, name: DecodedText) -> Result<(), AllocError>
        ensures goes { IfOk result (λ _. (text : List ℕ) (st : State) → Walks text self.old st
            → Walks text self.new (with_key_part st (bytes_of text name))) }
    {
        if let Some(front) = self.name.take() {
            self.fronts.push(front)?;
        }
        self.name = Some(name);
        Ok(())
    }

    /// Whether a dotted key belongs to an inline table.
    fn is_dotted_inline(&self, front: DefinedBy) -> bool
        ensures { result ≡ is_dotted_within (length self.now.tables.items) front }
    {
        match front {
            DefinedBy::Dotted => self.tables.len() > 1,
            _ => false,
        }
    }

    /// Defines the table or value that the pending key names below a table. Returns the index of its node.
    pub(crate) fn define_pending(
        &mut self,
        alloc: Global,
        text: &str,
        number: usize,
        front: DefinedBy,
        content: Content,
        taken: DefinedBy,
        span: Option<Span>,
    ) -> Result<Option<usize>, AllocError>
        ensures goes { (st : State) → Walks text.now self.old st
            → IfOk result (HasDefinedState text.now self.new (pending_defined st number front
            (shape_of text.now content) taken span)) }
    {
        let Some(name) = self.name.take() else {
            return Ok(None);
        };
        let is_inline = self.is_dotted_inline(front);
        let Some(table) = follow_fronts(
            alloc,
            text,
            &mut self.nodes,
            number,
            &self.fronts,
            is_inline,
            front,
        )?
        else {
            return Ok(None);
        };
        self.fronts.clear();
        let definition = Definition {
            content,
            taken,
            span,
        };
        assert_member(alloc, text, &mut self.nodes, table, name, definition)
    }

    /// Adds a value to the innermost open table or array. Returns the index of its node.
    fn add_value_at(
        &mut self,
        alloc: Global,
        text: &str,
        content: Content,
        span: Option<Span>,
    ) -> Result<Option<usize>, AllocError>
        ensures goes { (st : State) → Walks text.now self.old st
            → IfOk result (HasDefinedState text.now self.new (value_added_at st
            (shape_of text.now content) span)) }
    {
        let Some(number) = self.tables.last().copied() else {
            return Ok(None);
        };
        match &self.name {
            Some(_) => self.define_pending(
                alloc,
                text,
                number,
                DefinedBy::Dotted,
                content,
                DefinedBy::Value,
                span,
            ),
            None => add_element(
                alloc,
                &mut self.nodes,
                number,
                content,
                DefinedBy::Value,
                span,
            ),
        }
    }

    /// Adds a value to the innermost open table or array; returns false where TOML does not allow it.
    fn add_value(
        &mut self,
        alloc: Global,
        text: &str,
        content: Content,
        span: Option<Span>,
    ) -> CargoResult<bool>
        ensures goes { (st : State) → Walks text.now self.old st
            → IfOk result (HasNextState text.now self.new (value_added st (shape_of text.now content) span)) }
        ensures error { IfErr result IsMemory }
    {
        Ok(self.add_value_at(alloc, text, content, span)?.is_some())
    }

    /// Opens an array or an inline table.
    fn open(&mut self, alloc: Global, text: &str, content: Content, span: Span) -> CargoResult<bool>
        ensures goes { (st : State) → Walks text.now self.old st
            → IfOk result (HasNextState text.now self.new (value_opened st (shape_of text.now content)
            (Some span))) }
        ensures error { IfErr result IsMemory }
    {
        let Some(number) = self.add_value_at(alloc, text, content, Some(span))? else {
            return Ok(false);
        };
        self.tables.push(number)?;
        Ok(true)
    }

    /// Closes the innermost array or inline table, whose text ends `to` bytes before the end of the text.
    fn close(&mut self, to: u32) -> bool
        ensures { (text : List ℕ) (st : State) → Walks text self.old st
            → HasNextState text self.new (value_closed st to) result }
    {
        let Some(number) = self.tables.pop() else {
            return false;
        };
        if number >= self.nodes.len() {
            return false;
        }
        let node = &mut self.nodes[number];
        let Some(span) = node.span else {
            return false;
        };
        node.span = Some(Span {
            from: span.from,
            to,
        });
        true
    }

    /// Processes the next token; returns false where TOML does not allow it here.
    fn process_token(&mut self, alloc: Global, text: &str, token: SyntaxToken) -> CargoResult<bool>
        ensures goes { (st : State) → Walks text.now self.old st → IsToken text.now token
            → IfOk result (HasNextState text.now self.new (step text.now token st)) }
        ensures error { IfErr result IsMemory }
    {
        let span = Span {
            from: token.from,
            to: token.to,
        };
        match token.kind {
            TokenKind::BarePart | TokenKind::BasicPart | TokenKind::LiteralPart => {
                let name = decode_token(alloc, text, token)?;
                self.push_key_part(name)?;
                Ok(true)
            }
            TokenKind::BasicString
            | TokenKind::LiteralString
            | TokenKind::MultiBasicString
            | TokenKind::MultiLiteralString
            | TokenKind::Integer
            | TokenKind::Float
            | TokenKind::DateTime => {
                let content = scalar_content(alloc, text, token)?;
                self.add_value(alloc, text, content, Some(span))
            }
            TokenKind::True => self.add_value(alloc, text, Content::Truth(true), Some(span)),
            TokenKind::False => self.add_value(alloc, text, Content::Truth(false), Some(span)),
            TokenKind::OpenArray => self.open(alloc, text, Content::Array, span),
            TokenKind::OpenTable => self.open(alloc, text, Content::Inline, span),
            TokenKind::CloseArray | TokenKind::CloseTable => Ok(self.close(token.to)),
            TokenKind::Header => self.open_header_table(alloc, text),
            TokenKind::ElementHeader => self.open_array_table(alloc, text),
        }
    }
}

/// Builds the nodes of a text from its tokens.
pub fn nodes_of(alloc: Global, text: &str, tokens: &[SyntaxToken]) -> CargoResult<Vec<Node>>
    ensures nodes { AllByRecursion (IsToken text.now) tokens.now
        → MatchResult result (λ v. KeepsState text.now v.items (state_after text.now tokens.now start))
        (λ e. (IsMemory e → ⊥) → state_after text.now tokens.now start ≡ None) }
    ensures error { IfErr result (IsTokenizeError (length text.now)) }
{
    let mut walk = Walk::new(alloc, tokens.len())?;
    'tokens: for token in tokens {
        if !walk.process_token(alloc, text, *token)? {
            return Err(Error::NotToml {
                at: text.len().saturating_sub(token.from as usize),
            });
        }
    }
    Ok(walk.into_nodes())
}
