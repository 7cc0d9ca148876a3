//! Finds out whether exactly one statement names a place.
ghost use Rattle.std.specs.Prelude.{◌≡◌, ◌<◌, ℕ, List, true, false, length};
ghost use Rattle.edit_syntax.specs.Grammar.{Text};
ghost use Rattle.edit_tree.specs.Assertions.{IsDocument, Place, at, key as key_step};
ghost use Rattle.edit_tree.specs.EditBytes.{is_one_statement};
ghost use Rattle.edit_document.specs.Forms.{IfDocument};
ghost use Rattle.edit_document.specs.Items.{node_place, place_view};
ghost use Rattle.edit_document.specs.OneStatement.{HasMember, IsStatementCount};

use crate::document::Document;
use edit_tree::Step;
use edit_tree::nodes::DefinedBy;

/// The number of statements that name the place of a node, as far as the node alone determines it.
#[derive(Clone, Copy)]
pub(crate) enum Statements {
    /// Exactly one pair, and no header.
    One,
    /// No pair, several pairs, or a header.
    Other,
    /// Those that name its only member.
    AsMember(usize),
}

/// Whether a place is not the root and ends with a key.
fn is_member(place: &[Step]) -> bool
    ensures yes { result ≡ true → (upper : Place) × (name : List ℕ)
        × (place_view place.now ≡ at upper (key_step name)) }
    ensures no { result ≡ false → (upper : Place) → (name : List ℕ)
        → place_view place.now ≡ at upper (key_step name) → ⊥ }
{
    let [_upper @ .., last] = place else {
        return false;
    };
    match last {
        Step::Key(_) => true,
        Step::Index(_) => false,
    }
}

impl Document {
    /// The index of the only member of a node, where it has exactly one.
    fn only_member(&self, number: usize) -> Option<usize>
        requires { number < length self.now.nodes }
        ensures { HasMember self.now number result }
    {
        self.lemma_children(number);
        if self.name_count(number) != 1 {
            return None;
        }
        match self.member_name(number, 0) {
            Some(name) => self.member(number, name),
            None => None,
        }
    }

    /// How many statements name the place of a node that is a table's member.
    fn statements(&self, number: usize) -> Statements
        requires { number < length self.now.nodes }
        ensures { (form : Text) → (upper : Place) → (name : List ℕ) → IsDocument self.now.bytes form
            → node_place self.now number ≡ at upper (key_step name)
            → IsStatementCount form self.now number result }
    {
        let _text = self.text.as_str();
        let node = &self.nodes[number];
        match node.taken {
            DefinedBy::Value => Statements::One,
            DefinedBy::Super => Statements::Other,
            DefinedBy::Header => Statements::Other,
            DefinedBy::Array => Statements::Other,
            DefinedBy::Element => Statements::Other,
            DefinedBy::Dotted => match self.only_member(number) {
                Some(next) => Statements::AsMember(next),
                None => Statements::Other,
            },
        }
    }

    /// Whether exactly one pair has a key that leads to or through the place, and no header does. False for
    /// the root and for elements of arrays. Does not allocate.
    pub fn one_statement(&self, place: &[Step]) -> bool
        ensures { IfDocument self.now.bytes (λ form. result ≡ is_one_statement form (place_view place.now)) }
    {
        self.lemma_form();
        if !is_member(place) {
            return false;
        }
        let Some(first) = self.node_index(place) else {
            return false;
        };
        let mut number = first;
        'steps: for _step in 0..81_usize {
            match self.statements(number) {
                Statements::One => return true,
                Statements::Other => return false,
                Statements::AsMember(next) => number = next,
            }
        }
        self.lemma_children(number);
        false
    }
}
