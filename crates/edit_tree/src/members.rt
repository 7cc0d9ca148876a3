//! What stands below a place: its members, or its elements where it is an array.
ghost use Rattle.std.specs.Prelude.{◌≡◌, ℕ, List, [], ◌∷◌, ◌++◌, None, IfOk, length, option_map, slice_get};
ghost use Rattle.edit_tree.specs.Nodes.{bytes_of, entries_listed, entries_of, elements_of, names_in, number_in, IsListIndexed, IsIndexed};

use crate::nodes::{DecodedText, MemberList};
use std::alloc::{AllocError, Global};
use std::mem;

/// The members and the numbers of the elements of a place that has both.
#[derive(Drop)]
struct Pair {
    members: Box<MemberList>,
    elements: Box<Vec<usize>>,
}

/// What a place has below it, each in a box of its own.
#[derive(Drop)]
enum Parts {
    Nothing,
    Members(Box<MemberList>),
    Elements(Box<Vec<usize>>),
    /// No document has both at one place, but the type allows it.
    Both(Box<Pair>),
}

/// The members and the elements of a place. Most places are values and have none, and the others have
/// one of the two: memory is taken only for what there is.
#[derive(Drop)]
pub struct Members {
    parts: Parts,
}

impl Members {
    /// No members and no elements.
    pub(crate) fn none() -> Members
        ensures empty { (text : List ℕ) → entries_of text result ≡ [] }
        ensures indexed { (text : List ℕ) → IsIndexed text result }
        ensures elements { elements_of result ≡ [] }
    {
        Members {
            parts: Parts::Nothing,
        }
    }

    /// How many members there are.
    pub fn len(&self) -> usize
        ensures { (text : List ℕ) → result ≡ length (entries_of text self.now) }
    {
        match &self.parts {
            Parts::Members(members) => members.len(),
            Parts::Both(pair) => pair.members.len(),
            Parts::Nothing | Parts::Elements(_) => 0,
        }
    }

    /// The number of the member of a name.
    pub fn get(&self, text: &str, name: &str) -> Option<usize>
        ensures { IsIndexed text.now self.now → result ≡ number_in (entries_of text.now self.now) name.now }
    {
        match &self.parts {
            Parts::Members(members) => members.get(text, name),
            Parts::Both(pair) => pair.members.get(text, name),
            Parts::Nothing | Parts::Elements(_) => None,
        }
    }

    /// The name of the member that comes behind so many others.
    pub fn name<'a>(&'a self, text: &'a str, index: usize) -> Option<&'a str>
        ensures { option_map (λ s. s.now) result
            ≡ slice_get (names_in (entries_of text.now self.now)) index }
    {
        match &self.parts {
            Parts::Members(members) => members.name(text, index),
            Parts::Both(pair) => pair.members.name(text, index),
            Parts::Nothing | Parts::Elements(_) => None,
        }
    }

    /// The numbers of the elements, where this is an array or an array of tables.
    pub fn elements(&self) -> &[usize]
        ensures { result.now ≡ elements_of self.now }
    {
        match &self.parts {
            Parts::Elements(elements) => elements.as_slice(),
            Parts::Both(pair) => pair.elements.as_slice(),
            Parts::Nothing | Parts::Members(_) => &[],
        }
    }

    /// Takes the members out, and makes a list of none where there are none.
    fn take_members(&mut self, alloc: Global) -> Result<Box<MemberList>, AllocError>
        ensures entries { IfOk result (λ members. (text : List ℕ)
            → entries_listed text members.value ≡ entries_of text self.old) }
        ensures indexed { IfOk result (λ members. (text : List ℕ) → IsIndexed text self.old
            → IsListIndexed text members.value) }
        ensures elements { IfOk result (λ _. elements_of self.new ≡ elements_of self.old) }
    {
        match mem::replace(&mut self.parts, Parts::Nothing) {
            Parts::Members(members) => Ok(members),
            Parts::Both(pair) => {
                let Pair { members, elements } = Box::into_inner(pair);
                self.parts = Parts::Elements(elements);
                Ok(members)
            }
            Parts::Elements(elements) => {
                self.parts = Parts::Elements(elements);
                Ok(Box::new(alloc, MemberList::none(alloc))?)
            }
            Parts::Nothing => Ok(Box::new(alloc, MemberList::none(alloc))?),
        }
    }

    /// Takes the numbers of the elements out, and makes a list of none where there are none.
    fn take_elements(&mut self, alloc: Global) -> Result<Box<Vec<usize>>, AllocError>
        ensures items { IfOk result (λ elements. elements.value.items ≡ elements_of self.old) }
        ensures entries { IfOk result (λ _. (text : List ℕ) → entries_of text self.new
            ≡ entries_of text self.old) }
        ensures indexed { IfOk result (λ _. (text : List ℕ) → IsIndexed text self.old
            → IsIndexed text self.new) }
    {
        match mem::replace(&mut self.parts, Parts::Nothing) {
            Parts::Elements(elements) => Ok(elements),
            Parts::Both(pair) => {
                let Pair { members, elements } = Box::into_inner(pair);
                self.parts = Parts::Members(members);
                Ok(elements)
            }
            Parts::Members(members) => {
                self.parts = Parts::Members(members);
                Ok(Box::new(alloc, Vec::new(alloc))?)
            }
            Parts::Nothing => Ok(Box::new(alloc, Vec::new(alloc))?),
        }
    }

    /// Takes these members in place of its own.
    fn put_members(&mut self, alloc: Global, members: Box<MemberList>) -> Result<(), AllocError>
        ensures entries { IfOk result (λ _. (text : List ℕ)
            → entries_of text self.new ≡ entries_listed text members.value) }
        ensures indexed { IfOk result (λ _. (text : List ℕ) → IsListIndexed text members.value
            → IsIndexed text self.new) }
        ensures elements { IfOk result (λ _. elements_of self.new ≡ elements_of self.old) }
    {
        match mem::replace(&mut self.parts, Parts::Nothing) {
            Parts::Elements(elements) => {
                self.parts = Parts::Both(Box::new(alloc, Pair { members, elements })?);
            }
            Parts::Both(pair) => {
                let Pair {
                    members: _old,
                    elements,
                } = Box::into_inner(pair);
                self.parts = Parts::Both(Box::new(alloc, Pair { members, elements })?);
            }
            Parts::Members(_old) => self.parts = Parts::Members(members),
            Parts::Nothing => self.parts = Parts::Members(members),
        }
        Ok(())
    }

    /// Takes these elements in place of its own.
    fn put_elements(&mut self, alloc: Global, elements: Box<Vec<usize>>) -> Result<(), AllocError>
        ensures items { IfOk result (λ _. elements_of self.new ≡ elements.value.items) }
        ensures entries { IfOk result (λ _. (text : List ℕ) → entries_of text self.new
            ≡ entries_of text self.old) }
        ensures indexed { IfOk result (λ _. (text : List ℕ) → IsIndexed text self.old
            → IsIndexed text self.new) }
    {
        match mem::replace(&mut self.parts, Parts::Nothing) {
            Parts::Members(members) => {
                self.parts = Parts::Both(Box::new(alloc, Pair { members, elements })?);
            }
            Parts::Both(pair) => {
                let Pair {
                    members,
                    elements: _old,
                } = Box::into_inner(pair);
                self.parts = Parts::Both(Box::new(alloc, Pair { members, elements })?);
            }
            Parts::Elements(_old) => self.parts = Parts::Elements(elements),
            Parts::Nothing => self.parts = Parts::Elements(elements),
        }
        Ok(())
    }

    /// Adds a member.
    pub(crate) fn insert(
        &mut self,
        alloc: Global,
        text: &str,
        name: DecodedText,
        number: usize,
    ) -> Result<(), AllocError>
        ensures added { IfOk result (λ _. entries_of text.now self.new ≡ entries_of text.now self.old
            ++ (bytes_of text.now name, number) ∷ []) }
        ensures indexed { IsIndexed text.now self.old
            → number_in (entries_of text.now self.old) (bytes_of text.now name) ≡ None → IfOk result
            (λ _. IsIndexed text.now self.new) }
        ensures elements { IfOk result (λ _. elements_of self.new ≡ elements_of self.old) }
    {
        let mut members = self.take_members(alloc)?;
        members.insert(alloc, text, name, number)?;
        self.put_members(alloc, members)
    }

    /// Adds the number of an element.
    pub(crate) fn push_element(&mut self, alloc: Global, number: usize) -> Result<(), AllocError>
        ensures pushed { IfOk result (λ _. elements_of self.new ≡ elements_of self.old ++ number ∷ []) }
        ensures entries { IfOk result (λ _. (text : List ℕ) → entries_of text self.new
            ≡ entries_of text self.old) }
        ensures indexed { IfOk result (λ _. (text : List ℕ) → IsIndexed text self.old
            → IsIndexed text self.new) }
    {
        let mut elements = self.take_elements(alloc)?;
        elements.push(number)?;
        self.put_elements(alloc, elements)
    }
}
