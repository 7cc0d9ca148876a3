//! Places: paths from the root of a document to its items.

/// A step from a table or an array to a member or an element.
#[derive(Debug, PartialEq, Eq, PartialOrd, Ord, Hash, Drop)]
pub enum Step {
    Key(String),
    Index(usize),
}

/// The steps from the root; the empty list is the root.
pub type Place = Vec<Step>;
