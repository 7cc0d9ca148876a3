//! What chooses rows: numbers, ranges and names.
ghost use Rattle.std.specs.Prelude.{IfOk};
ghost use Rattle.edit_choice.specs.Choices.{IsSameChoice};

use std::alloc::{AllocError, Global};

/// A part of a choice: the rows of a range of numbers, or those of a crate.
#[derive(Clone, Copy, Debug)]
pub enum RowItem<'a> {
    /// The first and the last number.
    Numbers(u64, u64),
    Name(&'a str),
}

/// A choice among the rows that change, which are numbered from 1 in their order.
#[derive(Debug, Drop)]
pub enum RowChoice<'a> {
    All,
    /// The rows that one of these chooses; none where there are none.
    Items(Vec<RowItem<'a>>),
}

impl<'a> RowChoice<'a> {
    /// A copy of a choice.
    pub fn try_clone(&self, alloc: Global) -> Result<RowChoice<'a>, AllocError>
        ensures { IfOk result (IsSameChoice self.now) }
    {
        let items = match self {
            RowChoice::All => return Ok(RowChoice::All),
            RowChoice::Items(items) => items.as_slice(),
        };
        let mut copies = Vec::new(alloc);
        copies.extend_from_slice(items)?;
        Ok(RowChoice::Items(copies))
    }
}
