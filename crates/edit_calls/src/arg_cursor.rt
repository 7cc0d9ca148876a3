//! The arguments of a call: steps, values and entries.
ghost use Rattle.std.specs.Prelude.{IfOk};
ghost use Rattle.edit_tree.specs.NewItems.{IsEntry};
ghost use Rattle.edit_document.specs.NewItemViews.{new_item_view};

use edit_document::{NewItem, NewValue, Step};
use std::alloc::{AllocError, Global};

/// Arguments that are consumed one by one.
#[derive(Drop)]
pub(crate) struct ArgCursor<'a> {
    args: &'a [String],
    next: usize,
}

impl<'a> ArgCursor<'a> {
    /// An iterator over these arguments.
    pub(crate) fn new(args: &'a [String]) -> ArgCursor<'a> {
        ArgCursor { args, next: 0 }
    }

    /// The next argument, empty after the last one.
    pub(crate) fn take(&mut self) -> &'a str {
        match self.args.get(self.next) {
            Some(arg) => {
                self.next += 1;
                arg.as_str()
            }
            None => "",
        }
    }

    /// The next argument as a number, 0 where it is none.
    fn take_number(&mut self) -> usize {
        self.take().parse().unwrap_or(0)
    }

    /// The steps up to an argument `=`: `.NAME` is a key, `#INDEX` an element.
    pub(crate) fn take_place(&mut self, alloc: Global) -> Result<Vec<Step>, AllocError> {
        let mut place = Vec::new(alloc);
        for _ in 0..self.args.len() {
            let arg = self.take();
            match arg.strip_prefix(".") {
                Some(name) => place.push(Step::Key(String::from_str(alloc, name)?))?,
                None => match arg.strip_prefix("#") {
                    Some(index) => place.push(Step::Index(index.parse().unwrap_or(usize::MAX)))?,
                    None => return Ok(place),
                },
            }
        }
        Ok(place)
    }

    /// A number, and as many texts.
    pub(crate) fn take_texts(&mut self, alloc: Global) -> Result<Vec<String>, AllocError> {
        let mut texts = Vec::new(alloc);
        for _ in 0..self.take_number() {
            texts.push(String::from_str(alloc, self.take())?)?;
        }
        Ok(texts)
    }

    /// A value of a kind: `text` and a text; `zeros` and a text with `␀` for each byte 0, which no argument
    /// can contain; `truth` and `true` or `false`; `list`, a number and as many texts.
    fn take_value_of(&mut self, alloc: Global, kind: &str) -> Result<NewValue, AllocError> {
        match kind {
            "truth" => Ok(NewValue::Bool(self.take() == "true")),
            "zeros" => Ok(NewValue::Str(self.take().replace(alloc, "␀", "\0")?)),
            "list" => Ok(NewValue::Strings(self.take_texts(alloc)?)),
            _ => Ok(NewValue::Str(String::from_str(alloc, self.take())?)),
        }
    }

    /// A value, after its kind.
    pub(crate) fn take_value(&mut self, alloc: Global) -> Result<NewValue, AllocError> {
        let kind = self.take();
        self.take_value_of(alloc, kind)
    }

    /// A number, and as many names, each followed by a value.
    fn take_members(&mut self, alloc: Global) -> Result<Vec<(String, NewValue)>, AllocError> {
        let mut members = Vec::new(alloc);
        for _ in 0..self.take_number() {
            let name = String::from_str(alloc, self.take())?;
            members.push((name, self.take_value(alloc)?))?;
        }
        Ok(members)
    }

    /// An entry: `table` and its members, `dotted`, or a value.
    pub(crate) fn take_item(&mut self, alloc: Global) -> Result<NewItem, AllocError>
        ensures { IfOk result (λ item. IsEntry (new_item_view item)) }
    {
        let kind = self.take();
        match kind {
            "table" => Ok(NewItem::Inline {
                members: self.take_members(alloc)?,
                dotted: false,
            }),
            "dotted" => dotted_item(alloc),
            _ => Ok(NewItem::Value(self.take_value_of(alloc, kind)?)),
        }
    }
}

/// The entry `{ workspace = true }`, written as a dotted key.
fn dotted_item(alloc: Global) -> Result<NewItem, AllocError>
    ensures { IfOk result (λ item. IsEntry (new_item_view item)) }
{
    let mut members = Vec::new(alloc);
    members.push((String::from_str(alloc, "workspace")?, NewValue::Bool(true)))?;
    Ok(NewItem::Inline {
        members,
        dotted: true,
    })
}
