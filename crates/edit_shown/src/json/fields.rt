//! The members of a message.
ghost use Rattle.std.specs.Prelude.{◌≡◌, IfOk, option_map};
ghost use Rattle.serde_json.specs.View.{view};
ghost use Rattle.edit_shown.specs.Fields.{field_data, list_data, number_or_null, step_data, text_data, text_or_null};

use edit_document::Step;
use serde_json::{Value, push};
use std::alloc::{AllocError, Global};

/// The value of a member.
#[derive(Clone, Copy)]
pub(crate) enum Field<'a> {
    Text(&'a str),
    Maybe(Option<&'a str>),
    Truth(bool),
    Number(Option<u32>),
    Texts(&'a [String]),
    Lists(&'a [Vec<String>]),
    Place(&'a [Step]),
}

/// A member of a message.
#[derive(Clone, Copy)]
pub(crate) struct Member<'a> {
    pub(crate) key: &'a str,
    pub(crate) field: Field<'a>,
}

/// An array of strings.
fn texts_value(alloc: Global, texts: &[String]) -> Result<Value, AllocError>
    ensures { IfOk result (λ v. view v ≡ list_data text_data texts.now) }
{
    let mut list = Vec::new(alloc);
    for text in texts {
        push(&mut list, Value::try_from_str(alloc, text.as_str())?)?;
    }
    Ok(Value::Array(list))
}

/// An array of arrays of strings.
fn lists_value(alloc: Global, lists: &[Vec<String>]) -> Result<Value, AllocError>
    ensures { IfOk result (λ v. view v ≡ list_data (λ l. list_data text_data l.items) lists.now) }
{
    let mut list = Vec::new(alloc);
    for texts in lists {
        push(&mut list, texts_value(alloc, texts.as_slice())?)?;
    }
    Ok(Value::Array(list))
}

/// A step of a place: a key as a string, an index as a number.
fn step_value(alloc: Global, step: &Step) -> Result<Value, AllocError>
    ensures { IfOk result (λ v. view v ≡ step_data step.now) }
{
    match step {
        Step::Key(key) => Value::try_from_str(alloc, key.as_str()),
        Step::Index(index) => Ok(Value::from(*index)),
    }
}

/// The steps of a place, as an array.
fn place_value(alloc: Global, steps: &[Step]) -> Result<Value, AllocError>
    ensures { IfOk result (λ v. view v ≡ list_data step_data steps.now) }
{
    let mut list = Vec::new(alloc);
    for step in steps {
        push(&mut list, step_value(alloc, step)?)?;
    }
    Ok(Value::Array(list))
}

/// A string, or null where there is none.
fn text_or_null(alloc: Global, text: Option<&str>) -> Result<Value, AllocError>
    ensures { IfOk result (λ v. view v ≡ text_or_null (option_map (λ t. t.now) text.entry)) }
{
    match text {
        Some(text) => Value::try_from_str(alloc, text),
        None => Ok(Value::Null),
    }
}

/// A number, or null where there is none.
fn number_or_null(number: Option<u32>) -> Value
    ensures { view result ≡ number_or_null number }
{
    match number {
        Some(number) => Value::from(number),
        None => Value::Null,
    }
}

/// The value of a member, as JSON.
pub(crate) fn value_of(alloc: Global, field: Field<'_>) -> Result<Value, AllocError>
    ensures { IfOk result (λ v. view v ≡ field_data field.entry) }
{
    match field {
        Field::Text(text) => Value::try_from_str(alloc, text),
        Field::Maybe(text) => text_or_null(alloc, text),
        Field::Truth(truth) => Ok(Value::Bool(truth)),
        Field::Number(number) => Ok(number_or_null(number)),
        Field::Texts(texts) => texts_value(alloc, texts),
        Field::Lists(lists) => lists_value(alloc, lists),
        Field::Place(steps) => place_value(alloc, steps),
    }
}
