//! The text of a message: one JSON object and a line end.
ghost use Rattle.std.specs.Prelude.{◌≡◌, IfErr, IfOk, map, string_bytes};
ghost use Rattle.edit_base.specs.Errors.{IsMemory};
ghost use Rattle.serde_json.specs.View.{view};
ghost use Rattle.serde_json.specs.Written.{compact_text};
ghost use Rattle.edit_shown.specs.Fields.{member_data};
ghost use Rattle.edit_shown.specs.JsonMessages.{message_data, message_text};

use crate::json::fields::{Member, value_of};
use edit_base::CargoResult;
use serde_json::{Map, Value, put};
use std::alloc::{AllocError, Global};

/// The version of the format of messages.
const FORMAT: u64 = 1;

/// An object of the format's version and of these members.
fn object_of(alloc: Global, members: &[Member<'_>]) -> Result<Value, AllocError>
    ensures { IfOk result (λ v. view v ≡ message_data (map member_data members.now)) }
{
    let mut object = Map::new(alloc);
    put(&mut object, alloc, "version", Value::from(FORMAT))?;
    for member in members {
        put(
            &mut object,
            alloc,
            member.key,
            value_of(alloc, member.field)?,
        )?;
    }
    Ok(Value::Object(object))
}

/// The text of an object of the format's version and of these members, without spaces.
fn object_text(alloc: Global, members: &[Member<'_>]) -> Result<String, AllocError>
    ensures { IfOk result (λ s. string_bytes s ≡ compact_text (message_data (map member_data members.now))) }
{
    let object = object_of(alloc, members)?;
    object.to_string(alloc)
}

/// The text of a message: an object of these members and the format's version, and a line end.
pub(crate) fn message(alloc: Global, members: &[Member<'_>]) -> CargoResult<String>
    ensures text { IfOk result (λ s. string_bytes s ≡ message_text (map member_data members.now)) }
    ensures error { IfErr result IsMemory }
{
    let mut text = object_text(alloc, members)?;
    text.push('\n')?;
    Ok(text)
}
