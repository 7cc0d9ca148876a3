//! Members of the object of a request.

use crate::error::{RequestError, malformed_error, type_error};
use serde_json::{Map, Value};
use std::alloc::Global;

/// The members of a JSON object.
pub(crate) type Members = Map<String, Value>;

/// The value of a member; `null` counts as absent.
pub(crate) fn value_at<'a>(members: &'a Members, key: &str) -> Option<&'a Value> {
    match members.get(key) {
        Some(Value::Null) | None => None,
        Some(value) => Some(value),
    }
}

/// The text of a member, where it is present.
pub(crate) fn text_at<'a>(
    alloc: Global,
    members: &'a Members,
    key: &str,
) -> Result<Option<&'a str>, RequestError> {
    let Some(value) = value_at(members, key) else {
        return Ok(None);
    };
    match value.as_str() {
        Some(text) => Ok(Some(text)),
        None => Err(type_error(alloc, key, "a string")),
    }
}

/// The members of the object that a member holds, where it is present.
pub(crate) fn object_at<'a>(
    alloc: Global,
    members: &'a Members,
    key: &str,
) -> Result<Option<&'a Members>, RequestError> {
    let Some(value) = value_at(members, key) else {
        return Ok(None);
    };
    match value.as_object() {
        Some(object) => Ok(Some(object)),
        None => Err(type_error(alloc, key, "an object")),
    }
}

/// Fails where an object has a member that is not among these.
pub(crate) fn check_keys(
    alloc: Global,
    members: &Members,
    known: &[&str],
) -> Result<(), RequestError> {
    for (key, _) in members {
        let key = key.as_str();
        if !known.iter().any(|name| *name == key) {
            return Err(unknown_member_error(alloc, key));
        }
    }
    Ok(())
}

/// The error of a member with an unknown key.
fn unknown_member_error(alloc: Global, key: &str) -> RequestError {
    match format!(in alloc; "the member `{key}` is unknown") {
        Ok(message) => malformed_error(alloc, message.as_str()),
        Err(_) => RequestError::Memory,
    }
}
