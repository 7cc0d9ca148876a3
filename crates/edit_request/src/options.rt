//! The options of a request, as arguments of the program.

use crate::error::{RequestError, malformed_error};
use crate::members::Members;
use serde_json::Value;
use std::alloc::{AllocError, Global};

/// Options that a request cannot have: those that name files, whose texts are members of the request, and
/// those that decide what is printed or written.
const UNAVAILABLE: &[&str] = &[
    "check",
    "color",
    "config",
    "default-config",
    "diff",
    "dry-run",
    "help",
    "index-dir",
    "index-file",
    "interactive",
    "lock-file",
    "message-format",
    "metadata-json",
    "update-calls",
    "version",
];

/// Appends an argument to a command line.
pub(crate) fn push_arg(alloc: Global, args: &mut Vec<String>, arg: &str) -> Result<(), AllocError> {
    args.push(String::from_str(alloc, arg)?)?;
    Ok(())
}

/// Appends an option with its value.
pub(crate) fn push_pair(
    alloc: Global,
    args: &mut Vec<String>,
    key: &str,
    value: &str,
) -> Result<(), AllocError> {
    let arg = format!(in alloc; "--{key}={value}")?;
    args.push(arg)?;
    Ok(())
}

/// Whether a key is spelled like a long option: lower-case letters and `-`.
fn is_option_name(key: &str) -> bool {
    !key.is_empty()
        && key
            .bytes()
            .all(|byte| byte.is_ascii_lowercase() || byte == b'-')
}

/// The error of an option that cannot be given.
fn unavailable_error(alloc: Global, key: &str) -> RequestError {
    match format!(in alloc; "the option `{key}` cannot be given in a request") {
        Ok(message) => malformed_error(alloc, message.as_str()),
        Err(_) => RequestError::Memory,
    }
}

/// The error of an option whose value has a wrong type.
fn value_error(alloc: Global, key: &str) -> RequestError {
    let message = format!(in alloc;
        "the option `{key}` is neither a boolean, a string nor a list of strings"
    );
    match message {
        Ok(message) => malformed_error(alloc, message.as_str()),
        Err(_) => RequestError::Memory,
    }
}

/// Appends a flag. `recursive` takes a value of `true` or `false`; another flag is left out for `false`.
fn push_flag(
    alloc: Global,
    args: &mut Vec<String>,
    key: &str,
    is_set: bool,
) -> Result<(), AllocError> {
    if key == "recursive" {
        return push_pair(alloc, args, key, if is_set { "true" } else { "false" });
    }
    if !is_set {
        return Ok(());
    }
    let arg = format!(in alloc; "--{key}")?;
    args.push(arg)?;
    Ok(())
}

/// Appends an option once for each of its values.
fn push_values(
    alloc: Global,
    args: &mut Vec<String>,
    key: &str,
    values: &[Value],
) -> Result<(), RequestError> {
    for value in values {
        match value.as_str() {
            Some(text) => push_pair(alloc, args, key, text)?,
            None => return Err(value_error(alloc, key)),
        }
    }
    Ok(())
}

/// Appends an option of a request.
fn push_option(
    alloc: Global,
    args: &mut Vec<String>,
    key: &str,
    value: &Value,
) -> Result<(), RequestError> {
    if !is_option_name(key) || UNAVAILABLE.iter().any(|name| *name == key) {
        return Err(unavailable_error(alloc, key));
    }
    match value {
        Value::Null => Ok(()),
        Value::Bool(is_set) => Ok(push_flag(alloc, args, key, *is_set)?),
        Value::String(text) => Ok(push_pair(alloc, args, key, text.as_str())?),
        Value::Array(values) => push_values(alloc, args, key, values.as_slice()),
        Value::Number(_) | Value::Object(_) => Err(value_error(alloc, key)),
    }
}

/// Appends the options of a request.
pub(crate) fn push_options(
    alloc: Global,
    args: &mut Vec<String>,
    options: &Members,
) -> Result<(), RequestError> {
    for (key, value) in options {
        push_option(alloc, args, key.as_str(), value)?;
    }
    Ok(())
}
