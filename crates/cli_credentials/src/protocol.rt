//! The protocol between cargo and credential providers (Cargo reference, "Credential Provider Protocol").

use crate::registries::Registry;
use edit_base::{CargoResult, Error};
use edit_fetch::is_header_text;
use edit_lookups::push_escaped;
use serde_json::{Map, Value};
use std::alloc::{AllocError, Global};
use std::str;

/// Adds a member to an object.
fn put(
    alloc: Global,
    object: &mut Map<String, Value>,
    key: &str,
    value: Value,
) -> Result<(), AllocError> {
    object.insert(String::from_str(alloc, key)?, value)?;
    Ok(())
}

/// Adds a member with a text to an object.
fn put_text(
    alloc: Global,
    object: &mut Map<String, Value>,
    key: &str,
    text: &str,
) -> Result<(), AllocError> {
    let value = Value::try_from_str(alloc, text)?;
    put(alloc, object, key, value)
}

/// The registry as a member of a request.
fn registry_value(alloc: Global, registry: &Registry) -> Result<Value, AllocError> {
    let mut object = Map::new(alloc);
    put_text(alloc, &mut object, "index-url", registry.address.as_str())?;
    if let Some(name) = &registry.name {
        put_text(alloc, &mut object, "name", name.as_str())?;
    }
    Ok(Value::Object(object))
}

/// The request for a token of a registry, with the arguments of the provider, as one line of JSON.
pub(crate) fn request_line(
    alloc: Global,
    registry: &Registry,
    arguments: &[String],
) -> Result<String, AllocError> {
    let mut object = Map::new(alloc);
    put(alloc, &mut object, "v", Value::from(1u8))?;
    put(
        alloc,
        &mut object,
        "registry",
        registry_value(alloc, registry)?,
    )?;
    put_text(alloc, &mut object, "kind", "get")?;
    put_text(alloc, &mut object, "operation", "read")?;
    if !arguments.is_empty() {
        let mut values = Vec::new(alloc);
        for argument in arguments {
            values.push(Value::try_from_str(alloc, argument.as_str())?)?;
        }
        put(alloc, &mut object, "args", Value::Array(values))?;
    }
    Value::Object(object).to_string(alloc)
}

/// The line for a failure.
fn failed_line(alloc: Global, text: &str) -> Result<String, AllocError> {
    let mut line = String::from_str(alloc, "failed ")?;
    push_escaped(&mut line, text)?;
    Ok(line)
}

/// The line for a token.
fn token_line(alloc: Global, token: &str) -> Result<String, AllocError> {
    if token.is_empty() {
        return failed_line(alloc, "it gave an empty token");
    }
    if !is_header_text(token.as_bytes()) {
        return failed_line(alloc, "its token has control characters");
    }
    format!(in alloc; "token {token}")
}

/// The line for the output of a command that prints a token.
fn stdout_line(alloc: Global, text: &str) -> Result<String, AllocError> {
    match text.split_once('\n') {
        Some((token, "")) => token_line(alloc, token),
        Some(_) => failed_line(alloc, "it printed more than one line"),
        None => token_line(alloc, text),
    }
}

/// Parses a line of JSON; `None` if it is not JSON.
fn json_of(alloc: Global, line: &str) -> CargoResult<Option<Value>> {
    match Value::from_str(alloc, line) {
        Ok(value) => Ok(Some(value)),
        Err(error) if error.is_memory() => Err(Error::Memory),
        Err(_) => Ok(None),
    }
}

/// Whether a provider's first message offers version 1 of the protocol.
fn offers_first_version(alloc: Global, line: &str) -> CargoResult<bool> {
    let Some(hello) = json_of(alloc, line)? else {
        return Ok(false);
    };
    let Some(versions) = hello.get("v").and_then(Value::as_array) else {
        return Ok(false);
    };
    Ok(versions.iter().any(|version| version.as_u64() == Some(1)))
}

/// The token of an answer, if it has the members of the protocol and its `kind` is `get`.
fn token_of(message: &Value) -> Option<&str> {
    let kind = message.get("kind")?.as_str()?;
    let cache = message.get("cache")?.as_str()?;
    let is_whole = message.get("operation_independent")?.as_bool().is_some();
    if kind == "get" && is_whole && !cache.is_empty() {
        message.get("token")?.as_str()
    } else {
        None
    }
}

/// The text of an error of the kind `other`: its message and the causes.
fn error_text(alloc: Global, error: &Value) -> Result<String, AllocError> {
    let mut words = String::new(alloc);
    match error.get("message").and_then(Value::as_str) {
        Some(message) => words.push_str(message)?,
        None => words.push_str("it gave no message")?,
    }
    if let Some(causes) = error.get("caused-by").and_then(Value::as_array) {
        for cause in causes {
            if let Some(cause) = cause.as_str() {
                words.push_str(": ")?;
                words.push_str(cause)?;
            }
        }
    }
    Ok(words)
}

/// The line for an error of a provider.
fn error_line(alloc: Global, error: &Value) -> Result<String, AllocError> {
    match error.get("kind").and_then(Value::as_str) {
        Some("not-found") => String::from_str(alloc, "nothing"),
        Some("url-not-supported") => String::from_str(alloc, "unsupported"),
        Some("operation-not-supported") => failed_line(alloc, "it does not get tokens"),
        Some("other") => {
            let text = error_text(alloc, error)?;
            failed_line(alloc, text.as_str())
        }
        _ => failed_line(alloc, "its error is of an unknown kind"),
    }
}

/// The line for a provider's answer to the request.
fn answer_line(alloc: Global, line: &str) -> CargoResult<String> {
    let Some(answer) = json_of(alloc, line)? else {
        return Ok(failed_line(alloc, "its answer is not JSON")?);
    };
    if let Some(error) = answer.get("Err") {
        return Ok(error_line(alloc, error)?);
    }
    match answer.get("Ok").and_then(token_of) {
        Some(token) => Ok(token_line(alloc, token)?),
        None => Ok(failed_line(alloc, "its answer is no message of the protocol")?),
    }
}

/// The line for the output of a program that follows the protocol: its first message, and its answer.
fn plugin_line(alloc: Global, text: &str) -> CargoResult<String> {
    let (hello, rest) = match text.split_once('\n') {
        Some(parts) => parts,
        None => (text, ""),
    };
    if !offers_first_version(alloc, hello)? {
        return Ok(failed_line(
            alloc,
            "it does not offer version 1 of the credential provider protocol",
        )?);
    }
    let answer = match rest.split_once('\n') {
        Some((answer, _)) => answer,
        None => rest,
    };
    if answer.is_empty() {
        return Ok(failed_line(alloc, "it gave no answer")?);
    }
    answer_line(alloc, answer)
}

/// The line for the output of a provider: `token TOKEN`, `nothing`, `unsupported` or `failed TEXT`. `how`
/// is `plugin` for a program that follows the protocol, and `stdout` for a program that prints a token.
pub(crate) fn reply_line(alloc: Global, how: &str, bytes: &[u8]) -> CargoResult<String> {
    let Ok(text) = str::from_utf8(bytes) else {
        return Ok(failed_line(alloc, "its output is not UTF-8")?);
    };
    if how == "plugin" {
        plugin_line(alloc, text)
    } else {
        Ok(stdout_line(alloc, text)?)
    }
}
