//! Reads a request.

use crate::error::{RequestError, malformed_error};
use crate::files::{
    RequestFile, files_at, index_path, lock_path, metadata_path, put_metadata, root_of,
};
use crate::members::{Members, check_keys, object_at, text_at, value_at};
use crate::metadata_text::split_metadata;
use crate::options::{push_arg, push_options, push_pair};
use edit_store::MemoryStore;
use serde_json::Value;
use std::alloc::Global;

/// The members that a request may have.
const KEYS: &[&str] = &[
    "command",
    "configs",
    "index",
    "lock",
    "manifests",
    "metadata",
    "options",
    "root",
    "target",
    "version",
];

/// A request as it was read.
#[derive(Drop)]
pub(crate) struct Request {
    /// The arguments of the program.
    pub(crate) args: Vec<String>,
    /// The absolute folder that relative paths start from.
    pub(crate) root: String,
    pub(crate) manifests: Vec<RequestFile>,
    /// All files of the request.
    pub(crate) store: MemoryStore,
}

/// The error of bytes that are no JSON document.
fn json_error(alloc: Global, error: &serde_json::Error) -> RequestError {
    if error.is_memory() {
        return RequestError::Memory;
    }
    match format!(in alloc; "the request is not JSON: {error}") {
        Ok(message) => malformed_error(alloc, message.as_str()),
        Err(_) => RequestError::Memory,
    }
}

/// Parses the text of a request.
fn parse(alloc: Global, text: &str) -> Result<Value, RequestError> {
    match Value::from_str(alloc, text) {
        Ok(value) => Ok(value),
        Err(error) => Err(json_error(alloc, &error)),
    }
}

/// Fails where the member `version` is not 1.
fn check_version(alloc: Global, members: &Members) -> Result<(), RequestError> {
    match value_at(members, "version").and_then(Value::as_u64) {
        Some(1) => Ok(()),
        _ => Err(malformed_error(alloc, "the member `version` is not 1")),
    }
}

/// The subcommand of a request.
fn command_of(alloc: Global, members: &Members) -> Result<&str, RequestError> {
    match text_at(alloc, members, "command")? {
        Some("upgrade") => Ok("upgrade"),
        Some("looks") => Ok("looks"),
        Some("set-version") => Ok("set-version"),
        _ => Err(malformed_error(
            alloc,
            "the member `command` is none of `upgrade`, `looks` and `set-version`",
        )),
    }
}

/// Appends the arguments that say which manifests are meant: the metadata, else the only manifest.
fn push_manifests(
    alloc: Global,
    args: &mut Vec<String>,
    command: &str,
    metadata: Option<&String>,
    manifests: &[RequestFile],
) -> Result<(), RequestError> {
    if let Some(path) = metadata {
        return Ok(push_pair(alloc, args, "metadata-json", path.as_str())?);
    }
    if command == "set-version" {
        return Err(malformed_error(
            alloc,
            "the member `metadata` is missing: it says which members `set-version` has",
        ));
    }
    match manifests {
        [only] => Ok(push_pair(alloc, args, "manifest-path", only.path.as_str())?),
        [] => Err(malformed_error(alloc, "the member `manifests` is missing or empty")),
        _ => Err(malformed_error(
            alloc,
            "the member `metadata` is missing: it says which of several manifests are the workspace's",
        )),
    }
}

/// Appends the version that `set-version` is to set.
fn push_target(
    alloc: Global,
    args: &mut Vec<String>,
    members: &Members,
) -> Result<(), RequestError> {
    match text_at(alloc, members, "target")? {
        Some(target) if target.starts_with('-') => {
            Err(malformed_error(alloc, "the member `target` is not a version"))
        }
        Some(target) => Ok(push_arg(alloc, args, target)?),
        None => Ok(()),
    }
}

/// The paths of the files of a request beside its manifests.
#[derive(Drop)]
struct FilePaths {
    metadata: Option<String>,
    index: Option<String>,
    lock: Option<String>,
}

/// Stores the files of a request beside its manifests; `metadata` are those that were taken out of its text.
fn put_files(
    alloc: Global,
    members: &Members,
    root: &str,
    metadata: Option<&str>,
    store: &mut MemoryStore,
) -> Result<FilePaths, RequestError> {
    let configs = files_at(alloc, members, "configs", root, store)?;
    drop(configs);
    let metadata = match metadata {
        Some(text) => Some(put_metadata(alloc, root, text, store)?),
        None => metadata_path(alloc, members, root, store)?,
    };
    Ok(FilePaths {
        metadata,
        index: index_path(alloc, members, root, store)?,
        lock: lock_path(alloc, members, root, store)?,
    })
}

/// The arguments of the program for a request.
fn request_args(
    alloc: Global,
    members: &Members,
    command: &str,
    manifests: &[RequestFile],
    paths: &FilePaths,
) -> Result<Vec<String>, RequestError> {
    let mut args = Vec::new(alloc);
    push_arg(alloc, &mut args, command)?;
    push_manifests(
        alloc,
        &mut args,
        command,
        paths.metadata.as_ref(),
        manifests,
    )?;
    if command != "looks" {
        push_pair(alloc, &mut args, "message-format", "json")?;
    }
    if let Some(path) = &paths.index {
        push_pair(alloc, &mut args, "index-file", path.as_str())?;
    } else if command == "upgrade" {
        return Err(malformed_error(alloc, "the member `index` is missing"));
    }
    if let Some(path) = &paths.lock {
        push_pair(alloc, &mut args, "lock-file", path.as_str())?;
    }
    if let Some(options) = object_at(alloc, members, "options")? {
        push_options(alloc, &mut args, options)?;
    }
    push_target(alloc, &mut args, members)?;
    Ok(args)
}

/// Reads the members of a request; `metadata` are those that were taken out of its text.
fn read_members(
    alloc: Global,
    members: &Members,
    metadata: Option<&str>,
) -> Result<Request, RequestError> {
    check_keys(alloc, members, KEYS)?;
    check_version(alloc, members)?;
    let command = command_of(alloc, members)?;
    let root = root_of(alloc, members)?;
    let mut store = MemoryStore::new(alloc);
    let manifests = files_at(alloc, members, "manifests", root, &mut store)?;
    let paths = put_files(alloc, members, root, metadata, &mut store)?;
    Ok(Request {
        args: request_args(alloc, members, command, &manifests, &paths)?,
        root: String::from_str(alloc, root)?,
        manifests,
        store,
    })
}

/// Reads the members of a request that was parsed.
fn read_value(
    alloc: Global,
    value: &Value,
    metadata: Option<&str>,
) -> Result<Request, RequestError> {
    match value.as_object() {
        Some(members) => read_members(alloc, members, metadata),
        None => Err(malformed_error(alloc, "the request is not an object")),
    }
}

/// Reads a request.
pub(crate) fn read_request(alloc: Global, bytes: &[u8]) -> Result<Request, RequestError> {
    let Ok(text) = std::str::from_utf8(bytes) else {
        return Err(malformed_error(alloc, "the request is not UTF-8"));
    };
    if let Some(split) = split_metadata(alloc, text)? {
        if let Ok(value) = Value::from_str(alloc, split.rest.as_str()) {
            return read_value(alloc, &value, Some(split.metadata));
        }
    }
    read_value(alloc, &parse(alloc, text)?, None)
}
