//! The files of a request, which stand in memory.

use crate::error::{RequestError, malformed_error, type_error};
use crate::members::{Members, object_at, text_at, value_at};
use edit_base::paths::join;
use edit_store::{MemoryStore, Store};
use serde_json::Value;
use std::alloc::{AllocError, Global};

/// A manifest of a request.
#[derive(Drop)]
pub(crate) struct RequestFile {
    /// The path as the request has it.
    pub(crate) name: String,
    /// The absolute path.
    pub(crate) path: String,
    pub(crate) text: String,
}

/// The error of two texts with one path.
fn path_error(alloc: Global, path: &str) -> RequestError {
    match format!(in alloc; "the request has two texts of the path `{path}`") {
        Ok(message) => malformed_error(alloc, message.as_str()),
        Err(_) => RequestError::Memory,
    }
}

/// Stores a text in memory. Two texts of one path are an error.
fn put(alloc: Global, store: &mut MemoryStore, path: &str, text: &str) -> Result<(), RequestError> {
    match store.read(alloc, path) {
        Ok(None) => {}
        Ok(Some(_)) => return Err(path_error(alloc, path)),
        Err(_) => return Err(RequestError::Memory),
    }
    match store.write(alloc, path, text.as_bytes()) {
        Ok(()) => Ok(()),
        Err(_) => Err(RequestError::Memory),
    }
}

/// Stores a text at a path below `root`, and returns the absolute path.
pub(crate) fn put_at(
    alloc: Global,
    store: &mut MemoryStore,
    root: &str,
    name: &str,
    text: &str,
) -> Result<String, RequestError> {
    let Ok(path) = join(alloc, root, name) else {
        return Err(RequestError::Memory);
    };
    put(alloc, store, path.as_str(), text)?;
    Ok(path)
}

/// Stores the texts of a member, an object from paths to texts, and returns them; none where it is absent.
pub(crate) fn files_at(
    alloc: Global,
    members: &Members,
    key: &str,
    root: &str,
    store: &mut MemoryStore,
) -> Result<Vec<RequestFile>, RequestError> {
    let mut files = Vec::new(alloc);
    let Some(texts) = object_at(alloc, members, key)? else {
        return Ok(files);
    };
    for (name, value) in texts {
        let Some(text) = value.as_str() else {
            return Err(type_error(alloc, key, "an object from paths to texts"));
        };
        let name = name.as_str();
        let path = put_at(alloc, store, root, name, text)?;
        files.push(RequestFile {
            name: String::from_str(alloc, name)?,
            path,
            text: String::from_str(alloc, text)?,
        })?;
    }
    Ok(files)
}

/// The lines of an index: the text of a string, or a line for each object of a list.
fn index_lines(alloc: Global, value: &Value) -> Result<Option<String>, AllocError> {
    if let Some(text) = value.as_str() {
        return Ok(Some(String::from_str(alloc, text)?));
    }
    let Some(items) = value.as_array() else {
        return Ok(None);
    };
    let mut lines = String::new(alloc);
    for item in items {
        lines.push_str(item.to_string(alloc)?.as_str())?;
        lines.push('\n')?;
    }
    Ok(Some(lines))
}

/// Stores the index of a request, and returns its path, where there is one.
pub(crate) fn index_path(
    alloc: Global,
    members: &Members,
    root: &str,
    store: &mut MemoryStore,
) -> Result<Option<String>, RequestError> {
    let Some(value) = value_at(members, "index") else {
        return Ok(None);
    };
    match index_lines(alloc, value)? {
        Some(lines) => Ok(Some(put_at(alloc, store, root, "(index)", lines.as_str())?)),
        None => Err(type_error(alloc, "index", "a string or a list of objects")),
    }
}

/// Stores the metadata of a request, and returns their path, where there are any.
pub(crate) fn metadata_path(
    alloc: Global,
    members: &Members,
    root: &str,
    store: &mut MemoryStore,
) -> Result<Option<String>, RequestError> {
    if object_at(alloc, members, "metadata")?.is_none() {
        return Ok(None);
    }
    let Some(value) = value_at(members, "metadata") else {
        return Ok(None);
    };
    let text = value.to_string(alloc)?;
    Ok(Some(put_metadata(alloc, root, text.as_str(), store)?))
}

/// Stores a text as the metadata of a request, and returns its path.
pub(crate) fn put_metadata(
    alloc: Global,
    root: &str,
    text: &str,
    store: &mut MemoryStore,
) -> Result<String, RequestError> {
    put_at(alloc, store, root, "(metadata)", text)
}

/// Stores the lock file of a request, and returns its path, where there is one.
pub(crate) fn lock_path(
    alloc: Global,
    members: &Members,
    root: &str,
    store: &mut MemoryStore,
) -> Result<Option<String>, RequestError> {
    match text_at(alloc, members, "lock")? {
        Some(text) => Ok(Some(put_at(alloc, store, root, "(lock)", text)?)),
        None => Ok(None),
    }
}

/// The absolute folder that relative paths start from: the member `root`, else `/`.
pub(crate) fn root_of(alloc: Global, members: &Members) -> Result<&str, RequestError> {
    let Some(root) = text_at(alloc, members, "root")? else {
        return Ok("/");
    };
    if root.starts_with('/') {
        Ok(root)
    } else {
        Err(malformed_error(alloc, "the member `root` is not an absolute path"))
    }
}
