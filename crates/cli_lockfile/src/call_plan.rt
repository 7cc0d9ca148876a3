//! What the calls of `cargo update` depend on, read from the plan of an upgrade that `lock-plan` printed.

use edit_base::{CargoResult, Error};
use serde_json::Value;
use std::alloc::{AllocError, Global};

/// What the calls of `cargo update` depend on, read from a plan.
#[derive(Drop)]
pub(crate) struct CallPlan {
    pub(crate) modified: Vec<String>,
    pub(crate) git_crates: Vec<String>,
    pub(crate) packages: Vec<String>,
    pub(crate) compatible: bool,
    pub(crate) recursive: Option<bool>,
    /// Whether versions have to be published by a time.
    pub(crate) has_time: bool,
}

/// The texts at a key; `None` where there are none.
fn texts_at(alloc: Global, value: &Value, key: &str) -> Result<Option<Vec<String>>, AllocError> {
    let Some(values) = value.get(key).and_then(Value::as_array) else {
        return Ok(None);
    };
    let mut texts = Vec::new(alloc);
    for value in values {
        let Some(text) = value.as_str() else {
            return Ok(None);
        };
        texts.push(String::from_str(alloc, text)?)?;
    }
    Ok(Some(texts))
}

/// Reads a plan; `Error::Metadata` where a text is none.
pub(crate) fn read_call_plan(alloc: Global, text: &str) -> CargoResult<CallPlan> {
    let value = match Value::from_str(alloc, text) {
        Ok(value) => value,
        Err(error) if error.is_memory() => return Err(Error::Memory),
        Err(_) => return Err(Error::Metadata),
    };
    let modified = texts_at(alloc, &value, "modified")?;
    let git_crates = texts_at(alloc, &value, "git_crates")?;
    let packages = texts_at(alloc, &value, "packages")?;
    let compatible = value.get("compatible").and_then(Value::as_bool);
    let (Some(modified), Some(git_crates), Some(packages), Some(compatible)) = (
        modified, git_crates, packages, compatible,
    ) else {
        return Err(Error::Metadata);
    };
    Ok(CallPlan {
        modified,
        git_crates,
        packages,
        compatible,
        recursive: value.get("recursive").and_then(Value::as_bool),
        has_time: value
            .get("published_before")
            .and_then(Value::as_str)
            .is_some(),
    })
}
