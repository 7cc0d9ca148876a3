//! Reads the bounds in the output of `lock-plan`.

use edit_base::{CargoResult, Error};
use edit_lock_bounds::ChosenVersion;
use edit_policy::{CratePolicy, Hold};
use edit_sources::PublishedBefore;
use edit_version::read_requirement;
use serde_json::Value;
use std::alloc::Global;

/// The bounds for versions in the lock file.
#[derive(Drop)]
pub(super) struct LockBounds {
    /// The latest time of publication, as it is written in the file.
    pub(super) time: Option<String>,
    pub(super) published_before: Option<PublishedBefore>,
    /// The holds of the policy.
    pub(super) holds: Vec<CratePolicy>,
    /// The versions that requirements were raised to.
    pub(super) chosen: Vec<ChosenVersion>,
    /// The names of the crates with a requirement given by the user.
    pub(super) explicit: Vec<String>,
}

/// The text of a member; `Error::Metadata` if it is missing or no text.
fn text<'a>(value: &'a Value, key: &str) -> CargoResult<&'a str> {
    match value.get(key).and_then(Value::as_str) {
        Some(text) => Ok(text),
        None => Err(Error::Metadata),
    }
}

/// The elements of a member; `Error::Metadata` if it is missing or no array.
fn elements<'a>(value: &'a Value, key: &str) -> CargoResult<&'a [Value]> {
    match value.get(key).and_then(Value::as_array) {
        Some(elements) => Ok(elements.as_slice()),
        None => Err(Error::Metadata),
    }
}

/// The hold of a crate.
fn hold_of(alloc: Global, value: &Value) -> CargoResult<CratePolicy> {
    let name = text(value, "name")?;
    let hold = text(value, "hold")?;
    let Some(requirement) = read_requirement(alloc, hold)? else {
        return Err(Error::Metadata);
    };
    Ok(CratePolicy {
        name: String::from_str(alloc, name)?,
        hold: Some(Hold {
            text: String::from_str(alloc, hold)?,
            requirement,
        }),
        level: None,
        reason: None,
    })
}

/// The version that the requirements on a crate were raised to.
fn chosen_of(alloc: Global, value: &Value) -> CargoResult<ChosenVersion> {
    let name = text(value, "name")?;
    let version = text(value, "version")?;
    Ok(ChosenVersion {
        name: String::from_str(alloc, name)?,
        version: String::from_str(alloc, version)?,
    })
}

/// The latest time of publication as text, if there is such a bound.
fn time_of(alloc: Global, value: &Value) -> CargoResult<Option<String>> {
    match value.get("published_before").and_then(Value::as_str) {
        Some(text) => Ok(Some(String::from_str(alloc, text)?)),
        None => Ok(None),
    }
}

impl LockBounds {
    /// Reads the bounds; `Error::Metadata` where a member is missing or of another kind.
    pub(super) fn read(alloc: Global, bytes: &[u8]) -> CargoResult<LockBounds> {
        let Ok(json) = std::str::from_utf8(bytes) else {
            return Err(Error::NotUtf8);
        };
        let value = match Value::from_str(alloc, json) {
            Ok(value) => value,
            Err(error) if error.is_memory() => return Err(Error::Memory),
            Err(_) => return Err(Error::Metadata),
        };
        let mut holds = Vec::new(alloc);
        for hold in elements(&value, "holds")? {
            holds.push(hold_of(alloc, hold)?)?;
        }
        let mut chosen = Vec::new(alloc);
        for version in elements(&value, "chosen")? {
            chosen.push(chosen_of(alloc, version)?)?;
        }
        let mut explicit = Vec::new(alloc);
        for name in elements(&value, "explicit")? {
            explicit.push(String::from_str(alloc, name.as_str().unwrap_or(""))?)?;
        }
        let time = time_of(alloc, &value)?;
        let published_before = time.as_deref().and_then(PublishedBefore::parse);
        Ok(LockBounds {
            time,
            published_before,
            holds,
            chosen,
            explicit,
        })
    }

    /// Whether there is a bound for the versions of a crate.
    pub(super) fn bounds_crate(&self, name: &str) -> bool {
        self.published_before.is_some()
            || self.holds.iter().any(|hold| hold.name.as_str() == name)
            || self
                .chosen
                .iter()
                .any(|chosen| chosen.name.as_str() == name)
    }

    /// Whether the user gave a requirement on a crate.
    pub(super) fn is_explicit(&self, name: &str) -> bool {
        self.explicit
            .iter()
            .any(|explicit| explicit.as_str() == name)
    }
}
