//! Reads the members of a package in the output of `cargo metadata`.
ghost use Rattle.std.specs.Prelude.{◌≡◌, None, Some, true, codes, IfErr, IfOk, MatchResult, option_map, string_bytes};
ghost use Rattle.edit_base.specs.Errors.{IsMemory};
ghost use Rattle.edit_metadata.specs.Metadata.{is_absolute, is_root_path, maybe_text_at, rust_version_in_value, text_at, version_in_value};
ghost use Rattle.edit_metadata.specs.Reading.{IsReadingError};
ghost use Rattle.edit_version.specs.RustVersions.{numbers_of};
ghost use Rattle.semver.specs.Identifiers.{parts_of};
ghost use Rattle.serde_json.specs.View.{view};

use crate::members::{is_absolute, is_root_path, maybe_text_at, text_at};
use edit_base::{CargoResult, Error};
use edit_version::{RustVersion, read_rust_version, read_version};
use semver::Version;
use serde_json::Value;
use std::alloc::Global;

/// The string of a member; `Error::Metadata` where it holds no string.
pub(crate) fn text(alloc: Global, value: &Value, name: &str) -> CargoResult<String>
    ensures { MatchResult result (λ s. text_at name.now (view value.now) ≡ Some (string_bytes s))
        (IsReadingError (λ t. text_at name.now (view value.now) ≡ Some t)) }
{
    match text_at(value, name) {
        Some(text) => Ok(String::from_str(alloc, text)?),
        None => Err(Error::Metadata),
    }
}

/// The string of a member, which has to be an absolute path; otherwise `Error::Metadata`.
pub(crate) fn path(alloc: Global, value: &Value, name: &str) -> CargoResult<String>
    ensures { MatchResult result (λ s. (text_at name.now (view value.now) ≡ Some (string_bytes s))
        × (is_absolute (string_bytes s) ≡ true))
        (IsReadingError (λ t. (text_at name.now (view value.now) ≡ Some t) × (is_absolute t ≡ true))) }
{
    let path = text(alloc, value, name)?;
    if !is_absolute(path.as_str()) {
        return Err(Error::Metadata);
    }
    Ok(path)
}

/// The string `workspace_root`, which has to be an absolute path without a line end; otherwise
/// `Error::Metadata`.
pub(crate) fn root_path(alloc: Global, value: &Value) -> CargoResult<String>
    ensures { MatchResult result
        (λ s. (text_at (codes "workspace_root") (view value.now) ≡ Some (string_bytes s))
        × (is_root_path (string_bytes s) ≡ true))
        (IsReadingError (λ t. (text_at (codes "workspace_root") (view value.now) ≡ Some t)
        × (is_root_path t ≡ true))) }
{
    let path = text(alloc, value, "workspace_root")?;
    if !is_root_path(path.as_str()) {
        return Err(Error::Metadata);
    }
    Ok(path)
}

/// The string of a member that may be absent or null; `Error::Metadata` where it holds anything else.
pub(crate) fn maybe_text(alloc: Global, value: &Value, name: &str) -> CargoResult<Option<String>>
    ensures { MatchResult result
        (λ s. maybe_text_at name.now (view value.now) ≡ Some (option_map string_bytes s))
        (IsReadingError (λ t. maybe_text_at name.now (view value.now) ≡ Some t)) }
{
    match maybe_text_at(value, name) {
        Some(Some(text)) => Ok(Some(String::from_str(alloc, text)?)),
        Some(None) => Ok(None),
        None => Err(Error::Metadata),
    }
}

/// The version of a package; `Error::Metadata` where it is no version.
pub(crate) fn version(alloc: Global, value: &Value) -> CargoResult<Version>
    ensures { MatchResult result (λ v. version_in_value (view value.now) ≡ Some (parts_of v))
        (IsReadingError (λ v. version_in_value (view value.now) ≡ Some v)) }
{
    let Some(text) = text_at(value, "version") else {
        return Err(Error::Metadata);
    };
    match read_version(alloc, text)? {
        Some(version) => Ok(version),
        None => Err(Error::Metadata),
    }
}

/// The Rust version of a package: none where it is absent, null or invalid; `Error::Metadata` where it holds
/// no string.
pub(crate) fn rust_version(alloc: Global, value: &Value) -> CargoResult<Option<RustVersion>>
    ensures { MatchResult result
        (λ v. rust_version_in_value (view value.now) ≡ Some (option_map numbers_of v))
        (IsReadingError (λ v. rust_version_in_value (view value.now) ≡ Some v)) }
{
    match maybe_text_at(value, "rust_version") {
        Some(Some(text)) => read_rust_version(alloc, text),
        Some(None) => Ok(None),
        None => Err(Error::Metadata),
    }
}
