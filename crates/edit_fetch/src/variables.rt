//! Registries that environment variables define, as lines of a configuration file of cargo.
ghost use Rattle.std.specs.Prelude.{◌≡◌, ◌++◌, ◌<◌, ◌==◌, IfOk, OnOk, length, map};
ghost use Rattle.std.specs.List.{flat_map, list_any};
ghost use Rattle.edit_fetch.specs.Variables.{key_with_dashes, dashed_byte, default_registry_text, has_index_affixes, is_index_variable, is_name, is_name_byte, key_byte, registry_key, registry_line, registry_lines, registry_part, variable_lines, variable_texts};

use crate::toml_text::push_value_line;
use edit_sources::registry::CRATES_IO_INDEX;
use std::alloc::{AllocError, Global};

/// Whether a byte is allowed in the registry's part of a variable's name: an upper-case letter, a digit or
/// `_`.
fn is_name_byte(byte: u8) -> bool
    ensures { result ≡ is_name_byte byte }
{
    (b'A' <= byte && byte <= b'Z') || (b'0' <= byte && byte <= b'9') || byte == b'_'
}

/// The part of a variable's name between `CARGO_REGISTRIES_` and `_INDEX`, which have 23 bytes together.
fn registry_part(name: &[u8]) -> &[u8]
    requires { 23 < length name.now }
    ensures { result.now ≡ registry_part name.now }
{
    &name[17..name.len() - 6]
}

/// Whether a part of a variable's name can name a registry: upper-case letters, digits and `_`.
fn is_name(part: &[u8]) -> bool
    ensures { result ≡ is_name part.now }
{
    part.iter().all(|b| is_name_byte(*b))
}

/// Whether a name begins with `CARGO_REGISTRIES_` and ends with `_INDEX`.
fn has_index_affixes(name: &[u8]) -> bool
    ensures { result ≡ has_index_affixes name.now }
{
    name.starts_with(b"CARGO_REGISTRIES_") && name.ends_with(b"_INDEX")
}

/// Whether a variable of this name sets a registry's index.
fn is_index_variable(name: &[u8]) -> bool
    ensures { result ≡ is_index_variable name.now }
{
    23 < name.len() && has_index_affixes(name) && is_name(registry_part(name))
}

/// Maps a byte of a variable's name to that of a key: in lower case.
fn key_byte(byte: u8) -> u8
    ensures { result ≡ key_byte byte }
{
    byte.to_ascii_lowercase()
}

/// The key of a registry, from its part of a variable's name.
fn registry_key(alloc: Global, part: &[u8]) -> Result<Vec<u8>, AllocError>
    ensures { IfOk result (λ v. v.items ≡ registry_key part.now) }
{
    let mut key = Vec::new(alloc);
    for byte in part {
        key.push(key_byte(*byte))?;
    }
    Ok(key)
}

/// Returns `-` for `_`, and any other byte unchanged.
fn dashed_byte(byte: u8) -> u8
    ensures { result ≡ dashed_byte byte }
{
    if byte == b'_' { b'-' } else { byte }
}

/// Replaces each `_` of a key by `-`.
fn key_with_dashes(alloc: Global, key: &[u8]) -> Result<Vec<u8>, AllocError>
    ensures { IfOk result (λ v. v.items ≡ key_with_dashes key.now) }
{
    let mut dashed = Vec::new(alloc);
    for byte in key {
        dashed.push(dashed_byte(*byte))?;
    }
    Ok(dashed)
}

/// Appends the line that sets the index of a registry.
#[tactic(auto, unfolding(crate::specs::Variables::registry_line))]
fn push_registry(text: &mut Vec<u8>, key: &[u8], index: &[u8]) -> Result<(), AllocError>
    ensures { OnOk result (text.new.items ≡ text.old.items ++ registry_line key.now index.now) }
{
    text.extend_from_slice(b"registries.")?;
    text.extend_from_slice(key)?;
    text.extend_from_slice(b".index = ")?;
    push_value_line(text, index)?;
    Ok(())
}

/// Whether a key contains `_`.
fn has_underscore(key: &[u8]) -> bool
    ensures { result ≡ list_any (λ b. b == 95) key.now }
{
    key.iter().any(|b| *b == b'_')
}

/// Appends the lines that set the index of a registry: one for its key and, where the key contains `_`,
/// another for the key with `-` instead.
#[tactic(auto, unfolding(crate::specs::Variables::registry_lines))]
fn push_both(alloc: Global, text: &mut Vec<u8>, key: &[u8], index: &[u8]) -> Result<(), AllocError>
    ensures { OnOk result (text.new.items ≡ text.old.items ++ registry_lines key.now index.now) }
{
    push_registry(text, key, index)?;
    if has_underscore(key) {
        let key = key_with_dashes(alloc, key)?;
        push_registry(text, &key, index)?;
    }
    Ok(())
}

/// Appends the lines for a variable: none, unless it sets a registry's index.
#[tactic(auto, unfolding(crate::specs::Variables::variable_lines))]
fn push_variable(
    alloc: Global,
    text: &mut Vec<u8>,
    name: &[u8],
    value: &[u8],
) -> Result<(), AllocError>
    ensures { OnOk result (text.new.items ≡ text.old.items ++ variable_lines (name.now, value.now)) }
{
    if !is_index_variable(name) {
        return Ok(());
    }
    let key = registry_key(alloc, registry_part(name))?;
    push_both(alloc, text, &key, value)
}

/// The lines of a configuration file for the registries that environment variables define (Cargo reference,
/// "Environment Variables").
///
/// A variable `CARGO_REGISTRIES_NAME_INDEX`, where NAME consists of upper-case letters, digits and `_`, sets
/// the index of the registry `name`; where NAME contains `_`, also that of the registry with `-` for each
/// `_`, since cargo maps both names to this variable. Other variables are ignored. A value may be any text.
pub fn variables_text(alloc: Global, variables: &[(String, String)]) -> Result<Vec<u8>, AllocError>
    ensures { IfOk result (λ v. v.items ≡ flat_map variable_lines (map variable_texts variables.now)) }
{
    let mut text = Vec::new(alloc);
    for (name, value) in variables {
        push_variable(alloc, &mut text, name.as_bytes(), value.as_bytes())?;
    }
    Ok(text)
}

/// The line of a configuration file for cargo's built-in default: the URL of the default registry's index.
pub fn default_registry_text(alloc: Global) -> Result<Vec<u8>, AllocError>
    ensures { IfOk result (λ v. v.items ≡ default_registry_text) }
{
    let mut text = Vec::new(alloc);
    text.extend_from_slice(b"source.crates-io.registry = ")?;
    push_value_line(&mut text, CRATES_IO_INDEX.as_bytes())?;
    Ok(text)
}
