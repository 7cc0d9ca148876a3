//! The name of a registry's folder.
ghost use Rattle.std.specs.Prelude.{◌≡◌, IfOk, string_bytes};
ghost use Rattle.percent_encoding.specs.Percent.{percent_decode};
ghost use Rattle.url.specs.Parts.{serialize};
ghost use Rattle.edit_sources.specs.Folders.{registry_folder};

use percent_encoding::{AsciiSet, ascii_set, utf8_percent_encode};
use std::alloc::{AllocError, Global};
use url::Url;

/// The bytes that are escaped in the name of a folder: the path separator, and the escape character.
pub const ESCAPED: AsciiSet = ascii_set!(AsciiSet::EMPTY.add(b'%').add(b'/'));

/// Escapes each `%` and `/` of an address.
fn escape_address(alloc: Global, address: &str) -> Result<String, AllocError>
    ensures folder { IfOk result (λ f. string_bytes f ≡ registry_folder address.now) }
    ensures back { IfOk result (λ f. percent_decode (string_bytes f) ≡ address.now) }
{
    let mut folder = String::new(alloc);
    utf8_percent_encode(address, ESCAPED).append_to(&mut folder)?;
    Ok(folder)
}

/// The name of a registry's folder: its address, with `%25` for each `%` and `%2F` for each `/`.
pub fn registry_folder(alloc: Global, registry: &Url) -> Result<String, AllocError>
    ensures folder { IfOk result (λ f. string_bytes f ≡ registry_folder (serialize registry.now)) }
    // the address can be decoded again, so no two addresses share a folder
    ensures back { IfOk result (λ f. percent_decode (string_bytes f) ≡ serialize registry.now) }
{
    escape_address(alloc, registry.as_str())
}
