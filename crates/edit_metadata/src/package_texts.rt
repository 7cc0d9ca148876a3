//! Reads the packages in the output of `cargo metadata`, token by token.
ghost use Rattle.std.specs.Prelude.{◌<◌, List, length, map, IfOk, IfSome};
ghost use Rattle.std.specs.List.{AllZip};
ghost use Rattle.edit_json.specs.Reads.{ReadsValue};
ghost use Rattle.edit_metadata.specs.Metadata.{IsText, values};
ghost use Rattle.edit_metadata.specs.Texts.{HasPackageTexts};
ghost use Rattle.serde_json.specs.Data.{Data, Items, Members, array, object, put};

use edit_json::{read_optional_text, read_text, skip_value};
use json::{Reader, Token};
use std::alloc::{AllocError, Global};

/// The members of a package that a `Package` is built from. Of a repeated key the last value counts.
#[derive(Clone, Copy, Drop)]
pub(crate) struct PackageTexts<'a> {
    pub(crate) name: Option<&'a str>,
    pub(crate) id: Option<&'a str>,
    pub(crate) manifest_path: Option<&'a str>,
    pub(crate) version: Option<&'a str>,
    /// `None` where it is absent or null.
    pub(crate) source: Option<&'a str>,
    /// `None` where it is absent or null.
    pub(crate) rust_version: Option<&'a str>,
}

/// Reads the value of a package's key into its field, or skips it.
fn read_member<'a>(
    reader: &mut Reader<'a>,
    key: &str,
    mut texts: PackageTexts<'a>,
) -> Option<PackageTexts<'a>>
    ensures shorter { IfSome result (λ _. length reader.new < length reader.old) }
    ensures value { IfSome result (λ p. (d : Data) × ReadsValue 124 reader.old d reader.new
        × ((ms : Members) → HasPackageTexts (object ms) texts.entry
        → HasPackageTexts (object (put key.now d ms)) p)) }
{
    if key == "name" {
        texts.name = Some(read_text(reader)?);
        return Some(texts);
    }
    if key == "id" {
        texts.id = Some(read_text(reader)?);
        return Some(texts);
    }
    if key == "manifest_path" {
        texts.manifest_path = Some(read_text(reader)?);
        return Some(texts);
    }
    if key == "version" {
        texts.version = Some(read_text(reader)?);
        return Some(texts);
    }
    if key == "source" {
        texts.source = read_optional_text(reader)?;
        return Some(texts);
    }
    if key == "rust_version" {
        texts.rust_version = read_optional_text(reader)?;
        return Some(texts);
    }
    skip_value(reader, 124)?;
    Some(texts)
}

/// Reads a package; `None` where it has to be parsed by way of a tree.
fn read_package<'a>(reader: &mut Reader<'a>) -> Option<PackageTexts<'a>>
    ensures shorter { IfSome result (λ _. length reader.new < length reader.old) }
    ensures value { IfSome result
        (λ p. (d : Data) × ReadsValue 125 reader.old d reader.new × HasPackageTexts d p) }
{
    let Some(Token::BeginObject) = reader.next() else {
        return None;
    };
    let mut texts = PackageTexts {
        name: None,
        id: None,
        manifest_path: None,
        version: None,
        source: None,
        rust_version: None,
    };
    while let Some(key) = reader.next_key().ok()? {
        texts = read_member(reader, key, texts)?;
    }
    Some(texts)
}

/// Reads an array of packages; `None` where it has to be parsed by way of a tree.
pub(crate) fn read_packages<'a>(
    alloc: Global,
    reader: &mut Reader<'a>,
) -> Result<Option<Vec<PackageTexts<'a>>>, AllocError>
    ensures shorter { IfOk result (λ o. IfSome o (λ _. length reader.new < length reader.old)) }
    ensures value { IfOk result (λ o. IfSome o (λ v. (ds : Items)
        × ReadsValue 126 reader.old (array ds) reader.new
        × AllZip HasPackageTexts (values ds) v.items)) }
{
    let Some(Token::BeginArray) = reader.next() else {
        return Ok(None);
    };
    let mut packages = Vec::new(alloc);
    while !reader.take_end_array() {
        let Some(texts) = read_package(reader) else {
            return Ok(None);
        };
        packages.push(texts)?;
    }
    Ok(Some(packages))
}

/// Reads an array of strings; `None` where it has to be parsed by way of a tree.
pub(crate) fn read_texts<'a>(
    alloc: Global,
    reader: &mut Reader<'a>,
) -> Result<Option<Vec<&'a str>>, AllocError>
    ensures shorter { IfOk result (λ o. IfSome o (λ _. length reader.new < length reader.old)) }
    ensures value { IfOk result (λ o. IfSome o (λ v. (ds : Items)
        × ReadsValue 126 reader.old (array ds) reader.new
        × AllZip IsText (values ds) (map (λ s. s.now) v.items))) }
{
    let Some(Token::BeginArray) = reader.next() else {
        return Ok(None);
    };
    let mut texts = Vec::new(alloc);
    while !reader.take_end_array() {
        let Some(text) = read_text(reader) else {
            return Ok(None);
        };
        texts.push(text)?;
    }
    Ok(Some(texts))
}
