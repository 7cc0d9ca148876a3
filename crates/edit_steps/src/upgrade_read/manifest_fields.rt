//! The name and the Rust version of a manifest.
ghost use Rattle.std.specs.Prelude.{◌≡◌, IfErr, IfOk, option_map, string_bytes};
ghost use Rattle.edit_base.specs.Errors.{IsMemory};
ghost use Rattle.edit_metadata.specs.Inputs.{rust_version_for};
ghost use Rattle.edit_tree.specs.DocumentViews.{tree_of};
ghost use Rattle.edit_steps.specs.RequestView.{rust_request};
ghost use Rattle.edit_steps.specs.Own.{report_name, declared_rust, package_text};
ghost use Rattle.edit_version.specs.RustVersions.{numbers_of};

use crate::upgrade_read::source_request::RustChoice;
use edit_base::CargoResult;
use edit_document::Document;
use edit_version::{RustVersion, read_rust_version};
use std::alloc::Global;

/// The text of `package.KEY`, where it is a string.
fn package_text<'a>(document: &'a Document, key: &str) -> Option<&'a str>
    ensures { option_map (λ s. s.now) result ≡ package_text (tree_of document.entry.now) key.now }
{
    let root = document.item(&[])?;
    let package_item = root.get("package")?;
    let item = package_item.get(key)?;
    item.as_str()
}

/// The manifest's `rust-version`, where it has a valid one.
fn own_rust_version(alloc: Global, document: &Document) -> CargoResult<Option<RustVersion>>
    ensures ok { IfOk result (λ v. option_map numbers_of v ≡ declared_rust (tree_of document.now)) }
    ensures error { IfErr result IsMemory }
{
    let Some(text) = package_text(document, "rust-version") else {
        return Ok(None);
    };
    read_rust_version(alloc, text)
}

/// The Rust version to plan for.
pub(crate) fn rust_version_for(
    alloc: Global,
    choice: RustChoice,
    document: &Document,
) -> CargoResult<Option<RustVersion>>
    ensures ok { IfOk result (λ v. option_map numbers_of v
        ≡ rust_version_for (rust_request choice) (declared_rust (tree_of document.now))) }
    ensures error { IfErr result IsMemory }
{
    match choice {
        RustChoice::Own => own_rust_version(alloc, document),
        RustChoice::Ignored => Ok(None),
        RustChoice::Given(version) => Ok(Some(version)),
    }
}

/// The name of the manifest in reports.
pub(crate) fn report_name(alloc: Global, document: &Document) -> CargoResult<String>
    ensures ok { IfOk result (λ s. string_bytes s ≡ report_name (tree_of document.now)) }
    ensures error { IfErr result IsMemory }
{
    let name = package_text(document, "name").unwrap_or("virtual workspace");
    Ok(String::from_str(alloc, name)?)
}
