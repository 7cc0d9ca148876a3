//! The network settings of a configuration file.
ghost use Rattle.std.specs.Prelude.{◌≡◌, ◌⊎◌, true, IfErr, IfOk, option_and_then, option_map, string_bytes};
ghost use Rattle.edit_base.specs.Errors.{IsMemory};
ghost use Rattle.edit_base.specs.Paths.{joined};
ghost use Rattle.edit_fetch.specs.Settings.{IsReadAt, HasValues, count_of, value_in, values_in, values_of};
ghost use Rattle.edit_sources.specs.ConfigurationFiles.{HasFailed};
ghost use Rattle.edit_store.specs.Store.{OnlyReads};
ghost use Rattle.toml.specs.Data.{as_bool, as_integer, as_str, as_table, get_member};
ghost use Rattle.toml.specs.View.{table_view, view};

use super::{NetValues, no_values};
use edit_base::paths::{folder, join};
use edit_base::{CargoResult, Error};
use edit_store::Store;
use std::alloc::{AllocError, Global};
use toml::{Table, Value};

/// Returns the value of a key in a table.
fn value_at<'a>(table: &'a Table, key: &str) -> Option<&'a Value>
    ensures { option_map (λ v. view v.now) result ≡ get_member key.now (table_view table.now) }
{
    table.get(key)
}

/// Returns the value of a key in a table of a document.
fn value_in<'a>(document: &'a Table, table: &str, key: &str) -> Option<&'a Value>
    ensures { option_map (λ v. view v.now) result ≡ value_in table.now key.now (table_view document.now) }
{
    let table = value_at(document, table)?.as_table()?;
    value_at(table, key)
}

/// The boolean of a key in a table of a document.
fn flag_in(document: &Table, table: &str, key: &str) -> Option<bool>
    ensures { result ≡ option_and_then as_bool (value_in table.now key.now (table_view document.now)) }
{
    value_in(document, table, key)?.as_bool()
}

/// Converts an integer to `u32`, if it is in range.
fn count_of(integer: i64) -> Option<u32>
    ensures { result ≡ count_of integer }
{
    u32::try_from(integer).ok()
}

/// The number of a key in a table of a document.
fn count_in(document: &Table, table: &str, key: &str) -> Option<u32>
    ensures { result ≡ option_and_then count_of
        (option_and_then as_integer (value_in table.now key.now (table_view document.now))) }
{
    count_of(value_in(document, table, key)?.as_integer()?)
}

/// The string of a key in a table of a document.
fn text_in<'a>(document: &'a Table, table: &str, key: &str) -> Option<&'a str>
    ensures { option_map (λ t. t.now) result
        ≡ option_and_then as_str (value_in table.now key.now (table_view document.now)) }
{
    value_in(document, table, key)?.as_str()
}

/// Returns an owned copy of a string, if there is one.
fn clone_setting(alloc: Global, text: Option<&str>) -> Result<Option<String>, AllocError>
    ensures { IfOk result (λ t. option_map string_bytes t ≡ option_map (λ s. s.now) text.entry) }
{
    match text {
        Some(text) => Ok(Some(String::from_str(alloc, text)?)),
        None => Ok(None),
    }
}

/// Joins a folder and a path, if there is one.
fn path_below(alloc: Global, base: &str, path: Option<&str>) -> CargoResult<Option<String>>
    ensures path { IfOk result (λ t. option_map string_bytes t
        ≡ option_map (λ p. joined base.now p.now) path.entry) }
    ensures error { IfErr result IsMemory }
{
    match path {
        Some(path) => Ok(Some(join(alloc, base, path)?)),
        None => Ok(None),
    }
}

/// The network settings of a document; relative paths are joined to `base`.
fn values_in(alloc: Global, base: &str, document: &Table) -> CargoResult<NetValues>
    ensures values { IfOk result (λ v. values_of v ≡ values_in base.now (table_view document.now)) }
    ensures error { IfErr result IsMemory }
{
    Ok(NetValues {
        offline: flag_in(document, "net", "offline"),
        retry: count_in(document, "net", "retry"),
        timeout: count_in(document, "http", "timeout"),
        proxy: clone_setting(alloc, text_in(document, "http", "proxy"))?,
        cainfo: path_below(alloc, base, text_in(document, "http", "cainfo"))?,
    })
}

/// The network settings of the bytes of a file; none where they are not TOML.
fn values_of_bytes(alloc: Global, base: &str, bytes: &[u8]) -> CargoResult<NetValues>
    ensures says { IfOk result (λ v. HasValues base.now bytes.now (values_of v)) }
    ensures error { IfErr result IsMemory }
{
    let Ok(text) = std::str::from_utf8(bytes) else {
        return Ok(no_values());
    };
    match toml::table_from_str(alloc, text) {
        Ok(document) => match values_in(alloc, base, &document) {
            Ok(values) => Ok(values),
            Err(error) => Err(error),
        },
        Err(error) if error.is_memory() => Err(Error::Memory),
        Err(_) => Ok(no_values()),
    }
}

/// The network settings of the file at a path. Relative paths in it are joined to the parent of the file's
/// folder.
pub(super) fn values_at<S: Store>(
    alloc: Global,
    store: &mut S,
    path: &str,
) -> CargoResult<NetValues>
    ensures store { OnlyReads (S.view store.old) (S.view store.new) }
    ensures read { IfOk result (λ v. (S.view store.old).tells ≡ true
        → IsReadAt path.now ((S.view store.old).file_at path.now) (values_of v)) }
    ensures error { IfErr result (λ e. IsMemory e
        ⊎ HasFailed (S.view store.old).faults (S.view store.new).faults e) }
{
    match store.read(alloc, path) {
        Ok(Some(bytes)) => match values_of_bytes(alloc, folder(folder(path)), &bytes) {
            Ok(values) => Ok(values),
            Err(error) => Err(error),
        },
        Ok(None) => Ok(no_values()),
        Err(error) => Err(error),
    }
}
