//! The path of a crate's file in the layout of an index (Cargo reference, "Index files").
ghost use Rattle.std.specs.Prelude.{◌≡◌, [], ◌∷◌, ◌++◌, ◌<◌, ◌⊎◌, true, All, IfErr, IfOk, OnOk, string_bytes};
ghost use Rattle.edit_base.specs.Errors.{IsMemory, number_of};
ghost use Rattle.edit_sources.specs.Folders.{HasBadName};
ghost use Rattle.edit_sources.specs.Index.{bad_name, lookup_error};
ghost use Rattle.edit_sources.specs.Names.{folders, is_crate_name, layout};

use crate::crate_name::is_crate_name;
use edit_base::errors::{CargoResult, Error};
use std::alloc::{AllocError, Global};

/// The path of a crate's file below the folder of its index; `Error::BadCrateName` for a name that no index
/// may contain.
pub fn layout_path(alloc: Global, name: &str) -> CargoResult<String>
    ensures path { IfOk result (λ p. string_bytes p ≡ layout name.now) }
    ensures named { OnOk result (is_crate_name name.now ≡ true) }
    ensures error { IfErr result (λ e. IsMemory e ⊎ HasBadName name.now (number_of e)) }
    ensures names { IfErr result (λ e. IsMemory e ⊎ (lookup_error e ≡ bad_name name.now)) }
{
    if !is_crate_name(name) {
        return Err(Error::BadCrateName {
            name: String::from_str(alloc, name)?,
        });
    }
    Ok(lower_layout(alloc, name)?)
}

/// The folders of a crate's file and its name, in lower case.
fn lower_layout(alloc: Global, name: &str) -> Result<String, AllocError>
    requires { is_crate_name name.now ≡ true }
    ensures { IfOk result (λ p. string_bytes p ≡ layout name.now) }
{
    let small = name.to_ascii_lowercase(alloc)?;
    let mut path = String::new(alloc);
    push_folders(&mut path, small.as_bytes())?;
    path.push_str(small.as_str())?;
    Ok(path)
}

/// Appends the folders of a crate's file, each with a `/`, for a name in lower case.
pub(crate) fn push_folders(path: &mut String, name: &[u8]) -> Result<(), AllocError>
    requires { All (λ b. b < 128) name.now }
    ensures { OnOk result (string_bytes path.new ≡ string_bytes path.old ++ folders name.now) }
{
    match name {
        [] => Ok(()),
        [_] => path.push_str("1/"),
        [_, _] => path.push_str("2/"),
        [a, _, _] => {
            path.push_str("3/")?;
            path.push(char::from(*a))?;
            path.push_str("/")
        }
        [a, b, c, d, ..] => {
            push_pair(path, *a, *b)?;
            push_pair(path, *c, *d)
        }
    }
}

/// Appends a folder of two letters and a `/`.
fn push_pair(path: &mut String, a: u8, b: u8) -> Result<(), AllocError>
    requires first { a < 128 }
    requires second { b < 128 }
    ensures { OnOk result (string_bytes path.new ≡ string_bytes path.old ++ a ∷ b ∷ 47 ∷ []) }
{
    path.push(char::from(a))?;
    path.push(char::from(b))?;
    path.push_str("/")
}
