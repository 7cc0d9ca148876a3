//! Words that name a crate, and perhaps a requirement.
ghost use Rattle.std.specs.Prelude.{◌≡◌, [], IfErr, IfOk, OnOk, None, Some, encode_utf8, length, map, option_map, string_bytes};
ghost use Rattle.std.specs.List.{after_first, before_first, filter};
ghost use Rattle.std.specs.Str.{chars};
ghost use Rattle.edit_base.specs.Errors.{IsMemory};
ghost use Rattle.edit_version.specs.CrateSpecs.{IsNamedBy, IsReadOrAbsent, IsInvalidName, IsInvalidSpecRequirement, IsInvalidSpec, is_name_char, joined_chars, invalid_chars, spec_name, spec_requirement};
ghost use Rattle.edit_version.specs.RequirementErrors.{IsInvalidRequirement};

use crate::requirement::parse_requirement;
use edit_base::errors::{CargoResult, Error};
use std::alloc::{AllocError, Global};
use unicode::properties::{GeneralCategory, GeneralCategoryGroup, is_alphabetic};

/// A crate's name, and perhaps a requirement.
#[derive(Debug, Drop)]
pub struct CrateSpec {
    pub name: String,
    pub version_req: Option<String>,
}

fn is_name_char(c: char) -> bool
    ensures { result ≡ is_name_char c }
{
    c == '-'
        || c == '_'
        || is_alphabetic(c)
        || GeneralCategoryGroup::Number.contains(GeneralCategory::for_char(c))
}

/// The characters of a name that no name may have.
fn invalid_chars(alloc: Global, name: &str) -> Result<Vec<char>, AllocError>
    ensures { IfOk result (λ v. v.items ≡ invalid_chars name.now) }
{
    name.chars().filter(|c| !is_name_char(*c)).collect(alloc)
}

/// Characters joined by a comma and a space.
fn joined_chars(alloc: Global, characters: &[char]) -> Result<String, AllocError>
    ensures { IfOk result (λ s. string_bytes s ≡ joined_chars characters.now) }
{
    let mut out = String::new(alloc);
    let [first, rest @ ..] = characters else {
        return Ok(out);
    };
    out.push(*first)?;
    'rest: for c in rest {
        out.push_str(", ")?;
        out.push(*c)?;
    }
    Ok(out)
}

/// Refuses a name with a character that no name may have.
fn check_name(alloc: Global, name: &str) -> CargoResult<()>
    ensures ok { OnOk result (invalid_chars name.now ≡ []) }
    ensures error { IfErr result (λ e. IsInvalidName name.now e) }
{
    let characters = invalid_chars(alloc, name)?;
    if characters.is_empty() {
        return Ok(());
    }
    Err(Error::InvalidName {
        name: String::from_str(alloc, name)?,
        characters: joined_chars(alloc, &characters)?,
    })
}

/// The requirement of a package spec, where it has a valid one.
fn check_requirement(alloc: Global, req: Option<&str>) -> CargoResult<Option<String>>
    ensures ok { IfOk result (λ o. (option_map string_bytes o ≡ option_map (λ s. s.now) req.entry)
        × IsReadOrAbsent (option_map (λ s. s.now) req.entry)) }
    ensures error { IfErr result (λ e. IsInvalidSpecRequirement (option_map (λ s. s.now) req.entry) e) }
{
    let Some(req) = req else {
        return Ok(None);
    };
    let _read = parse_requirement(alloc, req)?;
    Ok(Some(String::from_str(alloc, req)?))
}

/// A text before and after its first `@`.
fn split_arg(arg: &str) -> (&str, Option<&str>)
    ensures name { result.0.now ≡ spec_name arg.now }
    ensures requirement { option_map (λ s. s.now) result.1 ≡ spec_requirement arg.now }
{
    match arg.split_once('@') {
        Some((name, req)) => (name, Some(req)),
        None => (arg, None),
    }
}

impl CrateSpec {
    /// Reads a package spec such as `serde` or `serde@1.0`, of which the name may be empty.
    ///
    /// Refused with 20 where the name has a character that is no letter and no number of Unicode, no `-` and
    /// no `_`, and with 14 where the text after the first `@` is no requirement.
    pub fn resolve(alloc: Global, arg: &str) -> CargoResult<CrateSpec>
        ensures ok { IfOk result (λ s. IsNamedBy arg.now s) }
        ensures error { IfErr result (λ e. IsInvalidSpec arg.now e) }
    {
        let (name, req) = split_arg(arg);
        check_name(alloc, name)?;
        let version_req = check_requirement(alloc, req)?;
        Ok(CrateSpec {
            name: String::from_str(alloc, name)?,
            version_req,
        })
    }

    /// The same as `resolve`.
    pub fn from_str(alloc: Global, arg: &str) -> CargoResult<CrateSpec>
        ensures ok { IfOk result (λ s. IsNamedBy arg.now s) }
        ensures error { IfErr result (λ e. IsInvalidSpec arg.now e) }
    {
        CrateSpec::resolve(alloc, arg)
    }
}
