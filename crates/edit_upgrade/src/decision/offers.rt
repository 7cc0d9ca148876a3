//! Versions that an entry may be raised to, each with its text.
ghost use Rattle.std.specs.Prelude.{◌≡◌, IfErr, IfOk, map, option_map, string_bytes};
ghost use Rattle.edit_base.specs.Errors.{IsMemory};
ghost use Rattle.edit_version.specs.Candidates.{parts_in};
ghost use Rattle.edit_version.specs.Requirement.{plain_text};
ghost use Rattle.semver.specs.Identifiers.{parts_of};

use edit_base::CargoResult;
use semver::Version;
use std::alloc::{AllocError, Global};

/// A version that an entry may be raised to, and its text without build metadata.
#[derive(Drop)]
pub struct Offer<'a> {
    pub version: &'a Version,
    pub text: String,
    pub ghost plain: { string_bytes text ≡ plain_text (parts_of version.now) },
}

/// The text of a version, without its build metadata.
fn plain_version(alloc: Global, version: &Version) -> Result<String, AllocError>
    ensures { IfOk result (λ s. string_bytes s ≡ plain_text (parts_of version.now)) }
{
    let mut out = String::new(alloc);
    write!(out, "{}", version.major)?;
    out.push('.')?;
    write!(out, "{}", version.minor)?;
    out.push('.')?;
    write!(out, "{}", version.patch)?;
    if !version.pre.as_str().is_empty() {
        out.push('-')?;
        out.push_str(version.pre.as_str())?;
    }
    Ok(out)
}

/// Pairs a version with its text without build metadata.
pub fn offer_of<'a>(alloc: Global, version: Option<&'a Version>) -> CargoResult<Option<Offer<'a>>>
    ensures ok { IfOk result (λ o. option_map (λ f. parts_of f.version.now) o ≡ parts_in version.entry) }
    ensures error { IfErr result IsMemory }
{
    match version {
        Some(version) => {
            let text = plain_version(alloc, version)?;
            Ok(Some(Offer { version, text }))
        }
        None => Ok(None),
    }
}
