//! Checks whether a body is an index file.
ghost use Rattle.std.specs.Prelude.{◌≡◌, ◌↔◌, All, IsTrue, IfOk, MatchOption, map, string_bytes};
ghost use Rattle.edit_answers.specs.Bodies.{AreNamed, EndsLine, IsDamaged, IsSameName, IsWholeIndex};
ghost use Rattle.edit_version.specs.IndexEntry.{entry_of};

use edit_base::{CargoResult, Error};
use edit_sources::index_lines::read_lines;
use edit_version::fetch::IndexVersion;
use std::alloc::{AllocError, Global};

/// Why a body is not a complete index file of a crate.
#[derive(Clone, Copy, Debug)]
pub enum Damage {
    /// The line of this number, from 1, is the first malformed one.
    BadLine(usize),
    /// No line is malformed, but the body has no entry, does not end with a line end, or has an entry of
    /// another crate.
    NotWhole,
}

/// Whether an entry has this name, ignoring ASCII case.
fn is_named(entry: &IndexVersion, name: &str) -> bool
    ensures { IsTrue result ↔ IsSameName (string_bytes entry.now.name) name.now }
{
    entry
        .name
        .as_str()
        .as_bytes()
        .eq_ignore_ascii_case(name.as_bytes())
}

/// Whether each entry has this name.
fn all_named(entries: &[IndexVersion], name: &str) -> bool
    ensures { IsTrue result ↔ All (λ v. IsSameName (string_bytes v.name) name.now) entries.now }
{
    entries.iter().all(|entry| is_named(entry, name))
}

/// Whether there are entries, and each has this name.
fn are_named(entries: &[IndexVersion], name: &str) -> bool
    ensures { IsTrue result ↔ AreNamed (map entry_of entries.now) name.now }
{
    !entries.is_empty() && all_named(entries, name)
}

/// Whether a text ends with a line feed.
fn ends_with_line_end(body: &[u8]) -> bool
    ensures { IsTrue result ↔ EndsLine body.now }
{
    match body {
        [.., last] => *last == b'\n',
        [] => false,
    }
}

/// Why a body is not a complete index file of a crate; `None` if it is one: it ends with a line end, it has
/// entries, no line is malformed, and each entry has the name of the crate, ignoring ASCII case.
pub fn damage_of(alloc: Global, name: &str, body: &[u8]) -> Result<Option<Damage>, AllocError>
    ensures { IfOk result (λ o. MatchOption o (IsWholeIndex name.now body.now)
        (IsDamaged name.now body.now)) }
{
    match read_lines(alloc, body) {
        Ok(entries) => {
            if !ends_with_line_end(body) {
                return Ok(Some(Damage::NotWhole));
            }
            if !are_named(&entries, name) {
                return Ok(Some(Damage::NotWhole));
            }
            Ok(None)
        }
        Err(Error::IndexLine { line }) => Ok(Some(Damage::BadLine(line))),
        // the only other error is lack of memory
        Err(_) => Err(AllocError),
    }
}
