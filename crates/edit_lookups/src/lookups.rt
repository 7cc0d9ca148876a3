//! Lookups as lines of a file.
ghost use Rattle.std.specs.Prelude.{◌≡◌, List, false, true, IfOk, MatchOption, map};
ghost use Rattle.edit_lookups.specs.Lookups.{HasNo, IsLookup, LookupText, HasLookupLines, lookup_line, lookup_text};

use std::alloc::{AllocError, Global};

/// An index entry to look up: the address of its registry, the name of the crate, and the path of the entry's
/// file in the layout of an index, as `se/rd/serde`.
#[derive(Clone, Copy, Debug)]
pub struct Lookup<'a> {
    pub address: &'a str,
    pub name: &'a str,
    pub path: &'a str,
}

/// Whether a text contains a tab.
fn has_tab(text: &str) -> bool
    ensures free { result ≡ false → HasNo 9 text.now }
    ensures found { result ≡ true → HasNo 9 text.now → ⊥ }
{
    text.as_bytes().iter().any(|b| *b == b'\t')
}

/// Parses a line without its line end; `None` where it is not three fields separated by tabs.
fn read_line<'a>(line: &'a str) -> Option<Lookup<'a>>
    requires { HasNo 10 line.now }
    ensures { MatchOption result ((l : LookupText) → IsLookup l → line.now ≡ lookup_line l → ⊥)
        (λ l. IsLookup (lookup_text l) × (line.now ≡ lookup_line (lookup_text l))) }
{
    let Some((address, rest)) = line.split_once('\t') else {
        return None;
    };
    let Some((name, path)) = rest.split_once('\t') else {
        return None;
    };
    if has_tab(path) {
        return None;
    }
    Some(Lookup {
        address,
        name,
        path,
    })
}

/// Parses a text of lookups, in order; `None` where a line is not three fields separated by tabs with a line
/// end.
pub fn read_lookups<'a>(alloc: Global, text: &'a str) -> Result<Option<Vec<Lookup<'a>>>, AllocError>
    ensures { IfOk result (λ o. MatchOption o ((ls : List LookupText) → HasLookupLines text.now ls → ⊥)
        (λ v. HasLookupLines text.now (map lookup_text v.items))) }
{
    let mut lookups = Vec::new(alloc);
    let mut rest = text;
    while let Some((line, after)) = rest.split_once('\n') {
        let Some(lookup) = read_line(line) else {
            return Ok(None);
        };
        lookups.push(lookup)?;
        rest = after;
    }
    if rest.is_empty() {
        Ok(Some(lookups))
    } else {
        Ok(None)
    }
}
