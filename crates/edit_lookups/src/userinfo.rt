//! Addresses without user names and passwords.
ghost use Rattle.std.specs.Prelude.{◌≡◌, ◌++◌, ◌-◌, ◌<◌, ◌≤◌, IfOk, codes, drop, length, slice_index, string_bytes};
ghost use Rattle.edit_lookups.specs.UserinfoAddresses.{ends_authority, strip_userinfo, userinfo_len};

use std::alloc::{AllocError, Global};

/// Whether a byte ends the authority of a URL: `/`, `?` or `#`.
fn ends_authority(b: u8) -> bool
    ensures { result ≡ ends_authority b }
{
    b == b'/' || b == b'?' || b == b'#'
}

/// The length of the userinfo at the start of a text, with its `@`: up to the last `@` before the first `/`,
/// `?` or `#`; 0 where there is none.
fn userinfo_len(text: &[u8]) -> usize
    ensures len { result ≡ userinfo_len text.now }
    ensures within { result ≤ length text.now }
    ensures behind { 0 < result → slice_index text.now (result - 1) ≡ 64 }
{
    let mut len = 0;
    for (i, b) in text.iter().enumerate() {
        if ends_authority(*b) {
            return len;
        }
        if *b == b'@' {
            len = i + 1;
        }
    }
    len
}

/// The text after the userinfo at its start.
fn without_userinfo(text: &str) -> &str
    ensures { result.now ≡ drop (userinfo_len text.now) text.now }
{
    let len = userinfo_len(text.as_bytes());
    &text[len..]
}

/// Joins a scheme, `//` and a text.
fn with_scheme(alloc: Global, scheme: &str, rest: &str) -> Result<String, AllocError>
    ensures { IfOk result (λ s. string_bytes s ≡ scheme.now ++ codes "//" ++ rest.now) }
{
    format!(in alloc; "{scheme}//{rest}")
}

/// Removes the userinfo from an address, for messages and for the names of folders.
///
/// The userinfo is the text between `//` and the last `@` before the next `/`, `?` or `#`. It is removed
/// with that `@`. The `//` has to begin at the first slash of the address.
pub fn strip_userinfo(alloc: Global, address: &str) -> Result<String, AllocError>
    ensures { IfOk result (λ s. string_bytes s ≡ strip_userinfo address.now) }
{
    let Some((scheme, rest)) = address.split_once('/') else {
        return String::from_str(alloc, address);
    };
    let Some(rest) = rest.strip_prefix('/') else {
        return String::from_str(alloc, address);
    };
    with_scheme(alloc, scheme, without_userinfo(rest))
}
