//! The authentication tokens of registries.
ghost use Rattle.std.specs.Prelude.{◌≡◌, ◌<◌, ℕ, List, IfOk, IfSome, MatchOption, option_map, string_bytes};
ghost use Rattle.std.specs.Str.{IsAscii};
ghost use Rattle.edit_fetch.specs.Tokens.{IsAddressOf, IsTokenOf, provider_variable, registry_variable, token_of, token_variable, variable_byte};

use std::alloc::{AllocError, Global};
use url::{ParseError, Url};

/// The authentication token of a registry.
#[derive(Clone, Copy, Debug)]
pub struct Token<'a> {
    /// The address of the registry's index, as in lookups.
    pub address: &'a str,
    /// The token, as in the header `Authorization`.
    pub token: &'a str,
}

/// The token of the first registry with this address.
fn first_token<'a>(tokens: &[Token<'a>], address: &str) -> Option<&'a str>
    ensures { option_map (λ t. t.now) result ≡ token_of tokens.now address.now }
{
    let found = tokens.iter().find(|token| token.address == address)?;
    Some(found.token)
}

/// The token of the registry with this address, the first if there are several.
pub(crate) fn token_of<'a>(tokens: &[Token<'a>], address: &str) -> Option<&'a str>
    ensures first { option_map (λ t. t.now) result ≡ token_of tokens.now address.now }
    // a token is never sent to another registry
    ensures own { IfSome result (λ t. IsTokenOf tokens.now address.now t.now) }
{
    let token = first_token(tokens, address)?;
    Some(token)
}

/// Maps a byte of a registry's name to that of the environment variable: upper case, and `_` for `-`.
fn variable_byte(byte: u8) -> u8
    ensures byte { result ≡ variable_byte byte }
    ensures ascii { byte < 128 → result < 128 }
{
    if byte == b'-' {
        b'_'
    } else {
        byte.to_ascii_uppercase()
    }
}

/// The name of the environment variable for a setting of a registry; `None` where the registry's name is not
/// ASCII.
fn registry_variable(alloc: Global, name: &str, ending: &str) -> Result<Option<String>, AllocError>
    ensures { IfOk result (λ o. MatchOption o (IsAscii name.now → ⊥)
        (λ s. string_bytes s ≡ registry_variable name.now ending.now)) }
{
    let mut variable = String::from_str(alloc, "CARGO_REGISTRIES_")?;
    for byte in name.as_bytes() {
        if *byte >= 128 {
            return Ok(None);
        }
        variable.push(char::from(variable_byte(*byte)))?;
    }
    variable.push_str(ending)?;
    Ok(Some(variable))
}

/// The name of the environment variable with the token of a registry; `None` where the registry's name is
/// not ASCII.
pub fn token_variable(alloc: Global, name: &str) -> Result<Option<String>, AllocError>
    ensures { IfOk result (λ o. MatchOption o (IsAscii name.now → ⊥)
        (λ s. string_bytes s ≡ token_variable name.now)) }
{
    registry_variable(alloc, name, "_TOKEN")
}

/// The name of the environment variable with the credential provider of a registry; `None` where the
/// registry's name is not ASCII.
pub fn provider_variable(alloc: Global, name: &str) -> Result<Option<String>, AllocError>
    ensures { IfOk result (λ o. MatchOption o (IsAscii name.now → ⊥)
        (λ s. string_bytes s ≡ provider_variable name.now)) }
{
    registry_variable(alloc, name, "_CREDENTIAL_PROVIDER")
}

/// Normalises the address of an index, as in lookups; `None` where the text is no URL.
pub fn registry_address(alloc: Global, index: &str) -> Result<Option<String>, AllocError>
    ensures { IfOk result (λ o. MatchOption o ((address : List ℕ) → IsAddressOf index.now address → ⊥)
        (λ s. IsAddressOf index.now (string_bytes s))) }
{
    match Url::parse(alloc, index) {
        Ok(url) => Ok(Some(String::from_str(alloc, url.as_str())?)),
        // (a URL of 4 GB or more counts as lack of memory)
        Err(ParseError::OutOfMemory | ParseError::Overflow) => Err(AllocError),
        Err(_) => Ok(None),
    }
}
