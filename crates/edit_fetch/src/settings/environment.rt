//! The network settings of the environment.
ghost use Rattle.std.specs.Prelude.{◌≡◌, IfOk, option_map, string_bytes};
ghost use Rattle.edit_fetch.specs.Settings.{ReadsCount, flag_of};

use super::NetValues;
use std::alloc::{AllocError, Global};

/// The values of the environment variables for network settings, as far as they are set.
#[derive(Clone, Copy, Debug)]
pub struct Environment<'a> {
    /// `CARGO_NET_OFFLINE`, `true` or `false`.
    pub offline: Option<&'a str>,
    /// `CARGO_NET_RETRY`, a number.
    pub retry: Option<&'a str>,
    /// `CARGO_HTTP_TIMEOUT`, a number of seconds.
    pub timeout: Option<&'a str>,
    /// `CARGO_HTTP_PROXY`.
    pub proxy: Option<&'a str>,
    /// `CARGO_HTTP_CAINFO`, a path.
    pub cainfo: Option<&'a str>,
}

/// Parses a boolean; `None` where the text is neither `true` nor `false`.
fn flag_of(text: &str) -> Option<bool>
    ensures { result ≡ flag_of text.now }
{
    if text == "true" {
        Some(true)
    } else if text == "false" {
        Some(false)
    } else {
        None
    }
}

/// Parses a number; `None` where the text is no number of 32 bits.
fn count_of(text: Option<&str>) -> Option<u32>
    ensures { ReadsCount (option_map (λ t. t.now) text.entry) result }
{
    match text?.parse::<u32>() {
        Ok(count) => Some(count),
        Err(_) => None,
    }
}

/// Returns an owned copy of a string, if there is one.
fn clone_setting(alloc: Global, text: Option<&str>) -> Result<Option<String>, AllocError>
    ensures { IfOk result (λ t. option_map string_bytes t ≡ option_map (λ s. s.now) text.entry) }
{
    match text {
        Some(text) => Ok(Some(String::from_str(alloc, text)?)),
        None => Ok(None),
    }
}

impl Environment<'_> {
    ghost use Rattle.edit_fetch.specs.Settings.{IsEnvironment, values_of};

    /// The network settings of the environment. A text that cannot be parsed is ignored.
    pub(super) fn values(&self, alloc: Global) -> Result<NetValues, AllocError>
        ensures { IfOk result (λ v. IsEnvironment self.now (values_of v)) }
    {
        Ok(NetValues {
            offline: self.offline.and_then(flag_of),
            retry: count_of(self.retry),
            timeout: count_of(self.timeout),
            proxy: clone_setting(alloc, self.proxy)?,
            cainfo: clone_setting(alloc, self.cainfo)?,
        })
    }
}
