//! To which URLs a token may be sent.
ghost use Rattle.std.specs.Prelude.{◌≡◌, ◌==◌};
ghost use Rattle.std.specs.List.{list_any};
ghost use Rattle.edit_fetch.specs.Transfers.{begins_at_loopback, has_either, is_https, is_loopback, is_secure};

/// Whether a URL has the scheme `https`.
pub(crate) fn is_https(url: &[u8]) -> bool
    ensures { result ≡ is_https url.now }
{
    url.starts_with(b"https://")
}

/// Whether a URL begins with one of two texts.
#[tactic(auto, unfolding(crate::specs::Transfers::has_either))]
fn has_either(url: &[u8], first: &[u8], second: &[u8]) -> bool
    ensures { result ≡ has_either url.now first.now second.now }
{
    url.starts_with(first) || url.starts_with(second)
}

/// Whether a URL names the loopback interface directly after its scheme.
fn begins_at_loopback(url: &[u8]) -> bool
    ensures { result ≡ begins_at_loopback url.now }
{
    has_either(url, b"http://localhost/", b"http://localhost:")
        || has_either(url, b"http://127.0.0.1/", b"http://127.0.0.1:")
        || has_either(url, b"http://[::1]/", b"http://[::1]:")
}

/// Whether a URL contains `@`.
fn has_at_sign(url: &[u8]) -> bool
    ensures { result ≡ list_any (λ b. b == 64) url.now }
{
    url.iter().any(|b| *b == b'@')
}

/// Whether a URL leads to the loopback interface; one with `@` never counts.
fn is_loopback(url: &[u8]) -> bool
    ensures { result ≡ is_loopback url.now }
{
    !has_at_sign(url) && begins_at_loopback(url)
}

/// Whether a token may be sent to a URL: only over TLS or to the loopback interface.
pub fn is_secure(url: &[u8]) -> bool
    ensures { result ≡ is_secure url.now }
{
    is_https(url) || is_loopback(url)
}
