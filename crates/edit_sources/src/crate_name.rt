//! The crate names that an index may contain.
ghost use Rattle.std.specs.Prelude.{◌≡◌};
ghost use Rattle.std.specs.List.{list_all};
ghost use Rattle.edit_sources.specs.Names.{is_name_byte, is_crate_name};

/// Whether an index may contain a crate of this name: 1 to 64 of `A-Z a-z 0-9 - _`.
pub fn is_crate_name(name: &str) -> bool
    ensures { result ≡ is_crate_name name.now }
{
    if name.is_empty() || name.len() > 64 {
        return false;
    }
    are_name_bytes(name.as_bytes())
}

/// Whether each byte is allowed in a crate's name.
fn are_name_bytes(name: &[u8]) -> bool
    ensures { result ≡ list_all is_name_byte name.now }
{
    name.iter().all(|b| is_name_byte(*b))
}

/// Whether a byte is allowed in a crate's name.
fn is_name_byte(b: u8) -> bool
    ensures { result ≡ is_name_byte b }
{
    b.is_ascii_uppercase() || b.is_ascii_lowercase() || b.is_ascii_digit() || b == b'-' || b == b'_'
}
