//! Queries of the operating system.
ghost use Rattle.std.specs.Prelude.{◌≡◌, ◌⊎◌};
ghost use Rattle.edit_base.specs.declared.errors.Error.TheVariants.{Io, Memory};

use edit_base::paths::join;
use edit_base::{CargoResult, Error};
use std::env::VarError;
use std::io::{ErrorKind, Read};
use std::{env, io};

/// An environment variable, where it is set and not empty.
pub(crate) fn variable(rt: &HostRuntime, name: &str) -> CargoResult<Option<String>> {
    match env::var(rt, name) {
        Ok(text) if text.is_empty() => Ok(None),
        Ok(text) => Ok(Some(text)),
        Err(VarError::NotPresent) => Ok(None),
        Err(VarError::NotUnicode) => Err(Error::NotUtf8),
        Err(VarError::OutOfMemory) => Err(Error::Memory),
    }
}

/// Reads standard input to its end, but at most this number of bytes. No clause says which bytes those are.
pub fn read_input(rt: &HostRuntime, limit: u64) -> CargoResult<Vec<u8>> {
    let mut bytes = Vec::new(rt.alloc());
    match rt.stdin().take(limit).read_to_end(&mut bytes) {
        Ok(_) => Ok(bytes),
        Err(error) => Err(machine_error(error)),
    }
}

/// Converts an error of the operating system: lack of memory, or any other error, which is kept.
pub fn machine_error(error: io::Error) -> Error
    ensures { (result ≡ Memory) ⊎ (result ≡ Io error) }
{
    if error.kind() == ErrorKind::OutOfMemory {
        Error::Memory
    } else {
        Error::Io(error)
    }
}

/// The home folder of cargo: `CARGO_HOME`, else `.cargo` in `HOME`, else none. An empty variable counts as
/// unset. It reads the environment, so that no clause says what the result is.
pub fn cargo_home(rt: &HostRuntime) -> CargoResult<Option<String>> {
    if let Some(home) = variable(rt, "CARGO_HOME")? {
        return Ok(Some(home));
    }
    match variable(rt, "HOME")? {
        Some(home) => Ok(Some(join(rt.alloc(), home.as_str(), ".cargo")?)),
        None => Ok(None),
    }
}
