//! The variables of the environment.

use edit_base::{CargoResult, Error};
use edit_store::{HostStore, Store};
use std::env::VarError;
use std::{env, str};

/// The name and the value of each environment variable. Where one is not UTF-8 it is left out, and the
/// others are read from the kernel.
pub(crate) fn variables(
    rt: &HostRuntime,
    files: &mut HostStore<HostRuntime>,
) -> CargoResult<Vec<(String, String)>> {
    match env::vars(rt) {
        Ok(variables) => Ok(variables.collect(rt.alloc())?),
        Err(VarError::OutOfMemory) => Err(Error::Memory),
        Err(_) => match files.read(rt.alloc(), "/proc/self/environ")? {
            Some(bytes) => readable_variables(rt, &bytes),
            None => Ok(Vec::new(rt.alloc())),
        },
    }
}

/// The variables in this text that are UTF-8, each terminated by U+0000.
fn readable_variables(rt: &HostRuntime, bytes: &[u8]) -> CargoResult<Vec<(String, String)>> {
    let mut variables = Vec::new(rt.alloc());
    for entry in bytes.split(|byte| *byte == 0) {
        if let Some((name, value)) = str::from_utf8(entry)
            .ok()
            .and_then(|text| text.split_once('='))
        {
            let name = String::from_str(rt.alloc(), name)?;
            variables.push((name, String::from_str(rt.alloc(), value)?))?;
        }
    }
    Ok(variables)
}
