//! Calls of plans, rankings and readers, described by arguments.

use crate::cached::over_cache;
use crate::plans::{set_versions, show};
use crate::print_helpers::print_text;
use edit_base::{CargoResult, Error};
use edit_store::{HostStore, Store};
use edit_version::CrateSpec;
use std::str;

/// The bytes of a file.
fn bytes_of(rt: &HostRuntime, path: &str) -> CargoResult<Vec<u8>> {
    let mut files = HostStore::new(rt.clone()?);
    match files.read(rt.alloc(), path) {
        Ok(Some(bytes)) => Ok(bytes),
        Ok(None) => Err(Error::NoPath),
        Err(error) => Err(error),
    }
}

/// Prints the crate name in a `NAME@REQUIREMENT` argument.
fn show_name(rt: &HostRuntime, arg: &str) -> CargoResult<()> {
    let spec = CrateSpec::resolve(rt.alloc(), arg)?;
    show(rt, spec.name.as_bytes());
    Ok(())
}

/// Prints the crate name in the `NAME@REQUIREMENT` text of a file.
fn show_name_in_file(rt: &HostRuntime, path: &str) -> CargoResult<()> {
    let bytes = bytes_of(rt, path)?;
    show_name(rt, str::from_utf8(&bytes).unwrap_or(""))
}

/// A call: the function, the folder or file, and a name where the function needs one.
#[derive(Clone, Copy)]
pub(crate) struct Call<'a> {
    what: &'a str,
    at: &'a str,
    name: &'a str,
}

impl<'a> Call<'a> {
    /// Makes the call, which prints its result.
    fn make(self, rt: &HostRuntime) -> CargoResult<()> {
        match self.what {
            "upgrade" | "ranked" | "krate" => over_cache(rt, self.what, self.at, self.name),
            "set_version" => set_versions(rt, self.at, false),
            "apply" => set_versions(rt, self.at, true),
            _ => show_name_in_file(rt, self.at),
        }
    }

    /// Makes the call, and prints whether it failed.
    pub(crate) fn show(self, rt: &HostRuntime) {
        match self.make(rt) {
            Ok(()) => print_text(rt, "done\n"),
            Err(error) => print_text(rt, format_args!("refused {} {error}\n", error.number())),
        }
    }
}

/// The call that the arguments describe, if any.
pub(crate) fn planned_call(args: &[String]) -> Option<Call<'_>> {
    let what = args.first()?.as_str();
    if !matches!(
        what,
        "upgrade" | "ranked" | "krate" | "set_version" | "apply" | "spec"
    ) {
        return None;
    }
    let at = args.get(1)?.as_str();
    let name = match args.get(2) {
        Some(name) => name.as_str(),
        None => "",
    };
    Some(Call { what, at, name })
}
