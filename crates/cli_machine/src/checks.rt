//! Checks of the paths on the command line, before anything is read.
ghost use Rattle.std.specs.Prelude.{◌≡◌};

use crate::index_store::is_list;
use clap::ArgMatches;
use edit_base::CargoResult;
use edit_base::paths::{folder, join};
use edit_steps::absolute_path;
use std::fs;
use std::fs::Metadata;
use std::os::unix::fs::{FileTypeExt, MetadataExt};

/// The options that give a file to read.
const READ: [&str; 7] = [
    "manifest-path",
    "metadata-json",
    "index-file",
    "index-dir",
    "lock-file",
    "config",
    "default-config",
];

/// The names of files that cargo reads or writes: calls are never written over a file of these names.
const CARGO_NAMES: [&str; 4] = [
    "/Cargo.toml",
    "/Cargo.lock",
    "/.cargo/config.toml",
    "/.cargo/config",
];

/// The message for a file that has another use.
const OTHER_USE: &str = "the file is read or written as something else";

/// The names of a configuration file in the home folder of cargo.
const HOME_NAMES: [&str; 2] = ["config.toml", "config"];

/// The folders that the paths of a run are relative to.
#[derive(Clone, Copy)]
pub struct Folders<'a> {
    pub current: &'a str,
    /// The home folder of cargo, if it is known.
    pub home: Option<&'a str>,
}

impl<'a> Folders<'a> {
    /// The current folder, and the home folder of cargo if it is known.
    pub fn new(current: &'a str, home: Option<&'a str>) -> Folders<'a>
        ensures current { result.current ≡ current.entry }
        ensures home { result.home ≡ home.entry }
    {
        Folders { current, home }
    }
}

/// The index folder that is read: `None` where an index file is given too, which is another usage error.
pub fn index_folder<'a>(arguments: &ArgMatches<'a>) -> Option<&'a str> {
    match arguments.get_str("index-file") {
        Some(_) => None,
        None => arguments.get_str("index-dir"),
    }
}

/// What is wrong with the values of `-p`: a name is missing before `@`, as where a shell variable is unset.
fn package_fault(rt: &HostRuntime, arguments: &ArgMatches<'_>) -> CargoResult<Option<String>> {
    for named in arguments.get_strs("package").unwrap_or(&[]) {
        if named.starts_with('@') {
            let fault = format!(in rt.alloc();
                "invalid value '{named}' for '--package <PKGID[@<VERSION>]>': there is no name before `@`"
            )?;
            return Ok(Some(fault));
        }
    }
    Ok(None)
}

/// What is wrong with the names and the paths in the arguments of `upgrade`; `None` if nothing is. It looks
/// at the files of the machine, so that no clause says what the result is.
pub fn fault_of(
    rt: &HostRuntime,
    arguments: &ArgMatches<'_>,
    folders: Folders<'_>,
) -> CargoResult<Option<String>> {
    if let Some(fault) = package_fault(rt, arguments)? {
        return Ok(Some(fault));
    }
    if let Some(named) = index_folder(arguments) {
        let path = join(rt.alloc(), folders.current, named)?;
        if !is_index(rt, path.as_str())? {
            let fault = format!(in rt.alloc();
                "invalid value '{named}' for '--index-dir <DIR>': there is no such folder"
            )?;
            return Ok(Some(fault));
        }
    }
    match arguments.get_str("update-calls") {
        Some(named) => calls_fault(rt, arguments, folders, named),
        None => Ok(None),
    }
}

/// What is wrong with the path of the file for the calls.
fn calls_fault(
    rt: &HostRuntime,
    arguments: &ArgMatches<'_>,
    folders: Folders<'_>,
    named: &str,
) -> CargoResult<Option<String>> {
    let path = absolute_path(rt.alloc(), folders.current, named)?;
    let fault = if is_parted(arguments, folders.current) {
        Some("a call cannot name the workspace, since the path has a line end")
    } else if !is_folder(rt, folder(path.as_str())) {
        Some("there is no such folder")
    } else {
        place_fault(rt, arguments, folders, path.as_str())?
    };
    let Some(fault) = fault else {
        return Ok(None);
    };
    let fault = format!(in rt.alloc();
        "invalid value '{named}' for '--update-calls <FILE>': {fault}"
    )?;
    Ok(Some(fault))
}

/// Whether the path of the workspace contains a line end, which the file cannot represent: it has one
/// argument a line.
fn is_parted(arguments: &ArgMatches<'_>, current: &str) -> bool {
    match arguments.get_str("manifest-path") {
        Some(path) if path.starts_with('/') => path.contains('\n'),
        Some(path) => path.contains('\n') || current.contains('\n'),
        None => current.contains('\n'),
    }
}

/// What is wrong with the path of the file for the calls, in a folder that exists: what is there already, or
/// that cargo has a file of this name.
fn place_fault(
    rt: &HostRuntime,
    arguments: &ArgMatches<'_>,
    folders: Folders<'_>,
    path: &str,
) -> CargoResult<Option<&'static str>> {
    let Ok(found) = fs::metadata(rt, path) else {
        let is_taken = is_absent_input(rt, arguments, folders, path)?;
        return Ok(is_taken.then_some(OTHER_USE));
    };
    if found.is_dir() {
        return Ok(Some("it is a folder"));
    }
    if found.file_type().is_socket() {
        return Ok(Some("it is a socket"));
    }
    if found.is_file() && is_input(rt, arguments, folders, path, &found)? {
        return Ok(Some(OTHER_USE));
    }
    Ok(None)
}

/// Whether a file that does not exist has a name that cargo has for its files, or lies in the folder of the
/// index. Links on the way to its folder are followed.
fn is_absent_input(
    rt: &HostRuntime,
    arguments: &ArgMatches<'_>,
    folders: Folders<'_>,
    path: &str,
) -> CargoResult<bool> {
    let name = path.strip_prefix(folder(path)).unwrap_or(path);
    let mut real = real_path(rt, folder(path))?;
    if !name.starts_with('/') && !real.ends_with('/') {
        real.push('/')?;
    }
    real.push_str(name)?;
    if CARGO_NAMES.iter().any(|name| real.ends_with(*name)) {
        return Ok(true);
    }
    if let Some(home) = folders.home {
        let home = real_path(rt, home)?;
        for name in HOME_NAMES {
            if real == join(rt.alloc(), home.as_str(), name)? {
                return Ok(true);
            }
        }
    }
    match index_folder(arguments) {
        Some(named) => is_below(rt, folders.current, named, real.as_str()),
        None => Ok(false),
    }
}

/// Whether a file is one that cargo or this run reads or writes, under any name.
fn is_input(
    rt: &HostRuntime,
    arguments: &ArgMatches<'_>,
    folders: Folders<'_>,
    path: &str,
    found: &Metadata,
) -> CargoResult<bool> {
    let real = real_path(rt, path)?;
    if CARGO_NAMES.iter().any(|name| real.ends_with(*name)) {
        return Ok(true);
    }
    if is_named(rt, arguments, folders.current, found)? || is_of_home(rt, folders.home, found)? {
        return Ok(true);
    }
    match index_folder(arguments) {
        Some(named) => is_below(rt, folders.current, named, real.as_str()),
        None => Ok(false),
    }
}

/// Whether an option gives this file as one to read.
fn is_named(
    rt: &HostRuntime,
    arguments: &ArgMatches<'_>,
    current: &str,
    found: &Metadata,
) -> CargoResult<bool> {
    for option in READ {
        if let Some(named) = arguments.get_str(option) {
            let path = join(rt.alloc(), current, named)?;
            if is_at(rt, path.as_str(), found) {
                return Ok(true);
            }
        }
    }
    Ok(false)
}

/// Whether this file is a configuration file in the home folder of cargo.
fn is_of_home(rt: &HostRuntime, home: Option<&str>, found: &Metadata) -> CargoResult<bool> {
    let Some(home) = home else {
        return Ok(false);
    };
    for name in HOME_NAMES {
        let path = join(rt.alloc(), home, name)?;
        if is_at(rt, path.as_str(), found) {
            return Ok(true);
        }
    }
    Ok(false)
}

/// Whether a path without symbolic links is in the given folder.
fn is_below(rt: &HostRuntime, current: &str, named: &str, real: &str) -> CargoResult<bool> {
    let path = join(rt.alloc(), current, named)?;
    let mut index = real_path(rt, path.as_str())?;
    index.push('/')?;
    Ok(real.starts_with(index.as_str()))
}

/// Whether this file is at a path, after symbolic links are followed: the same inode of the same device.
fn is_at(rt: &HostRuntime, path: &str, found: &Metadata) -> bool {
    match fs::metadata(rt, path) {
        Ok(other) => other.dev() == found.dev() && other.ino() == found.ino(),
        Err(_) => false,
    }
}

/// Whether there is an index at a path, after symbolic links are followed: a folder, or a list of entries.
fn is_index(rt: &HostRuntime, path: &str) -> CargoResult<bool> {
    match fs::metadata(rt, path) {
        Ok(found) if found.is_file() => is_list(rt, path),
        Ok(found) => Ok(found.is_dir()),
        Err(_) => Ok(false),
    }
}

/// Whether there is a folder at a path, after symbolic links are followed.
fn is_folder(rt: &HostRuntime, path: &str) -> bool {
    match fs::metadata(rt, path) {
        Ok(found) => found.is_dir(),
        Err(_) => false,
    }
}

/// A path without symbolic links; unchanged where it cannot be resolved.
fn real_path(rt: &HostRuntime, path: &str) -> CargoResult<String> {
    if let Ok(real) = fs::canonicalize(rt, path) {
        if let Some(text) = real.as_path().to_str() {
            return Ok(String::from_str(rt.alloc(), text)?);
        }
    }
    Ok(String::from_str(rt.alloc(), path)?)
}
