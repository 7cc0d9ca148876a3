//! The configuration file that caused an error.
ghost use Rattle.std.specs.Prelude.{◌≡◌, ◌<◌, ◌^◌};
ghost use Rattle.edit_store.specs.Store.{OnlyReads};

use crate::reread::at_first;
use crate::run_error::{RunError, shown_position};
use crate::toml_fault::toml_fault;
use edit_base::paths::{folder, join};
use edit_base::{CargoResult, Error};
use edit_metadata::Input;
use edit_sources::Config;
use edit_store::Store;
use std::alloc::Global;
use std::collections::BTreeSet;

/// The help for a configuration that is TOML but has values of other types.
const SHAPE: &str =
    "`registries` and `source` have to be tables of tables, and `index`, `registry` and `replace-with` in \
     these strings";

/// The help for a configuration that is well-formed itself.
const INCLUDE: &str =
    "`include` has to be an array of paths that end in `.toml`, or of tables with such a `path`; a file may \
     be included only once, and at most 128 files in all";

/// The help for a configuration file that does not exist.
const ABSENT: &str = "another configuration file includes this one, and it does not exist";

/// Adds the two paths of a folder's configuration, unless the folder was added before.
fn push_files(
    alloc: Global,
    folder: &str,
    seen: &mut BTreeSet<String>,
    paths: &mut Vec<String>,
) -> CargoResult<()> {
    if seen.insert(String::from_str(alloc, folder)?)? {
        paths.push(join(alloc, folder, "config")?)?;
        paths.push(join(alloc, folder, "config.toml")?)?;
    }
    Ok(())
}

/// The possible paths of the configurations of manifests and of the home folder, without duplicates.
fn config_paths(
    alloc: Global,
    inputs: &[Input],
    cargo_home: Option<&str>,
) -> CargoResult<Vec<String>> {
    let mut seen = BTreeSet::new(alloc);
    let mut paths = Vec::new(alloc);
    for input in inputs {
        let mut above = String::new(alloc);
        for name in folder(input.path.as_str()).split('/') {
            above.push_str(name)?;
            above.push('/')?;
            let place = join(alloc, above.as_str(), ".cargo")?;
            push_files(alloc, place.as_str(), &mut seen, &mut paths)?;
        }
    }
    if let Some(home) = cargo_home {
        push_files(alloc, home, &mut seen, &mut paths)?;
    }
    Ok(paths)
}

/// The place and the cause of an error of a configuration file: a TOML syntax error, what its values must
/// be, or that it does not exist.
fn place_and_cause<S: Store>(
    alloc: Global,
    path: &str,
    files: &mut S,
) -> (Option<String>, Option<String>)
    ensures reads { OnlyReads (S.view files.old) (S.view files.new) }
{
    let place = String::from_str(alloc, path).ok();
    let bytes = match files.read(alloc, path) {
        Ok(Some(bytes)) => bytes,
        Ok(None) => return (place, String::from_str(alloc, ABSENT).ok()),
        Err(_) => return (place, None),
    };
    match toml_fault(alloc, &bytes) {
        Some(fault) => (
            shown_position(alloc, path, &bytes, fault.at),
            Some(fault.message),
        ),
        None => (place, shape_of(alloc, path, &bytes)),
    }
}

/// What the values of a configuration file must be, for a file that is TOML.
fn shape_of(alloc: Global, path: &str, bytes: &[u8]) -> Option<String> {
    let help = match Config::read(alloc, path, bytes) {
        Ok(_) => INCLUDE,
        Err(_) => SHAPE,
    };
    String::from_str(alloc, help).ok()
}

/// Adds to an error of reading configurations the file that caused it.
pub(crate) fn at_config<S: Store>(
    alloc: Global,
    error: Error,
    inputs: &[Input],
    cargo_home: Option<&str>,
    files: &mut S,
) -> RunError
    ensures same { result.error ≡ error }
    ensures reads { OnlyReads (S.view files.old) (S.view files.new) }
    ensures counted { (S.view files.new).faults < 2 ^ 64 }
{
    if let Error::Config { path } = &error {
        let (place, cause) = place_and_cause(alloc, path.as_str(), files);
        let _faults = files.faults();
        return RunError {
            error,
            place,
            cause,
            help: None,
        };
    }
    let paths = match config_paths(alloc, inputs, cargo_home) {
        Ok(paths) => paths,
        Err(_) => Vec::new(alloc),
    };
    at_first(alloc, error, &paths, files)
}
