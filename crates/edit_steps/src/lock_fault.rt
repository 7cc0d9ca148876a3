//! An error about the contents of a lock file.
ghost use Rattle.std.specs.Prelude.{◌≡◌};

use crate::run_error::{RunError, error_alone, shown_position};
use crate::toml_fault::toml_fault;
use edit_base::Error;
use std::alloc::Global;
use std::str;

/// What a document that is no lock file lacks.
const SHAPE: &str = "`package` has to be an array of tables with the texts `name` and `version`";

const HELP: &str = "the file has to be a `Cargo.lock`, as `cargo generate-lockfile` writes it";

const NOT_UTF8: &str = "it is not UTF-8";

/// Why a document that is TOML, or no text at all, is no lock file.
fn shape_fault(bytes: &[u8]) -> &'static str {
    if str::from_utf8(bytes).is_err() {
        NOT_UTF8
    } else {
        SHAPE
    }
}

/// Adds the place, the cause and the help to an error about the contents of a lock file: for a TOML syntax
/// error with an excerpt of the line, and with what the parser expected.
pub fn at_lock(alloc: Global, error: Error, path: &str, bytes: &[u8]) -> RunError
    ensures { result.error ≡ error }
{
    if matches!(error, Error::Memory) {
        return error_alone(error);
    }
    let (place, cause) = match toml_fault(alloc, bytes) {
        Some(fault) => (
            shown_position(alloc, path, bytes, fault.at),
            Some(fault.message),
        ),
        None => (
            String::from_str(alloc, path).ok(),
            String::from_str(alloc, shape_fault(bytes)).ok(),
        ),
    };
    RunError {
        error,
        place,
        cause,
        help: String::from_str(alloc, HELP).ok(),
    }
}
