//! Errors as they are printed, and the messages of `clap`.
ghost use Rattle.std.specs.Prelude.{◌≡◌, IfErr, IfOk, IsErr};
ghost use Rattle.clap.specs.Words.{kind_of};
ghost use Rattle.edit_base.specs.Errors.{IsMemory};
ghost use Rattle.edit_program.specs.Effects.{IsMessage, status_of_reply};
ghost use Rattle.edit_program.specs.Runs.{status_of};

use crate::args_error::ArgsFault;
use crate::effects::Reply;
use clap::error::ErrorKind;
use edit_base::Error;
use edit_steps::{RunError, RunResult, print_error};
use std::alloc::{AllocError, Global};
use std::io;

/// Adds the place `standard output` to `Error::Output`: an error of standard error cannot be printed
/// anyway. Other errors are unchanged.
fn at_stream(alloc: Global, failure: RunError) -> RunError
    ensures { result.error ≡ failure.error }
{
    if !matches!(&failure.error, Error::Output) {
        return failure;
    }
    let place = String::from_str(alloc, "standard output").ok();
    RunError { place, ..failure }
}

/// Prints an error with its place, cause and help, where they are known, and returns the exit status, even
/// where printing fails.
pub fn print_failure<E: io::Write>(alloc: Global, failure: RunError, err: &mut E) -> u8
    ensures { result ≡ 1 }
{
    let _ = print_error(alloc, &at_stream(alloc, failure), err);
    1
}

/// What is answered in place of arguments that do not parse: the help, the version, or a usage error.
pub(crate) fn clap_reply(alloc: Global, error: &clap::Error) -> RunResult<Reply>
    ensures ok { IfOk result (λ r. status_of_reply r ≡ status_of (kind_of error.now)) }
    ensures message { IfOk result IsMessage }
    ensures memory { kind_of error.now ≡ ErrorKind.OutOfMemory → IsErr result }
    ensures error { IfErr result (λ r. IsMemory r.error) }
{
    if error.kind() == ErrorKind::OutOfMemory {
        return Err(RunError::from(Error::Memory));
    }
    let text = format!(in alloc; "{error}")?;
    if error.use_stderr() {
        Ok(Reply::Usage(text))
    } else {
        Ok(Reply::Text(text))
    }
}

/// The message of an argument that cannot be used.
pub(crate) fn usage_message(alloc: Global, fault: &ArgsFault<'_>) -> Result<String, AllocError> {
    format!(in alloc; "error: {fault}\n\nFor more information, try '--help'.\n")
}
