//! What ends a program: an error, and the exit status.
ghost use Rattle.std.specs.Prelude.{◌≡◌, None, Some, pos};
ghost use Rattle.clap.specs.Words.{kind_of};
ghost use Rattle.edit_base.specs.ExitCodes.{exit_code_of};
ghost use Rattle.edit_base.specs.declared.errors.Error.TheVariants.{CommandLine, Io};

use crate::errors::Error;
use std::io;

/// What a program's command answers.
pub type CliResult = Result<(), CliError>;

/// Why a program ends, and its exit status; without an error nothing is left to print.
#[derive(Debug, Drop)]
pub struct CliError {
    pub error: Option<Error>,
    pub exit_code: i32,
}

impl CliError {
    /// An end with an error.
    pub fn new(error: Error, code: i32) -> CliError
        ensures { result ≡ record { error = Some error; exit_code = code } }
    {
        CliError {
            error: Some(error),
            exit_code: code,
        }
    }

    /// An end with a status alone. It takes no memory.
    pub fn code(code: i32) -> CliError
        ensures { result ≡ record { error = None; exit_code = code } }
    {
        CliError {
            error: None,
            exit_code: code,
        }
    }
}

impl From<Error> for CliError {
    ghost from_gives = { λ e c. c ≡ record { error = Some e; exit_code = pos 101 } };

    fn from(error: Error) -> CliError {
        CliError::new(error, 101)
    }
}

impl From<clap::Error> for CliError {
    ghost from_gives = { λ e c. c
        ≡ record { error = Some (CommandLine e); exit_code = exit_code_of (kind_of e) } };

    fn from(error: clap::Error) -> CliError {
        let code = if error.use_stderr() { 1 } else { 0 };
        CliError::new(Error::from(error), code)
    }
}

impl From<io::Error> for CliError {
    ghost from_gives = { λ e c. c ≡ record { error = Some (Io e); exit_code = pos 1 } };

    fn from(error: io::Error) -> CliError {
        CliError::new(Error::from(error), 1)
    }
}
