//! Errors of parsed arguments.
ghost use Rattle.std.specs.Prelude.{◌≡◌};
ghost use Rattle.edit_program.specs.declared.args_error.ArgsError.TheVariants as parse_error;

use edit_base::Error;
use std::alloc::AllocError;
use std::fmt;

/// An error of parsed arguments.
#[derive(Drop)]
pub(crate) enum ArgsFault<'a> {
    /// Two arguments that cannot be used together.
    Together(&'static str, &'static str),
    /// An argument that needs another one, which is not given.
    Needs(&'static str, &'static str),
    /// An option, its valid values, and the invalid one that is given.
    Value(&'static str, &'static str, &'a str),
    /// An option, the name of its value, the invalid value that is given, and what it is not.
    Invalid(&'static str, &'static str, &'a str, &'static str),
    /// A text that is no version of Rust, and why.
    Rust(&'a str, Error),
    /// An argument that is no level, and the error message.
    Level(&'a str, &'static str),
    /// A text that is no version, and why.
    Version(&'a str, semver::Error),
}

impl fmt::Display for ArgsFault<'_> {
    fn fmt<W: fmt::Write>(&self, f: &mut fmt::Formatter<W>) -> fmt::Result {
        match self {
            ArgsFault::Together(one, other) => {
                write!(f, "the argument '{one}' cannot be used with '{other}'")
            }
            ArgsFault::Needs(one, other) => { write!(f, "the argument '{one}' needs '{other}'") }
            ArgsFault::Value(option, values, value) => {
                write!(f, "invalid value '{value}' for '--{option} <{values}>'")
            }
            ArgsFault::Invalid(option, name, value, expected) => {
                write!(
                    f,
                    "invalid value '{value}' for '--{option} <{name}>': {expected}"
                )
            }
            ArgsFault::Rust(text, error) => {
                write!(
                    f,
                    "invalid value '{text}' for '--rust-version <VER>': {error}"
                )
            }
            ArgsFault::Level(name, levels) => {
                write!(f, "invalid value '{name}' for '--bump <LEVEL>': {levels}")
            }
            ArgsFault::Version(text, error) => {
                write!(f, "invalid value '{text}' for '[TARGET]': {error}")
            }
        }
    }
}

/// Why parsed arguments cannot be used: an error of the arguments, or out of memory.
#[derive(Drop)]
pub(crate) enum ArgsError<'a> {
    Memory,
    Fault(ArgsFault<'a>),
}

impl<'a> From<AllocError> for ArgsError<'a> {
    ghost from_gives = { λ _ e. e ≡ parse_error.Memory };

    fn from(_error: AllocError) -> ArgsError<'a> {
        ArgsError::Memory
    }
}
