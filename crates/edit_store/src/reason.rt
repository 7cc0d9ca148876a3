//! Why a call for a file of the machine failed.
use std::alloc::{AllocError, AllocFailed, Global};
use std::io;
use std::io::ErrorKind;

/// Why a call for a file failed.
#[derive(Debug, Drop)]
pub(crate) enum Reason {
    /// The error of the machine, or want of memory.
    Machine(io::Error),
    /// The error of a call that moves or overwrites a file. It is never want of memory of this program, also
    /// where the machine says that it has none.
    Moving(io::Error),
    /// What this store found wrong.
    Found(String),
    /// What this store found wrong once files were moved, where no memory may be asked for.
    Said(&'static str),
}

/// A manifest that is not what was read of it.
pub(crate) const CHANGED: &str = "the file was changed while cargo-edit ran";

/// What a step of a call answers.
pub(crate) type StoreResult<T> = Result<T, Reason>;

impl Reason {
    /// Whether memory ran out.
    pub(crate) fn is_memory(&self) -> bool {
        match self {
            Reason::Machine(error) => error.kind() == ErrorKind::OutOfMemory,
            Reason::Moving(_) | Reason::Found(_) | Reason::Said(_) => false,
        }
    }

    /// The reason as text; none where memory is short.
    pub(crate) fn text(&self, alloc: Global) -> Option<String> {
        match self {
            Reason::Machine(error) | Reason::Moving(error) => format!(in alloc; "{error}").ok(),
            Reason::Said(text) => String::from_str(alloc, text).ok(),
            Reason::Found(text) => String::from_str(alloc, text.as_str()).ok(),
        }
    }
}

impl From<io::Error> for Reason {
    fn from(error: io::Error) -> Reason {
        Reason::Machine(error)
    }
}

impl From<AllocError> for Reason {
    fn from(_error: AllocError) -> Reason {
        Reason::Machine(io::Error::from(ErrorKind::OutOfMemory))
    }
}

impl<T: Drop> From<AllocFailed<T>> for Reason {
    fn from(_error: AllocFailed<T>) -> Reason {
        Reason::Machine(io::Error::from(ErrorKind::OutOfMemory))
    }
}

/// What a call that moves or overwrites a file answers.
pub(crate) fn moving<T: Drop>(answer: io::Result<T>) -> StoreResult<T> {
    match answer {
        Ok(value) => Ok(value),
        Err(error) => Err(Reason::Moving(error)),
    }
}

/// What this store found wrong.
pub(crate) fn found_reason(alloc: Global, text: &str) -> Reason {
    match String::from_str(alloc, text) {
        Ok(text) => Reason::Found(text),
        Err(error) => Reason::from(error),
    }
}
