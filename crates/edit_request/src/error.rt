//! Errors of a request.

use std::alloc::{AllocError, AllocFailed, Global};

/// Why a request cannot be answered.
#[derive(Drop)]
pub(crate) enum RequestError {
    /// Memory ran out.
    Memory,
    /// The request is malformed; the message says how.
    Malformed(String),
}

impl From<AllocError> for RequestError {
    fn from(_error: AllocError) -> RequestError {
        RequestError::Memory
    }
}

impl<T: Drop> From<AllocFailed<T>> for RequestError {
    fn from(_error: AllocFailed<T>) -> RequestError {
        RequestError::Memory
    }
}

/// The error of a malformed request with this message.
pub(crate) fn malformed_error(alloc: Global, message: &str) -> RequestError {
    match String::from_str(alloc, message) {
        Ok(message) => RequestError::Malformed(message),
        Err(_) => RequestError::Memory,
    }
}

/// The error of a member that has another type than it must have.
pub(crate) fn type_error(alloc: Global, key: &str, wanted: &str) -> RequestError {
    match format!(in alloc; "the member `{key}` is not {wanted}") {
        Ok(message) => RequestError::Malformed(message),
        Err(_) => RequestError::Memory,
    }
}
