//! What is known about an error beside its message.
ghost use Rattle.std.specs.Prelude.{◌≡◌, None, option_and_then};

use edit_base::Error;
use edit_steps::RunError;

/// The place, the cause and the help of an error, as far as they are known.
#[derive(Drop)]
pub(crate) struct Explanation {
    pub(crate) place: Option<String>,
    pub(crate) cause: Option<String>,
    pub(crate) help: Option<String>,
}

/// An error with its explanation, if any.
pub(crate) fn with_explanation(error: Error, explanation: Option<Explanation>) -> RunError
    ensures error { result.error ≡ error }
    ensures place { result.place ≡ option_and_then (λ x. x.place) explanation }
{
    match explanation {
        Some(found) => RunError {
            error,
            place: found.place,
            cause: found.cause,
            help: found.help,
        },
        None => RunError {
            error,
            place: None,
            cause: None,
            help: None,
        },
    }
}
