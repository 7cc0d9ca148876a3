//! Which outputs were written before an error.
ghost use Rattle.std.specs.Prelude.{◌≡◌};

use crate::run_error::RunError;
use edit_report::Output;
use std::alloc::{AllocError, Global};

/// The cause of an error, and which of the outputs were written before it.
fn written_text(
    alloc: Global,
    reason: &str,
    outputs: &[Output],
    done: usize,
) -> Result<String, AllocError> {
    let count = outputs.len();
    if done == 0 {
        return format!(in alloc; "{reason}; none of {count} files was written");
    }
    let mut text = format!(in alloc; "{reason}; {done} of {count} files were written")?;
    let mut separator = ": ";
    for output in outputs.iter().take(done) {
        text.push_str(separator)?;
        text.push_str(output.path.as_str())?;
        separator = ", ";
    }
    Ok(text)
}

/// Adds to an error of writing several outputs how many of them were written before it, and which; nothing
/// where these were taken back.
pub(crate) fn at_output(
    alloc: Global,
    failure: RunError,
    outputs: &[Output],
    done: usize,
    is_taken_back: bool,
) -> RunError
    ensures { result.error ≡ failure.error }
{
    let RunError {
        error,
        place,
        cause,
        help,
    } = failure;
    let cause = match cause {
        Some(reason) if outputs.len() > 1 && !is_taken_back => {
            written_text(alloc, reason.as_str(), outputs, done).ok()
        }
        cause => cause,
    };
    RunError {
        error,
        place,
        cause,
        help,
    }
}
