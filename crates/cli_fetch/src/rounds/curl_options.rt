//! Selects transfers of a configuration file of curl, which `fetch-config` prints.

use std::alloc::AllocError;

/// The number of a transfer, by its option `write-out`, whose value begins with it.
fn number_of(options: &str) -> Option<usize> {
    let (_, value) = options.split_once("write-out = \"")?;
    let (number, _) = value.split_once("\\t")?;
    number.parse::<usize>().ok()
}

/// Whether these are the options of one of the transfers.
fn is_wanted(options: &str, transfers: &[Option<u64>]) -> bool {
    match number_of(options) {
        Some(number) => transfers.get(number).copied().flatten().is_some(),
        None => false,
    }
}

/// Appends the options of a transfer if it is one of these transfers, after a line `next` unless it is the
/// first.
fn push_transfer(
    text: &mut String,
    options: &str,
    transfers: &[Option<u64>],
) -> Result<(), AllocError> {
    if !is_wanted(options, transfers) {
        return Ok(());
    }
    if !text.is_empty() {
        text.push_str("next\n")?;
    }
    text.push_str(options)?;
    if !options.ends_with('\n') {
        text.push_str("\n")?;
    }
    Ok(())
}

/// Appends the options of the transfers that have an entry in `transfers`, at the position of their number.
pub(super) fn push_options(
    text: &mut String,
    options: &str,
    transfers: &[Option<u64>],
) -> Result<(), AllocError> {
    for transfer in options.split("\nnext\n") {
        push_transfer(text, transfer, transfers)?;
    }
    Ok(())
}
