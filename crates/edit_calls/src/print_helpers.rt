//! Prints to standard output.
use std::fmt::Display;
use std::io::Write;

/// Prints a text. Where that fails, the comparison of the output detects it.
pub(crate) fn print_text<D: Display + Drop>(rt: &HostRuntime, text: D) {
    let _ = rt.stdout().write_fmt(text);
}
