//! The position and the message of a TOML syntax error.

use std::alloc::Global;
use std::str;

/// The longest text that is parsed again, in bytes: parsing takes some hundred bytes of memory for each.
const LONGEST_TEXT: usize = 262144;

/// The offset of a syntax error in bytes, and the message of the parser.
#[derive(Drop)]
pub(crate) struct TomlFault {
    pub(crate) at: usize,
    pub(crate) message: String,
}

/// The syntax error that `toml` reports for a text. `None` where there is none, where the text is not UTF-8
/// or longer than 256 KiB, and where memory ran out.
pub(crate) fn toml_fault(alloc: Global, bytes: &[u8]) -> Option<TomlFault> {
    if bytes.len() > LONGEST_TEXT {
        return None;
    }
    let text = str::from_utf8(bytes).ok()?;
    match toml::table_from_str(alloc, text) {
        Ok(_table) => None,
        Err(error) => {
            let span = error.span()?;
            let message = String::from_str(alloc, error.message()).ok()?;
            Some(TomlFault {
                at: span.start,
                message,
            })
        }
    }
}
