//! The message of an error.
ghost use Rattle.std.specs.Prelude.{◌≡◌, IfErr, IfOk, string_bytes};
ghost use Rattle.edit_base.specs.Errors.{IsMemory};
ghost use Rattle.edit_shown.specs.JsonMessages.{error_members, message_text};

use crate::json::fields::{Field, Member};
use crate::json::message_encoding::message;
use edit_base::CargoResult;
use std::alloc::Global;

/// An error: its number, where it has one, its message, and what else is known of it.
#[derive(Clone, Copy)]
pub struct ErrorParts<'a> {
    /// The number of an `edit_base::Error`, which stays the same in later versions.
    pub number: Option<u32>,
    pub message: &'a str,
    /// `PATH`, `PATH:LINE` or `PATH:LINE:COLUMN`.
    pub place: Option<&'a str>,
    /// The line at the place, with a caret.
    pub excerpt: Option<&'a str>,
    pub cause: Option<&'a str>,
    pub help: Option<&'a str>,
}

/// The message of an error.
pub fn error_message(alloc: Global, parts: ErrorParts<'_>) -> CargoResult<String>
    ensures text { IfOk result (λ s. string_bytes s ≡ message_text (error_members parts.entry)) }
    ensures error { IfErr result IsMemory }
{
    let members = [
        Member {
            key: "reason",
            field: Field::Text("error"),
        },
        Member {
            key: "number",
            field: Field::Number(parts.number),
        },
        Member {
            key: "message",
            field: Field::Text(parts.message),
        },
        Member {
            key: "place",
            field: Field::Maybe(parts.place),
        },
        Member {
            key: "excerpt",
            field: Field::Maybe(parts.excerpt),
        },
        Member {
            key: "cause",
            field: Field::Maybe(parts.cause),
        },
        Member {
            key: "help",
            field: Field::Maybe(parts.help),
        },
    ];
    message(alloc, &members)
}
