//! Words that say how a plan is printed, and whether it is only checked.
ghost use Rattle.std.specs.Prelude.{◌≡◌, map};
ghost use Rattle.edit_words.specs.Rules.{reports};
ghost use Rattle.edit_words.specs.Tables.{arg_rule};

use crate::rules::{ArgSpec, Form, plain};

/// What says how a plan is printed, and whether it is only checked; with what help calls the value of
/// `--message-format`, and what it says of it.
pub(crate) fn reports<'a>(value: &'a str, about: &'a str) -> [ArgSpec<'a>; 4]
    ensures { map arg_rule result ≡ reports }
{
    [
        plain(
            "check",
            Form::Flag,
            "Like `--dry-run`, with status 1 where something would change",
        ),
        plain("message-format", Form::Choice(value), about).default_value("human"),
        plain(
            "diff",
            Form::Flag,
            "Prints the changes of manifests as diffs",
        ),
        plain(
            "color",
            Form::Choice("auto|always|never"),
            "When reports are colored",
        ),
    ]
}
