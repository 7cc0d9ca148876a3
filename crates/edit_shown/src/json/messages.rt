//! The messages of `upgrade` and `set-version`.
ghost use Rattle.std.specs.Prelude.{◌≡◌, IfErr, IfOk, string_bytes};
ghost use Rattle.edit_base.specs.Errors.{IsMemory};
ghost use Rattle.edit_shown.specs.JsonMessages.{change_members, file_members, held_back_members, message_text, row_members, summary_members, warning_members};

use crate::held_back::HeldBack;
use crate::json::fields::{Field, Member};
use crate::json::message_encoding::message;
use crate::json::message_names::{borrow_optional_text, change_name, why_name};
use edit_base::CargoResult;
use edit_report::Row;
use std::alloc::Global;

/// The message of a row of a manifest's report.
pub fn row_message<'a>(alloc: Global, manifest: &'a str, row: &'a Row) -> CargoResult<String>
    ensures text { IfOk result (λ s. string_bytes s ≡ message_text (row_members manifest.now row.now)) }
    ensures error { IfErr result IsMemory }
{
    let why = why_name(alloc, row)?;
    let members = [
        Member {
            key: "reason",
            field: Field::Text("upgrade-row"),
        },
        Member {
            key: "manifest_path",
            field: Field::Text(manifest),
        },
        Member {
            key: "name",
            field: Field::Text(row.name.as_str()),
        },
        Member {
            key: "rename",
            field: Field::Maybe(borrow_optional_text(&row.rename)),
        },
        Member {
            key: "place",
            field: Field::Place(row.place.as_slice()),
        },
        Member {
            key: "old",
            field: Field::Maybe(borrow_optional_text(&row.old)),
        },
        Member {
            key: "compatible",
            field: Field::Maybe(borrow_optional_text(&row.compatible)),
        },
        Member {
            key: "latest",
            field: Field::Maybe(borrow_optional_text(&row.latest)),
        },
        Member {
            key: "new",
            field: Field::Maybe(borrow_optional_text(&row.new)),
        },
        Member {
            key: "why",
            field: Field::Maybe(why),
        },
        Member {
            key: "change",
            field: Field::Maybe(change_name(row.change)),
        },
    ];
    message(alloc, &members)
}

/// The message of a warning about a manifest.
pub fn warning_message<'a>(
    alloc: Global,
    manifest: &'a str,
    warning: &'a str,
) -> CargoResult<String>
    ensures text { IfOk result (λ s. string_bytes s
        ≡ message_text (warning_members manifest.now warning.now)) }
    ensures error { IfErr result IsMemory }
{
    let members = [
        Member {
            key: "reason",
            field: Field::Text("upgrade-warning"),
        },
        Member {
            key: "manifest_path",
            field: Field::Text(manifest),
        },
        Member {
            key: "message",
            field: Field::Text(warning),
        },
    ];
    message(alloc, &members)
}

/// The message of a manifest that changes; `written` is false where the run writes no file.
pub fn file_message(alloc: Global, manifest: &str, written: bool) -> CargoResult<String>
    ensures text { IfOk result (λ s. string_bytes s ≡ message_text (file_members manifest.now written)) }
    ensures error { IfErr result IsMemory }
{
    let members = [
        Member {
            key: "reason",
            field: Field::Text("upgrade-file"),
        },
        Member {
            key: "manifest_path",
            field: Field::Text(manifest),
        },
        Member {
            key: "written",
            field: Field::Truth(written),
        },
    ];
    message(alloc, &members)
}

/// The message of what was held back for the age of versions.
pub fn held_back_message(alloc: Global, held: &HeldBack) -> CargoResult<String>
    ensures text { IfOk result (λ s. string_bytes s ≡ message_text (held_back_members held.now)) }
    ensures error { IfErr result IsMemory }
{
    let members = [
        Member {
            key: "reason",
            field: Field::Text("upgrade-held-back"),
        },
        Member {
            key: "younger",
            field: Field::Texts(held.younger.as_slice()),
        },
        Member {
            key: "undated",
            field: Field::Texts(held.undated.as_slice()),
        },
        Member {
            key: "registries_without_times",
            field: Field::Texts(held.registries.as_slice()),
        },
    ];
    message(alloc, &members)
}

/// The summary of an upgrade.
#[derive(Clone, Copy)]
pub struct Summary<'a> {
    pub dry_run: bool,
    pub modified: &'a [String],
    pub git_crates: &'a [String],
    pub missing: &'a [String],
    pub pinned_present: bool,
    pub incompatible_present: bool,
    /// The calls of `cargo update` that follow, each as its arguments.
    pub update_calls: &'a [Vec<String>],
}

/// The last message of an upgrade, its summary.
pub fn summary_message(alloc: Global, summary: Summary<'_>) -> CargoResult<String>
    ensures text { IfOk result (λ s. string_bytes s ≡ message_text (summary_members summary.entry)) }
    ensures error { IfErr result IsMemory }
{
    let members = [
        Member {
            key: "reason",
            field: Field::Text("upgrade-summary"),
        },
        Member {
            key: "dry_run",
            field: Field::Truth(summary.dry_run),
        },
        Member {
            key: "modified",
            field: Field::Texts(summary.modified),
        },
        Member {
            key: "git_crates",
            field: Field::Texts(summary.git_crates),
        },
        Member {
            key: "missing",
            field: Field::Texts(summary.missing),
        },
        Member {
            key: "pinned_present",
            field: Field::Truth(summary.pinned_present),
        },
        Member {
            key: "incompatible_present",
            field: Field::Truth(summary.incompatible_present),
        },
        Member {
            key: "update_calls",
            field: Field::Lists(summary.update_calls),
        },
    ];
    message(alloc, &members)
}

/// The message of a line of `set-version`: an action and its text.
pub fn change_message<'a>(alloc: Global, action: &'a str, change: &'a str) -> CargoResult<String>
    ensures text { IfOk result (λ s. string_bytes s ≡ message_text (change_members action.now change.now)) }
    ensures error { IfErr result IsMemory }
{
    let members = [
        Member {
            key: "reason",
            field: Field::Text("set-version-change"),
        },
        Member {
            key: "action",
            field: Field::Text(action),
        },
        Member {
            key: "message",
            field: Field::Text(change),
        },
    ];
    message(alloc, &members)
}
