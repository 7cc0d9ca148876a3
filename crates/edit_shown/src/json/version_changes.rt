//! The message of a new version or a raised requirement of `set-version`, in parts.
ghost use Rattle.std.specs.Prelude.{◌≡◌, IfErr, IfOk, option_map, string_bytes};
ghost use Rattle.edit_base.specs.Errors.{IsMemory};
ghost use Rattle.edit_shown.specs.VersionChanges.{change_owner, change_reason, version_change_message};

use crate::json::fields::{Field, Member};
use crate::json::message_encoding::message;
use edit_base::CargoResult;
use edit_set_version::{ChangeKind, VersionChange};
use std::alloc::Global;

/// The reason of the message of a change.
fn change_reason(kind: ChangeKind) -> &'static str
    ensures { result.now ≡ change_reason kind }
{
    match kind {
        ChangeKind::Workspace | ChangeKind::Member => "set-version-version",
        ChangeKind::Dependency => "set-version-requirement",
    }
}

/// Whose change it is; `None` for the version of the workspace.
fn change_owner(change: &VersionChange) -> Option<&str>
    ensures { option_map (λ t. t.now) result ≡ change_owner change.now.kind (string_bytes change.now.name) }
{
    match change.kind {
        ChangeKind::Workspace => None,
        ChangeKind::Member | ChangeKind::Dependency => Some(change.name.as_str()),
    }
}

/// The message of a new version or a raised requirement of `set-version`, in parts.
pub fn version_change_message(alloc: Global, change: &VersionChange) -> CargoResult<String>
    ensures text { IfOk result (λ s. string_bytes s ≡ version_change_message change.now) }
    ensures error { IfErr result IsMemory }
{
    let members = [
        Member {
            key: "reason",
            field: Field::Text(change_reason(change.kind)),
        },
        Member {
            key: "name",
            field: Field::Maybe(change_owner(change)),
        },
        Member {
            key: "old",
            field: Field::Text(change.old.as_str()),
        },
        Member {
            key: "new",
            field: Field::Text(change.new.as_str()),
        },
        Member {
            key: "path",
            field: Field::Text(change.path.as_str()),
        },
        Member {
            key: "inherited",
            field: Field::Truth(change.inherited),
        },
    ];
    message(alloc, &members)
}
