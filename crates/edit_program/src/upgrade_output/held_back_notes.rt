//! The notes on what was held back for the age of versions.
ghost use Rattle.std.specs.Prelude.{◌≡◌, ◌++◌, IfErr, OnOk, string_bytes};
ghost use Rattle.edit_base.specs.Errors.{IsMemory};
ghost use Rattle.edit_program.specs.HeldBackNotes.{held_back_notes};

use crate::upgrade_output::name_lists::{Noun, push_list};
use edit_base::CargoResult;
use edit_shown::list_held_back;
use edit_upgrade::{Options, UpgradePlan};
use std::alloc::Global;

const YOUNGER: &str = "younger versions were held back";

const UNDATED: &str = "versions without a publication time were held back";

const WITHOUT_TIMES: &str = "no publication times were found";

/// Appends the notes on what was held back for the age of versions, if anything was: the crates with
/// versions that were published too late, those with versions of unknown time, and the registries that have
/// the time of no version.
pub(crate) fn push_held_back(
    alloc: Global,
    plan: &UpgradePlan,
    options: &Options,
    text: &mut String,
) -> CargoResult<()>
    ensures text { OnOk result (string_bytes text.new
        ≡ string_bytes text.old ++ held_back_notes plan.now options.now) }
    ensures error { IfErr result IsMemory }
{
    let held = list_held_back(alloc, plan, options)?;
    push_list(alloc, YOUNGER, Noun::Crate, held.younger.as_slice(), text)?;
    push_list(alloc, UNDATED, Noun::Crate, held.undated.as_slice(), text)?;
    push_list(
        alloc,
        WITHOUT_TIMES,
        Noun::Registry,
        held.registries.as_slice(),
        text,
    )?;
    Ok(())
}
