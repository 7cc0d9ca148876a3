//! The versions that an upgrade chose for crates whose versions are bounded.
ghost use Rattle.std.specs.Prelude.{◌≡◌, ◌++◌, IfOk, OnOk, map, option_map};
ghost use Rattle.edit_program.specs.ChosenVersions.{chosen_in, chosen_of, chosen_rows, chosen_text, is_bounded, pair_of};

use crate::upgrade_run::lock_planning::LockPlan;
use edit_policy::has_hold;
use edit_report::{Change, Row};
use std::alloc::{AllocError, Global};

/// A crate whose requirement changes, and the version that it was raised to.
#[derive(Clone, Copy, Debug)]
pub struct ChosenVersion<'a> {
    pub name: &'a str,
    pub version: &'a str,
}

/// The version that the requirement of a row was raised to; none where it does not change, and where an
/// argument gives it.
fn chosen_text(row: &Row) -> Option<&str>
    ensures { option_map (λ t. t.now) result ≡ chosen_text row.now }
{
    match row.change {
        Some(Change::Latest) => row.latest.as_deref(),
        Some(Change::Compatible | Change::Unified) => row.compatible.as_deref(),
        Some(Change::Explicit) | None => None,
    }
}

/// Appends the crate of a row with its version, where the row changes and the versions of the crate are
/// bounded.
fn push_chosen<'a>(
    lock_plan: &LockPlan,
    row: &'a Row,
    chosen: &mut Vec<ChosenVersion<'a>>,
) -> Result<(), AllocError>
    ensures { OnOk result (map pair_of chosen.new.items
        ≡ map pair_of chosen.old.items ++ chosen_of lock_plan.now row.now) }
{
    if let Some(version) = chosen_text(row)
        && lock_plan.is_bounded(row.name.as_str())
    {
        chosen.push(ChosenVersion {
            name: row.name.as_str(),
            version,
        })?;
    }
    Ok(())
}

/// Appends the crates of rows, as `push_chosen` does, in their order.
fn push_rows<'a>(
    lock_plan: &LockPlan,
    rows: &'a [Row],
    chosen: &mut Vec<ChosenVersion<'a>>,
) -> Result<(), AllocError>
    ensures { OnOk result (map pair_of chosen.new.items
        ≡ map pair_of chosen.old.items ++ chosen_rows lock_plan.now rows.now) }
{
    'rows: for row in rows {
        push_chosen(lock_plan, row, chosen)?;
    }
    Ok(())
}

impl LockPlan {
    /// Whether the versions of a crate are bounded: by the time of their publication, by a hold, or by a
    /// level.
    pub fn is_bounded(&self, name: &str) -> bool
        ensures { result ≡ is_bounded self.now name.now }
    {
        self.published_before.is_some()
            || has_hold(&self.crates, name)
            || self.options.levels().for_crate(name).is_some()
    }

    /// The crates whose requirements change, each with the version that its requirement was raised to, in
    /// the order of the rows: only crates whose versions are bounded, and none of `-p NAME@REQ`.
    pub fn chosen_versions(&self, alloc: Global) -> Result<Vec<ChosenVersion<'_>>, AllocError>
        ensures { IfOk result (λ v. map pair_of v.items ≡ chosen_in self.now) }
    {
        let mut chosen = Vec::new(alloc);
        push_rows(self, &self.plan.rows, &mut chosen)?;
        Ok(chosen)
    }
}
