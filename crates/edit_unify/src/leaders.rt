//! The requirement that a row takes: that of the row with the highest floor of those together with it.
ghost use Rattle.std.specs.Prelude.{◌≡◌, IfOk, None, OnOk, Some, map, option_copied, option_map, true};
ghost use Rattle.std.specs.Option.{option_map_or};
ghost use Rattle.edit_version.specs.Levels.{level_of};
ghost use Rattle.edit_unify.specs.Groups.{best_of};
ghost use Rattle.edit_unify.specs.Leaders.{better, leader};
ghost use Rattle.edit_unify.specs.Ranges.{is_higher};
ghost use Rattle.edit_unify.specs.Stands.{Required, stand_view};

use crate::groups::{Group, group_of};
use crate::ranges::is_higher;
use crate::stands::Stand;
use edit_version::Levels;
use std::alloc::{AllocError, Global};
use std::collections::BTreeMap;

/// The best row of each group: the first one with the highest floor.
pub(crate) type Leaders<'a> = BTreeMap<Group<'a>, Stand<'a>>;

/// Whether the floor of a row is higher than that of the best one so far, if there is one.
fn is_better(best: Option<&Stand<'_>>, other: &Stand<'_>) -> bool
    ensures { result ≡ option_map_or (λ b. is_higher (stand_view other.now).caret b.caret)
        (option_map stand_view (option_copied best.entry)) true }
{
    match best {
        Some(best) => is_higher(other.numbers, best.numbers),
        None => true,
    }
}

/// Makes a row the best one of its group where its floor is higher than those of the rows before it.
fn add_stand<'a>(
    levels: Levels<'_>,
    leaders: &mut Leaders<'a>,
    stand: Stand<'a>,
) -> Result<(), AllocError>
    ensures { OnOk result ((own : Required) → best_of (level_of levels.entry) leaders.new own
        ≡ better (level_of levels.entry) own (best_of (level_of levels.entry) leaders.old own)
        (Some (stand_view stand.entry))) }
{
    let group = group_of(levels, &stand);
    if is_better(leaders.get(&group), &stand) {
        leaders.insert(group, stand)?;
    }
    Ok(())
}

/// The first row with the highest floor of each group.
pub(crate) fn leaders_of<'a>(
    alloc: Global,
    levels: Levels<'_>,
    stands: &[Option<Stand<'a>>],
) -> Result<Leaders<'a>, AllocError>
    ensures { IfOk result (λ leaders. (own : Required) → best_of (level_of levels.entry) leaders own
        ≡ leader (level_of levels.entry) own (map (option_map stand_view) stands.now)) }
{
    let mut leaders = BTreeMap::new(alloc);
    'stands: for stand in stands {
        if let Some(stand) = stand {
            add_stand(levels, &mut leaders, *stand)?;
        }
    }
    Ok(leaders)
}

/// The best row of those that are together with `own`.
pub(crate) fn leader<'a>(
    levels: Levels<'_>,
    leaders: &Leaders<'a>,
    own: &Stand<'a>,
) -> Option<Stand<'a>>
    ensures { option_map stand_view result
        ≡ best_of (level_of levels.entry) leaders.now (stand_view own.now) }
{
    leaders.get(&group_of(levels, own)).copied()
}
