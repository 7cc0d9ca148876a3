//! An index of bumps by the folder of the crate.
ghost use Rattle.std.specs.Prelude.{◌≡◌, ℕ, List, Some, None, if◌then◌else◌, IfErr, IfOk, OnOk, option_map};
ghost use Rattle.std.specs.Option.{option_or};
ghost use Rattle.edit_base.specs.Errors.{IsMemory};
ghost use Rattle.edit_set_version.specs.Crates.{bumps_view};
ghost use Rattle.edit_set_version.specs.Folders.{folder_of, folder_at_path, resolve_folder, same_folder};
ghost use Rattle.edit_set_version.specs.BumpsByFolder.{HasFirstBumps, numbered_view, numbered_at};

use crate::crates::Bump;
use crate::reach::{folder_of, resolve_folder};
use edit_base::CargoResult;
use semver::Version;
use std::alloc::Global;
use std::collections::BTreeMap;

/// A bump's index in the list of bumps, and its next version.
#[derive(Clone, Copy)]
pub(crate) struct Numbered<'a> {
    pub(crate) number: usize,
    pub(crate) next: &'a Version,
}

/// Bumps by the normalized folder of their crate.
pub(crate) type BumpsByFolder<'a> = BTreeMap<String, Numbered<'a>>;

/// Adds the bump of a crate under the folder of its manifest, unless a bump has that folder already.
fn add_bump<'a>(
    alloc: Global,
    numbers: &mut BumpsByFolder<'a>,
    path: &str,
    bump: Numbered<'a>,
) -> CargoResult<()>
    ensures ok { OnOk result ((q : List ℕ) → numbered_at numbers.new (folder_at_path q)
        ≡ option_or (numbered_at numbers.old (folder_at_path q))
        (if same_folder (folder_of path.now) (folder_at_path q)
        then Some (numbered_view bump.entry) else None)) }
    ensures error { IfErr result IsMemory }
{
    let folder = folder_of(alloc, path)?;
    if numbers.contains_key(folder.as_str()) {
        return Ok(());
    }
    numbers.insert(folder, bump)?;
    Ok(())
}

/// Indexes bumps by the folder of their crate. Where several share a folder, the first is taken.
pub(crate) fn index_bumps<'a>(
    alloc: Global,
    bumps: &'a [Bump<'_, '_>],
) -> CargoResult<BumpsByFolder<'a>>
    ensures ok { IfOk result (HasFirstBumps (bumps_view bumps.entry.now)) }
    ensures error { IfErr result IsMemory }
{
    let mut numbers = BTreeMap::new(alloc);
    'bumps: for (number, bump) in bumps.iter().enumerate() {
        let next = &bump.next;
        let path = bump.member.input.path.as_str();
        add_bump(alloc, &mut numbers, path, Numbered { number, next })?;
    }
    Ok(numbers)
}

/// The bump of the crate in the folder that a `path` key names, in the manifest at an absolute path.
pub(crate) fn bump_at<'a>(
    alloc: Global,
    numbers: &BumpsByFolder<'a>,
    file: &str,
    path: &str,
) -> CargoResult<Option<Numbered<'a>>>
    ensures ok { IfOk result (λ o. option_map numbered_view o
        ≡ numbered_at numbers.now (resolve_folder file.now path.now)) }
    ensures error { IfErr result IsMemory }
{
    let folder = resolve_folder(alloc, file, path)?;
    Ok(numbers.get(folder.as_str()).copied())
}

/// The bump of the crate whose manifest is in the folder of an absolute path.
pub(crate) fn bump_beside<'a>(
    alloc: Global,
    numbers: &BumpsByFolder<'a>,
    file: &str,
) -> CargoResult<Option<Numbered<'a>>>
    ensures ok { IfOk result (λ o. option_map numbered_view o
        ≡ numbered_at numbers.now (folder_of file.now)) }
    ensures error { IfErr result IsMemory }
{
    let folder = folder_of(alloc, file)?;
    Ok(numbers.get(folder.as_str()).copied())
}
