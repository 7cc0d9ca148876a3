//! Packages by name.
ghost use Rattle.std.specs.Prelude.{◌≡◌, IfOk};
ghost use Rattle.edit_upgrade.specs.Groups.{AreGroups};

use edit_metadata::Package;
use std::alloc::{AllocError, Global};
use std::collections::BTreeMap;

/// Packages by name; those of one name in order.
pub(crate) type Groups<'a> = BTreeMap<&'a str, Vec<&'a Package>>;

/// Groups packages by name.
pub(crate) fn group_by_name<'a>(
    alloc: Global,
    packages: &'a [Package],
) -> Result<Groups<'a>, AllocError>
    ensures { IfOk result (λ m. AreGroups m packages.now) }
{
    let mut groups: BTreeMap<&'a str, Vec<&'a Package>> = BTreeMap::new(alloc);
    'packages: for package in packages {
        let group = groups.entry(package.name.as_str())?.or_default();
        group.push(package)?;
    }
    Ok(groups)
}
