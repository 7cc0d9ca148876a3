//! The addresses of registries that inputs with the same configurations share.
ghost use Rattle.std.specs.Prelude.{◌≡◌, ◌<◌, IfErr, OnOk, Some, length, slice_get};
ghost use Rattle.std.specs.Global.{Vec};
ghost use Rattle.edit_base.specs.Errors.{IsMemory};
ghost use Rattle.edit_sources.specs.declared.config.Config.{Config};
ghost use Rattle.edit_upgrade.specs.Addresses.{AreAddresses, AreCaches};

use crate::addresses::Addresses;
use crate::config_lists::ConfigLists;
use edit_base::CargoResult;
use std::alloc::Global;
use std::collections::BTreeMap;

/// The addresses that were resolved for earlier inputs, by the index of their list of configurations.
pub(crate) type AddressCaches<'a> = BTreeMap<usize, Addresses<'a>>;

/// Takes out the addresses for the list at an index; they are empty where none were resolved.
pub(crate) fn take_addresses<'a>(
    alloc: Global,
    configs: ConfigLists<'a>,
    list: usize,
    caches: &mut AddressCaches<'a>,
) -> Addresses<'a>
    requires within { list < length configs.lists.now }
    requires caches { AreCaches configs.lists.now caches.old }
    ensures addresses { (own : Vec Config) → slice_get configs.entry.lists.now list ≡ Some own
        → AreAddresses own.items result }
    ensures caches { AreCaches configs.entry.lists.now caches.new }
{
    match caches.remove(&list) {
        Some(addresses) => addresses,
        None => Addresses::new(alloc, &configs.lists[list]),
    }
}

/// Stores the addresses for the list at an index, unless each input has a list of its own.
pub(crate) fn keep_addresses<'a>(
    configs: ConfigLists<'a>,
    list: usize,
    addresses: Addresses<'a>,
    caches: &mut AddressCaches<'a>,
) -> CargoResult<()>
    requires addresses { (own : Vec Config) → slice_get configs.lists.now list ≡ Some own
        → AreAddresses own.items addresses }
    requires caches { AreCaches configs.lists.now caches.old }
    ensures caches { OnOk result (AreCaches configs.entry.lists.now caches.new) }
    ensures error { IfErr result IsMemory }
{
    if configs.which.is_none() {
        return Ok(());
    }
    caches.insert(list, addresses)?;
    Ok(())
}
