//! Reads the configurations of the manifests.
ghost use Rattle.std.specs.Prelude.{◌≡◌, ◌⊎◌, ◌+◌, All, IfErr, IfOk, IsFalse, IsTrue, OnOk, length, true};
ghost use Rattle.edit_base.specs.Errors.{IsMemory};
ghost use Rattle.edit_base.specs.declared.errors.DeviceCall.TheVariants as call;
ghost use Rattle.edit_sources.specs.ConfigurationFiles.{ConfigsFail, HasFailed};
ghost use Rattle.edit_sources.specs.Configured.{given};
ghost use Rattle.edit_sources.specs.CachedConfigs.{AreCached};
ghost use Rattle.edit_store.specs.Store.{OnlyReads, IsCallError};
ghost use Rattle.edit_steps.specs.Causes.{IsUngathered, StopsAtInput};
ghost use Rattle.edit_steps.specs.Errors.{IsConfigError};
ghost use Rattle.edit_steps.specs.Faults.{CountsFault};
ghost use Rattle.edit_steps.specs.Named.{AreConfigured, AreGathered, IsUnreadFile, pair_of};
ghost use Rattle.edit_steps.specs.Shared.{HasLists, IsListed, IsOfSome, lists_for};

use crate::RunResult;
use crate::upgrade_read::config_faults::at_config;
use crate::upgrade_read::named::{NamedFiles, configs_in, list_paths};
use crate::upgrade_read::shared::{ListsByFiles, SharedConfigs};
use edit_base::CargoResult;
use edit_metadata::Input;
use edit_sources::{Config, ConfigCache};
use edit_store::Store;
use std::alloc::Global;

/// The configurations of a manifest, in order of precedence, between those of the given files.
fn gather<S: Store>(
    alloc: Global,
    named: &NamedFiles,
    manifest: &str,
    cargo_home: Option<&str>,
    cache: &mut ConfigCache,
    files: &mut S,
) -> CargoResult<Vec<Config>>
    ensures store { OnlyReads (S.view files.old) (S.view files.new) }
    ensures preserved { AreCached (S.view files.old) cache.old → AreCached (S.view files.new) cache.new }
    ensures read { IfOk result (λ v. AreCached (S.view files.old) cache.old
        → (S.view files.old).tells ≡ true → AreGathered (S.view files.old).file_at
        (given cargo_home.entry) (pair_of named.now) manifest.now v.items) }
    ensures error { IfErr result (λ e. IsMemory e
        ⊎ (HasFailed (S.view files.old).faults (S.view files.new).faults e
        ⊎ (IsUnreadFile (pair_of named.now).first e ⊎ (IsUnreadFile (pair_of named.now).last e
        ⊎ ConfigsFail (S.view files.old).tells (S.view files.old).file_at manifest.now
        (given cargo_home.entry) e)))) }
    // the files that count before the one at fault were read: that named first, then the manifest's own
    ensures first { IfErr result (λ e. IsMemory e
        ⊎ (HasFailed (S.view files.old).faults (S.view files.new).faults e
        ⊎ (AreCached (S.view files.old) cache.old → (S.view files.old).tells ≡ true
        → IsUngathered (S.view files.old).file_at (given cargo_home.entry) (pair_of named.now)
        manifest.now e))) }
{
    let mut configs = configs_in(alloc, named.first.as_ref())?;
    let mut own = match cache.read_configs(alloc, files, manifest, cargo_home) {
        Ok(own) => own,
        Err(error) => return Err(error),
    };
    configs.append(&mut own)?;
    let mut last = configs_in(alloc, named.last.as_ref())?;
    configs.append(&mut last)?;
    Ok(configs)
}

/// Gives the next input a list that exists, where one has the files of its manifest, and returns whether one
/// has.
fn share<S: Store>(
    alloc: Global,
    named: &NamedFiles,
    manifest: &str,
    cargo_home: Option<&str>,
    cache: &mut ConfigCache,
    lists: &mut ListsByFiles,
    files: &mut S,
) -> CargoResult<bool>
    requires { HasLists lists.old.shared }
    ensures store { OnlyReads (S.view files.old) (S.view files.new) }
    ensures preserved { AreCached (S.view files.old) cache.old → AreCached (S.view files.new) cache.new }
    ensures lists { OnOk result (HasLists lists.new.shared) }
    ensures each { IfOk result (λ found. IsTrue found
        → length lists.new.shared.which.items ≡ length lists.old.shared.which.items + 1) }
    ensures listed { IfOk result (λ found. IsTrue found → AreCached (S.view files.old) cache.old
        → (S.view files.old).tells ≡ true
        → All (IsOfSome (S.view files.old).file_at (given cargo_home.entry) (pair_of named.now))
        lists.old.shared.lists.items
        → IsListed (S.view files.old).file_at (given cargo_home.entry) (pair_of named.now) manifest.now
        lists.old.shared lists.new.shared) }
    ensures none { IfOk result (λ found. IsFalse found → lists.new.shared ≡ lists.old.shared) }
    ensures error { IfErr result (λ e. IsMemory e
        ⊎ (HasFailed (S.view files.old).faults (S.view files.new).faults e
        ⊎ ConfigsFail (S.view files.old).tells (S.view files.old).file_at manifest.now
        (given cargo_home.entry) e)) }
    // the file that is named first was read for the lists that exist
    ensures first { IfErr result (λ e. IsMemory e
        ⊎ (HasFailed (S.view files.old).faults (S.view files.new).faults e
        ⊎ (AreCached (S.view files.old) cache.old → (S.view files.old).tells ≡ true
        → All (IsOfSome (S.view files.old).file_at (given cargo_home.entry) (pair_of named.now))
        lists.old.shared.lists.items
        → IsUngathered (S.view files.old).file_at (given cargo_home.entry) (pair_of named.now)
        manifest.now e))) }
{
    if lists.shared.lists.is_empty() {
        return Ok(false);
    }
    let own = match cache.config_paths(alloc, files, manifest, cargo_home) {
        Ok(own) => own,
        Err(error) => return Err(error),
    };
    let paths = list_paths(alloc, named, own)?;
    let found = lists.share(alloc, &paths)?;
    Ok(found)
}

/// Reads the configurations of each of the inputs, in order, each file once.
fn read_all<S: Store>(
    alloc: Global,
    named: &NamedFiles,
    inputs: &[Input],
    cargo_home: Option<&str>,
    files: &mut S,
) -> CargoResult<SharedConfigs>
    ensures store { OnlyReads (S.view files.old) (S.view files.new) }
    ensures read { IfOk result (λ s. (S.view files.old).tells ≡ true → AreConfigured
        (S.view files.old).file_at (given cargo_home.entry) (pair_of named.now) inputs.now (lists_for s)) }
    ensures each { IfOk result (λ s. length s.which.items ≡ length inputs.now) }
    ensures lists { IfOk result HasLists }
    // the configurations of the inputs before the one at fault were read
    ensures error { IfErr result (λ e. IsCallError call.Read (S.view files.old) (S.view files.new) e
        ⊎ ((S.view files.old).tells ≡ true → StopsAtInput (S.view files.old).file_at
        (given cargo_home.entry) (pair_of named.now) inputs.now e)) }
    ensures counted { IfErr result (λ e. CountsFault (S.view files.old) (S.view files.new) e) }
    // over any store
    ensures only { IfErr result (λ e. IsCallError call.Read (S.view files.old) (S.view files.new) e
        ⊎ IsConfigError e) }
{
    let mut cache = ConfigCache::new(alloc);
    let mut lists = ListsByFiles::new(alloc);
    'inputs: for input in inputs {
        match share(
            alloc,
            named,
            input.path.as_str(),
            cargo_home,
            &mut cache,
            &mut lists,
            files,
        ) {
            Ok(true) => continue 'inputs,
            Ok(false) => {}
            Err(cause) => return Err(cause),
        }
        let configs = match gather(
            alloc,
            named,
            input.path.as_str(),
            cargo_home,
            &mut cache,
            files,
        ) {
            Ok(configs) => configs,
            Err(error) => return Err(error),
        };
        lists.add(alloc, configs)?;
    }
    Ok(lists.shared)
}

/// Reads the configurations of each of the inputs; an error has the configuration file that caused it.
pub(crate) fn read_configurations<S: Store>(
    alloc: Global,
    named: &NamedFiles,
    inputs: &[Input],
    cargo_home: Option<&str>,
    files: &mut S,
) -> RunResult<SharedConfigs>
    ensures store { OnlyReads (S.view files.old) (S.view files.new) }
    ensures read { IfOk result (λ s. (S.view files.old).tells ≡ true → AreConfigured
        (S.view files.old).file_at (given cargo_home.entry) (pair_of named.now) inputs.now (lists_for s)) }
    ensures each { IfOk result (λ s. length s.which.items ≡ length inputs.now) }
    ensures lists { IfOk result HasLists }
    // the configurations of the inputs before the one at fault were read
    ensures error { IfErr result (λ r. IsCallError call.Read (S.view files.old) (S.view files.new) r.error
        ⊎ ((S.view files.old).tells ≡ true → StopsAtInput (S.view files.old).file_at
        (given cargo_home.entry) (pair_of named.now) inputs.now r.error)) }
    ensures counted { IfErr result (λ r. CountsFault (S.view files.old) (S.view files.new) r.error) }
    // over any store
    ensures only { IfErr result (λ r. IsCallError call.Read (S.view files.old) (S.view files.new) r.error
        ⊎ IsConfigError r.error) }
{
    match read_all(alloc, named, inputs, cargo_home, files) {
        Ok(all) => Ok(all),
        Err(error) => Err(at_config(alloc, error, inputs, cargo_home, files)),
    }
}
