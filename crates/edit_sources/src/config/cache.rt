//! The configurations of manifests; each file is read once for all of them.
ghost use Rattle.std.specs.Prelude.{◌≡◌, ◌⊎◌, [], ℕ, List, All, true, IfOk, IfErr, OnOk, map, string_bytes, unwrap_or};
ghost use Rattle.edit_base.specs.Errors.{IsMemory};
ghost use Rattle.edit_sources.specs.Configured.{given};
ghost use Rattle.edit_sources.specs.ConfigurationFiles.{AreReadIn, IsSearched, HasFailed, FolderFails, PlaceFails, AreConfigPaths, AreConfigs, ConfigsFail, IsFirstMalformed, StopsAtConfig};
ghost use Rattle.edit_sources.specs.CachedConfigs.{AreCached, IsSearchedIn, found_at, found_in};
ghost use Rattle.edit_store.specs.Store.{OnlyReads, StoreView};

use super::Config;
use super::copies::{copied_paths, copies};
use super::files::{add, configs_at, places};
use edit_base::CargoResult;
use edit_store::store::Store;
use std::alloc::{AllocError, Global};
use std::collections::BTreeMap;

/// The configurations that were found in each folder that was searched: that of its file, and then those of
/// the files that it includes. Errors are not cached.
#[derive(Debug, Drop)]
pub struct ConfigCache {
    found: BTreeMap<String, Vec<Config>>,
}

impl ConfigCache {
    /// Returns an empty cache.
    pub fn new(alloc: Global) -> ConfigCache
        ensures { (seen : StoreView) → AreCached seen result }
    {
        ConfigCache {
            found: BTreeMap::new(alloc),
        }
    }

    /// Stores the configurations that were found in a folder.
    fn insert_configs(
        &mut self,
        alloc: Global,
        place: &str,
        found: Vec<Config>,
    ) -> Result<(), AllocError>
        ensures cached { (seen : StoreView) → AreCached seen self.old
            → (seen.tells ≡ true → AreReadIn seen.file_at place.now found.items)
            → AreCached seen self.new }
        ensures searched { OnOk result (IsSearchedIn self.new place.now) }
        ensures others { (other : List ℕ) → IsSearchedIn self.old other → IsSearchedIn self.new other }
    {
        let place = String::from_str(alloc, place)?;
        self.found.insert(place, found)?;
        Ok(())
    }

    /// Searches a folder through the store, unless it is cached.
    fn search_folder<S: Store>(
        &mut self,
        alloc: Global,
        store: &mut S,
        place: &str,
    ) -> CargoResult<()>
        ensures store { OnlyReads (S.view store.old) (S.view store.new) }
        ensures preserved { AreCached (S.view store.old) self.old → AreCached (S.view store.new) self.new }
        ensures searched { OnOk result (IsSearchedIn self.new place.now) }
        ensures others { (other : List ℕ) → IsSearchedIn self.old other → IsSearchedIn self.new other }
        ensures error { IfErr result (λ e. IsMemory e
            ⊎ (HasFailed (S.view store.old).faults (S.view store.new).faults e
            ⊎ FolderFails (S.view store.old).tells (S.view store.old).file_at place.now e)) }
    {
        if self.found.contains_key(place) {
            return Ok(());
        }
        let found = match configs_at(alloc, store, place) {
            Ok(found) => found,
            Err(error) => return Err(error),
        };
        self.insert_configs(alloc, place, found)?;
        Ok(())
    }

    /// Searches these folders through the store, unless they are cached.
    fn search_folders<S: Store>(
        &mut self,
        alloc: Global,
        store: &mut S,
        places: &[String],
    ) -> CargoResult<()>
        ensures store { OnlyReads (S.view store.old) (S.view store.new) }
        ensures preserved { AreCached (S.view store.old) self.old → AreCached (S.view store.new) self.new }
        ensures searched { OnOk result (All (IsSearchedIn self.new) (map string_bytes places.now)) }
        ensures error { IfErr result (λ e. IsMemory e
            ⊎ (HasFailed (S.view store.old).faults (S.view store.new).faults e ⊎ PlaceFails
            (S.view store.old).tells (S.view store.old).file_at (map string_bytes places.now) e)) }
        ensures first { IfErr result (λ e. IsMemory e
            ⊎ (HasFailed (S.view store.old).faults (S.view store.new).faults e
            ⊎ (AreCached (S.view store.old) self.old → (S.view store.old).tells ≡ true
            → IsFirstMalformed (S.view store.old).file_at (map string_bytes places.now) e))) }
    {
        for place in places {
            match self.search_folder(alloc, store, place.as_str()) {
                Ok(()) => {}
                Err(error) => return Err(error),
            }
        }
        Ok(())
    }

    /// Searches the folders of a manifest, and returns them.
    fn search<S: Store>(
        &mut self,
        alloc: Global,
        store: &mut S,
        manifest_path: &str,
        cargo_home: Option<&str>,
    ) -> CargoResult<Vec<String>>
        ensures store { OnlyReads (S.view store.old) (S.view store.new) }
        ensures preserved { AreCached (S.view store.old) self.old → AreCached (S.view store.new) self.new }
        ensures places { IfOk result (λ v. IsSearched manifest_path.now (given cargo_home.entry)
            (map string_bytes v.items)) }
        ensures searched { IfOk result (λ v. All (IsSearchedIn self.new) (map string_bytes v.items)) }
        ensures error { IfErr result (λ e. IsMemory e
            ⊎ (HasFailed (S.view store.old).faults (S.view store.new).faults e
            ⊎ ConfigsFail (S.view store.old).tells (S.view store.old).file_at manifest_path.now
            (given cargo_home.entry) e)) }
        ensures first { IfErr result (λ e. IsMemory e
            ⊎ (HasFailed (S.view store.old).faults (S.view store.new).faults e
            ⊎ (AreCached (S.view store.old) self.old → (S.view store.old).tells ≡ true
            → StopsAtConfig (S.view store.old).file_at manifest_path.now (given cargo_home.entry) e))) }
    {
        let places = match places(alloc, manifest_path, cargo_home) {
            Ok(places) => places,
            Err(error) => return Err(error),
        };
        match self.search_folders(alloc, store, &places) {
            Ok(()) => Ok(places),
            Err(error) => Err(error),
        }
    }

    /// The configurations that were found in a folder; none where no file exists there.
    fn cached_configs(&self, place: &str) -> &[Config]
        ensures { result.now ≡ unwrap_or (found_at self.now place.now) [] }
    {
        match self.found.get(place) {
            Some(found) => found.as_slice(),
            None => &[],
        }
    }

    /// The configurations that were found in these folders, in their order.
    fn configs_in(&self, alloc: Global, places: &[String]) -> Result<Vec<&Config>, AllocError>
        ensures { IfOk result (λ v. map (λ c. c.now) v.items
            ≡ found_in self.now (map string_bytes places.now)) }
    {
        let mut configs = Vec::new(alloc);
        for place in places {
            add(&mut configs, self.cached_configs(place.as_str()))?;
        }
        Ok(configs)
    }

    /// Returns the configurations of a manifest, as the function `read_configs` does. A folder is searched
    /// only once, so its files must not change between calls.
    pub fn read_configs<S: Store>(
        &mut self,
        alloc: Global,
        store: &mut S,
        manifest_path: &str,
        cargo_home: Option<&str>,
    ) -> CargoResult<Vec<Config>>
        ensures store { OnlyReads (S.view store.old) (S.view store.new) }
        ensures preserved { AreCached (S.view store.old) self.old → AreCached (S.view store.new) self.new }
        ensures read { IfOk result (λ v. AreCached (S.view store.old) self.old
            → (S.view store.old).tells ≡ true
            → AreConfigs (S.view store.old).file_at manifest_path.now (given cargo_home.entry) v.items) }
        // an error never concerns a folder that is cached
        ensures error { IfErr result (λ e. IsMemory e
            ⊎ (HasFailed (S.view store.old).faults (S.view store.new).faults e
            ⊎ ConfigsFail (S.view store.old).tells (S.view store.old).file_at manifest_path.now
            (given cargo_home.entry) e)) }
        // of several malformed files the first one is the error
        ensures first { IfErr result (λ e. IsMemory e
            ⊎ (HasFailed (S.view store.old).faults (S.view store.new).faults e
            ⊎ (AreCached (S.view store.old) self.old → (S.view store.old).tells ≡ true
            → StopsAtConfig (S.view store.old).file_at manifest_path.now (given cargo_home.entry) e))) }
    {
        let places = match self.search(alloc, store, manifest_path, cargo_home) {
            Ok(places) => places,
            Err(error) => return Err(error),
        };
        let found = self.configs_in(alloc, &places)?;
        let configs = copies(alloc, &found)?;
        Ok(configs)
    }

    /// Returns the paths of the files that `read_configs` would read for a manifest, in the same order; no
    /// configuration is copied.
    pub fn config_paths<S: Store>(
        &mut self,
        alloc: Global,
        store: &mut S,
        manifest_path: &str,
        cargo_home: Option<&str>,
    ) -> CargoResult<Vec<String>>
        ensures store { OnlyReads (S.view store.old) (S.view store.new) }
        ensures preserved { AreCached (S.view store.old) self.old → AreCached (S.view store.new) self.new }
        ensures read { IfOk result (λ v. AreCached (S.view store.old) self.old
            → (S.view store.old).tells ≡ true
            → AreConfigPaths (S.view store.old).file_at manifest_path.now (given cargo_home.entry)
            (map string_bytes v.items)) }
        // an error never concerns a folder that is cached
        ensures error { IfErr result (λ e. IsMemory e
            ⊎ (HasFailed (S.view store.old).faults (S.view store.new).faults e
            ⊎ ConfigsFail (S.view store.old).tells (S.view store.old).file_at manifest_path.now
            (given cargo_home.entry) e)) }
        // of several malformed files the first one is the error
        ensures first { IfErr result (λ e. IsMemory e
            ⊎ (HasFailed (S.view store.old).faults (S.view store.new).faults e
            ⊎ (AreCached (S.view store.old) self.old → (S.view store.old).tells ≡ true
            → StopsAtConfig (S.view store.old).file_at manifest_path.now (given cargo_home.entry) e))) }
    {
        let places = match self.search(alloc, store, manifest_path, cargo_home) {
            Ok(places) => places,
            Err(error) => return Err(error),
        };
        let found = self.configs_in(alloc, &places)?;
        let paths = copied_paths(alloc, &found)?;
        Ok(paths)
    }
}

/// Returns the configurations of a manifest, the first one first: in each folder from the manifest's upwards
/// `.cargo/config`, else `.cargo/config.toml`, and then `config`, else `config.toml` of `cargo_home`, if it
/// is given. Only files count (Cargo reference, "Hierarchical structure"). Each is followed by the files that
/// it includes: what stands later in `include` comes first (Cargo reference, "Configuration", include).
///
/// `Error::Config` where such a file or its `include` is malformed, where an included file is absent and not
/// optional or was read before, and where a file leads to more than 128; `Error::Device` where the store
/// fails.
pub fn read_configs<S: Store>(
    alloc: Global,
    store: &mut S,
    manifest_path: &str,
    cargo_home: Option<&str>,
) -> CargoResult<Vec<Config>>
    ensures store { OnlyReads (S.view store.old) (S.view store.new) }
    ensures read { IfOk result (λ v. (S.view store.old).tells ≡ true
        → AreConfigs (S.view store.old).file_at manifest_path.now (given cargo_home.entry) v.items) }
    ensures error { IfErr result (λ e. IsMemory e
        ⊎ (HasFailed (S.view store.old).faults (S.view store.new).faults e
        ⊎ ConfigsFail (S.view store.old).tells (S.view store.old).file_at manifest_path.now
        (given cargo_home.entry) e)) }
    // of several malformed files the first one is the error
    ensures first { IfErr result (λ e. IsMemory e
        ⊎ (HasFailed (S.view store.old).faults (S.view store.new).faults e
        ⊎ ((S.view store.old).tells ≡ true
        → StopsAtConfig (S.view store.old).file_at manifest_path.now (given cargo_home.entry) e))) }
{
    let mut cache = ConfigCache::new(alloc);
    cache.read_configs(alloc, store, manifest_path, cargo_home)
}
