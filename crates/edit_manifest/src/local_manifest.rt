//! A manifest with the path of its file.
ghost use Rattle.std.specs.Prelude.{◌≡◌, ◌⊎◌, Some, true, false, IfErr, IfOk, OnErr, OnOk, option_map, string_bytes};
ghost use Rattle.edit_base.specs.Errors.{IsMemory};
ghost use Rattle.edit_base.specs.declared.errors.DeviceCall.TheVariants as call;
ghost use Rattle.edit_store.specs.Store.{HasCause, IsWrittenAtMostOnce, IsWrittenOnce, OnlyReads, SameBut};
ghost use Rattle.edit_manifest.specs.Finding.{IsFound, IsUnfoundOrUnread};
ghost use Rattle.edit_manifest.specs.Loaded.{IsReadError, IsUnloaded, IsBadFile, NamesPath, is_absolute};
ghost use Rattle.edit_manifest.specs.Located.{IsFault, NamesStart};

use crate::locate::find;
use crate::manifest::Manifest;
use edit_base::errors::{CargoResult, Error};
use edit_store::Store;
use std::alloc::Global;
use std::ops::{Deref, DerefMut};

/// A manifest with the path of its file.
#[derive(Debug, Drop)]
pub struct LocalManifest {
    pub path: String,
    pub manifest: Manifest,
}

/// Returns `Error::NotAbsolute` for a path.
fn not_absolute(alloc: Global, path: &str) -> Error
    ensures { IsMemory result ⊎ NamesPath path.now result }
{
    match String::from_str(alloc, path) {
        Ok(path) => Error::NotAbsolute { path },
        Err(error) => Error::from(error),
    }
}

/// Reads the manifest at a path.
fn load<S: Store>(alloc: Global, store: &mut S, path: String) -> CargoResult<LocalManifest>
    ensures store { OnlyReads (S.view store.old) (S.view store.new) }
    ensures path { IfOk result (λ m. m.path ≡ path) }
    ensures read { IfOk result (λ m. (S.view store.old).tells ≡ true
        → (S.view store.old).file_at (string_bytes path) ≡ Some m.manifest.document.bytes) }
    ensures error { IfErr result (λ e.
        IsFault call.Read (S.view store.old).faults (S.view store.new).faults e
        ⊎ ((S.view store.old).tells ≡ true
        → IsBadFile ((S.view store.old).file_at (string_bytes path)) e)) }
    // for any store
    ensures only { IfErr result (λ e. IsFault call.Read (S.view store.old).faults (S.view store.new).faults e
        ⊎ IsReadError e) }
{
    match store.read(alloc, path.as_str()) {
        Ok(Some(bytes)) => {
            let manifest = Manifest::read_bytes(alloc, &bytes)?;
            Ok(LocalManifest { path, manifest })
        }
        Ok(None) => Err(Error::NoManifest),
        Err(error) => Err(error),
    }
}

impl LocalManifest {
    /// Finds a manifest as the function `find` does, and reads it as `try_new` does.
    pub fn find<S: Store>(
        alloc: Global,
        store: &mut S,
        specified: Option<&str>,
        current: &str,
    ) -> CargoResult<LocalManifest>
        ensures store { OnlyReads (S.view store.old) (S.view store.new) }
        ensures found { IfOk result (λ m. (S.view store.old).tells ≡ true
            → IsFound (S.view store.old).file_at current.now
            (option_map (λ s. s.now) specified.entry) (string_bytes m.path) m.manifest.document.bytes) }
        ensures error { IfErr result (IsUnfoundOrUnread (S.view store.old) (S.view store.new)
            current.now (option_map (λ s. s.now) specified.entry)) }
        // for any store
        ensures only { IfErr result (λ e.
            IsFault call.Kind (S.view store.old).faults (S.view store.new).faults e
            ⊎ (IsFault call.Read (S.view store.old).faults (S.view store.new).faults e
            ⊎ (NamesStart current.now (option_map (λ s. s.now) specified.entry) e ⊎ IsReadError e))) }
    {
        let path = find(alloc, store, specified, current)?;
        load(alloc, store, path)
    }

    /// Reads the manifest at an absolute path. `Error::NotAbsolute` where the path is not absolute,
    /// `Error::Device` where the device fails, `Error::NoManifest` where no file exists at the path, and
    /// `Error::NotUtf8` or `Error::NotToml` where its bytes are not UTF-8 or not TOML.
    pub fn try_new<S: Store>(alloc: Global, store: &mut S, path: &str) -> CargoResult<LocalManifest>
        ensures store { OnlyReads (S.view store.old) (S.view store.new) }
        ensures path { IfOk result (λ m. string_bytes m.path ≡ path.now) }
        ensures absolute { OnOk result (is_absolute path.now ≡ true) }
        ensures read { IfOk result (λ m. (S.view store.old).tells ≡ true
            → (S.view store.old).file_at path.now ≡ Some m.manifest.document.bytes) }
        ensures error { IfErr result (IsUnloaded (S.view store.old) (S.view store.new) path.now) }
        // for any store
        ensures only { IfErr result (λ e.
            IsFault call.Read (S.view store.old).faults (S.view store.new).faults e
            ⊎ (((is_absolute path.now ≡ false) × NamesPath path.now e) ⊎ IsReadError e)) }
    {
        if !path.starts_with('/') {
            return Err(not_absolute(alloc, path));
        }
        let path = String::from_str(alloc, path)?;
        load(alloc, store, path)
    }

    /// Writes the manifest to its file; `Error::Device` where the device fails.
    pub fn write<S: Store>(&self, alloc: Global, store: &mut S) -> CargoResult<()>
        ensures tells { (S.view store.new).tells ≡ (S.view store.old).tells }
        ensures written { OnOk result ((S.view store.old).tells ≡ true
            → (S.view store.new).file_at (string_bytes self.now.path)
            ≡ Some self.now.manifest.document.bytes) }
        ensures others { SameBut (string_bytes self.now.path) (S.view store.old).file_at
            (S.view store.new).file_at }
        ensures once { OnOk result
            (IsWrittenOnce (string_bytes self.now.path) (S.view store.old) (S.view store.new)) }
        ensures at_most_once { OnErr result
            (IsWrittenAtMostOnce (string_bytes self.now.path) (S.view store.old) (S.view store.new)) }
        ensures cause { HasCause call.Write (S.view store.old) (S.view store.new) result }
    {
        let text = self.manifest.document.as_str();
        store.write(alloc, self.path.as_str(), text.as_bytes())
    }
}

impl Deref for LocalManifest {
    type Target = Manifest;

    ghost deref_gives = { λ local manifest. manifest ≡ local.manifest };

    fn deref(&self) -> &Manifest
        ensures { result.now ≡ self.now.manifest }
    {
        &self.manifest
    }
}

impl DerefMut for LocalManifest {
    ghost use Rattle.std.specs.Borrow.{Lends, sem};
    ghost use Rattle.edit_manifest.specs.contracts.local_manifest.LocalManifest.{the_row};
    ghost use Rattle.edit_manifest.specs.contracts.manifest.Manifest.{the_row as manifest_row};

    ghost deref_mut_gives = { λ local manifest. manifest ≡ local.manifest };

    fn deref_mut(&mut self) -> &mut Manifest
        ensures* writes_back { sem 𝓛 (Lends the_row manifest_row self.entry result
            (λ m. record self.old { manifest = m })) }
        ensures shows { result.now ≡ self.old.manifest }
    {
        &mut self.manifest
    }
}
