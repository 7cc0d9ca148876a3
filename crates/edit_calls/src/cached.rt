//! Calls that borrow a cache.
ghost use Rattle.std.specs.Prelude.{◌≡◌, IfOk, length};
ghost use Rattle.edit_metadata.specs.Inputs.{HaveOwnPaths};
ghost use Rattle.edit_steps.specs.Shared.{HasLists};
ghost use Rattle.edit_steps.specs.Sources.{MayBePlanned};

use crate::counted::CountedIndex;
use crate::plans::show_outputs;
use crate::print_helpers::print_text;
use edit_base::CargoResult;
use edit_cache::IndexCache;
use edit_metadata::Input;
use edit_sources::FileIndex;
use edit_sources::registry::resolve;
use edit_steps::upgrade_read::{
    IndexSource, RustChoice, SharedConfigs, SourceRequest, Sources, read_index, read_sources,
};
use edit_store::HostStore;
use edit_upgrade::{Options, plan_shared};
use std::alloc::Global;
use std::cell::Cell;
use url::Url;

/// The name whose answer is cached before the call.
const HELD: &str = "held";

/// A cache over an index in one file, whose lookups are counted.
type Cache<'a> = IndexCache<CountedIndex<'a, FileIndex>>;

/// A call: the function, the crate's name and registry, and the count of lookups.
#[derive(Clone, Copy)]
struct CacheCall<'a> {
    what: &'a str,
    registry: &'a Url,
    name: &'a str,
    lookups: &'a Cell<u64>,
}

/// The number of cached entries of a name.
fn count_of(cache: &Cache<'_>, registry: &Url, name: &str) -> usize {
    match cache.cached_krate(registry, name) {
        Some(krate) => krate.versions.len(),
        None => 0,
    }
}

impl<'a> CacheCall<'a> {
    /// Prints the numbers of cached entries after memory ran out: of the name that was cached before the
    /// call, and of the name of the call.
    fn show_cached(self, rt: &HostRuntime, cache: &Cache<'_>) {
        let held = count_of(cache, self.registry, HELD);
        let cached = count_of(cache, self.registry, self.name);
        print_text(
            rt,
            format_args!("after error 46: {held} held, {cached} cached, then "),
        );
    }

    /// Prints the number of lookups.
    fn show_lookups(self, rt: &HostRuntime) {
        let lookups = self.lookups.get();
        print_text(rt, format_args!("{lookups} lookups\n"));
    }

    /// Prints the first three versions of a ranking.
    fn ranking(self, rt: &HostRuntime, cache: &mut Cache<'_>) -> CargoResult<()> {
        if let Some(ranked) = cache.ranked(rt.alloc(), self.registry, self.name)? {
            for n in 0..3 {
                if let Some(version) = ranked.version(n) {
                    print_text(rt, format_args!("{version} "));
                }
            }
        }
        self.show_lookups(rt);
        Ok(())
    }

    /// Prints the version of each entry.
    fn entries(self, rt: &HostRuntime, cache: &mut Cache<'_>) -> CargoResult<()> {
        if let Some(krate) = cache.krate(rt.alloc(), self.registry, self.name)? {
            for entry in &krate.versions {
                print_text(rt, format_args!("{} ", entry.version));
            }
        }
        self.show_lookups(rt);
        Ok(())
    }

    /// Makes the call.
    fn make_cache_call(
        self,
        rt: &HostRuntime,
        cache: &mut Cache<'_>,
        inputs: &[Input],
        configs: &SharedConfigs,
    ) -> CargoResult<()>
        requires paths { HaveOwnPaths inputs.now }
        requires each { length configs.now.which.items ≡ length inputs.now }
        requires lists { HasLists configs.now }
    {
        match self.what {
            "ranked" => self.ranking(rt, cache),
            "krate" => self.entries(rt, cache),
            _ => upgrade(rt, cache, inputs, configs),
        }
    }

    /// Makes the call with a cache that has one answer, and again where memory ran out.
    fn call_again_after_failure(
        self,
        rt: &HostRuntime,
        cache: &mut Cache<'_>,
        inputs: &[Input],
        configs: &SharedConfigs,
    ) -> CargoResult<()>
        requires paths { HaveOwnPaths inputs.now }
        requires each { length configs.now.which.items ≡ length inputs.now }
        requires lists { HasLists configs.now }
    {
        cache.fetch(rt.alloc(), self.registry, HELD)?;
        match self.make_cache_call(rt, cache, inputs, configs) {
            Err(error) if error.number() == 46 => {
                self.show_cached(rt, cache);
                self.make_cache_call(rt, cache, inputs, configs)
            }
            answer => answer,
        }
    }
}

/// The options of an upgrade whose command line has no arguments.
fn default_options(alloc: Global) -> Options {
    Options {
        compatible: true,
        incompatible: false,
        pinned: false,
        never_lower: false,
        level: None,
        crate_levels: Vec::new(alloc),
        package: Vec::new(alloc),
        exclude: Vec::new(alloc),
        dry_run: false,
        locked: false,
        recursive: None,
        verbosity: 0,
    }
}

/// Plans an upgrade, and prints its outputs.
fn upgrade(
    rt: &HostRuntime,
    cache: &mut Cache<'_>,
    inputs: &[Input],
    configs: &SharedConfigs,
) -> CargoResult<()>
    requires paths { HaveOwnPaths inputs.now }
    requires each { length configs.now.which.items ≡ length inputs.now }
    requires lists { HasLists configs.now }
{
    let options = default_options(rt.alloc());
    let documents = Vec::new(rt.alloc());
    let SharedConfigs { lists, which } = configs;
    let plan = plan_shared(
        rt.alloc(),
        &options,
        inputs,
        &documents,
        lists,
        which,
        cache,
    )?;
    show_outputs(rt, &plan.outputs);
    Ok(())
}

/// Reads the manifest and the configurations that a call needs from a folder.
fn sources_of(rt: &HostRuntime, folder: &str) -> CargoResult<Sources>
    ensures { IfOk result MayBePlanned }
{
    let mut files = HostStore::new(rt.clone()?);
    let request = SourceRequest {
        manifest_path: None,
        metadata_json: None,
        config: None,
        default_config: None,
        rust: RustChoice::Ignored,
        writes: false,
    };
    match read_sources(rt.alloc(), &request, folder, None, &mut files) {
        Ok(sources) => Ok(sources),
        Err(failure) => Err(failure.error),
    }
}

/// Reads the index that a call needs from a folder.
fn index_of(rt: &HostRuntime, folder: &str) -> CargoResult<IndexSource> {
    let mut files = HostStore::new(rt.clone()?);
    match read_index(
        rt.alloc(),
        Some("index.json"),
        None,
        None,
        folder,
        &mut files,
    ) {
        Ok(index) => Ok(index),
        Err(failure) => Err(failure.error),
    }
}

/// Makes a call with the files of a folder.
fn over_files(rt: &HostRuntime, folder: &str, call: CacheCall<'_>) -> CargoResult<()> {
    let Sources { target, configs } = sources_of(rt, folder)?;
    let IndexSource::Lines(index) = index_of(rt, folder)? else {
        return Ok(());
    };
    let index = CountedIndex::new(index, call.lookups);
    let mut cache = IndexCache::new(rt.alloc(), index);
    call.call_again_after_failure(rt, &mut cache, &target.inputs, &configs)
}

/// Makes a call with the files of a folder: `ranked` or `krate` for a name of the default registry, or an
/// upgrade.
pub(crate) fn over_cache(
    rt: &HostRuntime,
    what: &str,
    folder: &str,
    name: &str,
) -> CargoResult<()> {
    let registry = resolve(rt.alloc(), &[], None)?;
    let lookups = Cell::new(0);
    let call = CacheCall {
        what,
        registry: &registry,
        name,
        lookups: &lookups,
    };
    over_files(rt, folder, call)
}
