//! An index in a single file, which is read once.
ghost use Rattle.std.specs.Prelude.{◌≡◌, ◌⊎◌, ℕ, [], List, None, Ok, Some, true, false, IfOk, IfErr, IfSome, OnOk, map, slice_get, string_bytes, unwrap_or};
ghost use Rattle.std.specs.Option.{option_map_or};
ghost use Rattle.std.specs.Str.{bytes_eq};
ghost use Rattle.edit_base.specs.Errors.{IsMemory, number_of};
ghost use Rattle.edit_version.specs.IndexEntry.{entry_of};
ghost use Rattle.edit_sources.specs.FileIndex.{AreNamed, FileGives, GroupsByName, HasWithheld, HoldsLines, HoldsWithheld, IsAdded, file_view, if_any, if_known, items_at, items_of};
ghost use Rattle.edit_sources.specs.Index.{HasLookupCause, IsLookupErrorNumber, SameOutcomes, answer_of, bad_name, entries_of, lookup_error, shared_in};
ghost use Rattle.edit_sources.specs.IndexLines.{IsLinesError, lines_of};
ghost use Rattle.edit_sources.specs.Names.{is_crate_name};
ghost use Rattle.edit_sources.specs.Published.{text_by};
ghost use Rattle.edit_sources.specs.Withheld.{nothing, withheld_of};

use crate::crate_name::is_crate_name;
use crate::index::{Index, IndexKrate, share};
use crate::index_group::Group;
use crate::index_lines::read_lines;
use crate::published::PublishedBefore;
use crate::published_lines::{PublishedLines, read_published_lines};
use crate::withheld::Withheld;
use crate::withheld_crates::WithheldCrates;
use edit_base::errors::{CargoResult, Error};
use edit_version::fetch::IndexVersion;
use std::alloc::{AllocError, Global};
use std::collections::BTreeMap;
use std::mem;
use std::rc::Rc;
use url::Url;

/// An index in a single file, which is read once. The address of a lookup is ignored.
#[derive(Debug, Drop)]
pub struct FileIndex {
    groups: BTreeMap<String, Group>,
    /// What was held back of each crate that the file has lines of; empty without a bound.
    withheld: WithheldCrates,
}

impl FileIndex {
    /// Parses the lines of an index; `Error::IndexLine` with the number of the first malformed line.
    pub fn read(alloc: Global, bytes: &[u8]) -> CargoResult<FileIndex>
        ensures entries { IfOk result (λ i. HoldsLines i bytes.now) }
        ensures withheld { IfOk result (λ i. HoldsWithheld i None bytes.now) }
        ensures error { IfErr result (IsLinesError (lines_of bytes.now)) }
    {
        let entries = read_lines(alloc, bytes)?;
        Ok(FileIndex {
            groups: group_by_crate(alloc, entries)?,
            withheld: BTreeMap::new(alloc),
        })
    }

    /// Parses the lines of an index, without the versions that were not published by the bound, if there is
    /// one; `Error::IndexLine` with the number of the first malformed line.
    pub fn with_bound(
        alloc: Global,
        bytes: &[u8],
        bound: Option<PublishedBefore>,
    ) -> CargoResult<FileIndex>
        ensures entries { IfOk result (λ i. HoldsLines i (text_by bound bytes.now)) }
        ensures withheld { IfOk result (λ i. HoldsWithheld i bound bytes.now) }
        ensures error { IfErr result (IsLinesError (lines_of bytes.now)) }
    {
        let Some(bound) = bound else {
            return FileIndex::read(alloc, bytes);
        };
        let lines = match read_published_lines(alloc, bytes, bound) {
            Ok(lines) => lines,
            Err(error) => return Err(error),
        };
        let PublishedLines {
            entries,
            crates,
            ..
        } = lines;
        Ok(FileIndex {
            groups: group_by_crate(alloc, entries)?,
            withheld: crates,
        })
    }
}

/// Groups entries by name; those of one name stay in their order.
fn group_by_crate(
    alloc: Global,
    entries: Vec<IndexVersion>,
) -> Result<BTreeMap<String, Group>, AllocError>
    ensures { IfOk result (λ m. GroupsByName m entries.items) }
{
    let mut groups = BTreeMap::new(alloc);
    let mut run: Vec<IndexVersion> = Vec::new(alloc);
    for entry in entries {
        if !is_same_crate(&run, &entry) {
            let ended = mem::replace(&mut run, Vec::new(alloc));
            add_run(alloc, &mut groups, ended)?;
            run.reserve_exact(1)?;
        }
        run.push(entry)?;
    }
    add_run(alloc, &mut groups, run)?;
    Ok(groups)
}

/// Whether an entry has the same name as the first entry of a run.
fn is_same_crate(run: &[IndexVersion], entry: &IndexVersion) -> bool
    ensures { result ≡ option_map_or
        (λ e. bytes_eq (string_bytes e.name) (string_bytes entry.now.name))
        (slice_get run.now 0)
        false }
{
    match run.first() {
        Some(first) => first.name == entry.name,
        None => false,
    }
}

/// Appends a run, whose entries all have one name, to the group of that name.
fn add_run(
    alloc: Global,
    groups: &mut BTreeMap<String, Group>,
    run: Vec<IndexVersion>,
) -> Result<(), AllocError>
    ensures { IfOk result (λ _. (name : List ℕ)
        → AreNamed name run.items
        → IsAdded groups.old run.items groups.new) }
{
    let Some(first) = run.first() else {
        return Ok(());
    };
    let group = groups.entry(first.name.clone()?)?.or_insert(Group {
        shared: None,
        versions: Vec::new(alloc),
    });
    if group.versions.is_empty() {
        group.versions = run;
        return Ok(());
    }
    let mut run = run;
    group.versions.append(&mut run)?;
    Ok(())
}

/// Shares the entries of a crate; `None` where it has none, or they can't be shared.
fn share_group(
    alloc: Global,
    groups: &mut BTreeMap<String, Group>,
    name: &str,
    withheld: Withheld,
) -> Result<Option<Rc<IndexKrate>>, AllocError>
    ensures same { (q : List ℕ) → items_at groups.new q ≡ items_at groups.old q }
    ensures entries { IfOk result (λ r. IfSome r
        (λ s. s.value.versions.items ≡ items_at groups.old name.now)) }
    ensures any { IfOk result (λ r. IfSome r
        (λ s. if_any (entries_of s.value) ≡ Some (entries_of s.value))) }
    ensures withheld { IfOk result (λ r. IfSome r (λ s. s.value.withheld ≡ withheld)) }
{
    match groups.get_mut(name) {
        Some(group) => group.share(alloc, withheld),
        None => Ok(None),
    }
}

/// Copies the entries of a crate, if there are any.
fn copied_entries(alloc: Global, group: Option<&Group>) -> CargoResult<Vec<IndexVersion>>
    ensures ok { IfOk result (λ v. map entry_of v.items
        ≡ map entry_of (option_map_or (λ g. items_of g.now) group.entry [])) }
    ensures error { IfErr result IsMemory }
{
    match group {
        Some(group) => group.copy_entries(alloc),
        None => Ok(Vec::new(alloc)),
    }
}

/// `Error::BadCrateName` for what is no name of a crate.
fn check_name(alloc: Global, name: &str) -> CargoResult<()>
    ensures ok { OnOk result (is_crate_name name.now ≡ true) }
    ensures error { IfErr result (λ e. IsMemory e
        ⊎ ((is_crate_name name.now ≡ false) × IsLookupErrorNumber (number_of e)
        × (lookup_error e ≡ bad_name name.now))) }
{
    if is_crate_name(name) {
        Ok(())
    } else {
        Err(Error::BadCrateName {
            name: String::from_str(alloc, name)?,
        })
    }
}

/// The answer for a crate of which nothing is left.
fn empty_krate(alloc: Global, withheld: Option<Withheld>) -> Option<IndexKrate>
    ensures answer { answer_of result ≡ if_known withheld [] }
    ensures withheld { withheld_of result ≡ withheld }
{
    match withheld {
        Some(withheld) => Some(IndexKrate {
            versions: Vec::new(alloc),
            withheld,
        }),
        None => None,
    }
}

/// The answer for a crate with these entries; `None` where there are none, and nothing was held back.
fn krate_of(
    alloc: Global,
    versions: Vec<IndexVersion>,
    withheld: Option<Withheld>,
) -> Option<IndexKrate>
    ensures answer { answer_of result ≡ if_known withheld (map entry_of versions.items) }
    ensures withheld { IfSome result (λ k. k.withheld ≡ unwrap_or withheld nothing) }
{
    if versions.is_empty() {
        return empty_krate(alloc, withheld);
    }
    Some(IndexKrate {
        versions,
        withheld: withheld.unwrap_or(Withheld::nothing()),
    })
}

impl Index for FileIndex {
    ghost view = { file_view };

    fn look(
        &mut self,
        alloc: Global,
        _registry: &Url,
        name: &str,
    ) -> CargoResult<Option<IndexKrate>>
        ensures same { SameOutcomes (file_view self.old).gives (file_view self.new).gives }
        ensures given { IfOk result (λ k. FileGives self.old name.now (Ok (answer_of k))) }
        ensures cause { HasLookupCause (file_view self.old) (file_view self.new) _registry.now name.now
            result }
        ensures withheld { IfOk result (λ k. IfSome k (λ k. HasWithheld self.old name.now k.withheld)) }
    {
        check_name(alloc, name)?;
        let versions = copied_entries(alloc, self.groups.get(name))?;
        let withheld = self.withheld.get(name).copied();
        Ok(krate_of(alloc, versions, withheld))
    }

    fn look_shared(
        &mut self,
        alloc: Global,
        registry: &Url,
        name: &str,
    ) -> CargoResult<Option<Rc<IndexKrate>>>
        ensures same { SameOutcomes (file_view self.old).gives (file_view self.new).gives }
        ensures given { IfOk result (λ k. FileGives self.old name.now (Ok (answer_of (shared_in k)))) }
        ensures cause { HasLookupCause (file_view self.old) (file_view self.new) registry.now name.now
            result }
        ensures withheld { IfOk result (λ k. IfSome (shared_in k)
            (λ k. HasWithheld self.old name.now k.withheld)) }
    {
        check_name(alloc, name)?;
        let withheld = self.withheld.get(name).copied();
        let known = withheld.unwrap_or(Withheld::nothing());
        if let Some(shared) = share_group(alloc, &mut self.groups, name, known)? {
            return Ok(Some(shared));
        }
        let versions = copied_entries(alloc, self.groups.get(name))?;
        Ok(share(alloc, krate_of(alloc, versions, withheld))?)
    }

    fn faults(&self) -> u64 {
        0
    }
}
