//! Plans the transfers for lookups, and writes the configuration that curl reads.
ghost use Rattle.std.specs.Prelude.{◌≡◌, ◌≤◌, ◌⊎◌, Some, true, IfErr, IfOk, IfSome, MatchOption, OnOk, codes};
ghost use Rattle.edit_base.specs.Errors.{IsMemory};
ghost use Rattle.edit_fetch.specs.Plans.{HasFailedIn, IsConfigOf, IsPlanned, IsUnreadable, working_file};
ghost use Rattle.edit_sources.specs.ConfigurationFiles.{HasFailed};
ghost use Rattle.edit_store.specs.Store.{OnlyReads, SameBut, SameFiles};

use crate::requests::{effective_requests, request_count};
use crate::settings::NetSettings;
use crate::tokens::Token;
use crate::transfers::requests_text;
use edit_base::CargoResult;
use edit_lookups::read_lookups;
use edit_store::Store;
use std::alloc::Global;

/// The parameters of a fetch.
#[derive(Clone, Copy, Debug)]
pub struct FetchPlan<'a> {
    /// The folder of the cache.
    pub cache: &'a str,
    /// The working folder of this run.
    pub room: &'a str,
    pub settings: &'a NetSettings,
    pub tokens: &'a [Token<'a>],
    /// The addresses of registries of which nothing is requested: each wants a token, and none can be sent.
    pub withheld: &'a [&'a str],
}

/// Writes a file of the working folder.
fn write_working_file<S: Store>(
    alloc: Global,
    store: &mut S,
    room: &str,
    name: &str,
    bytes: &[u8],
) -> CargoResult<()>
    ensures written { OnOk result ((S.view store.old).tells ≡ true
        → (S.view store.new).file_at (working_file room.now name.now) ≡ Some bytes.now) }
    ensures others { SameBut (working_file room.now name.now) (S.view store.old).file_at
        (S.view store.new).file_at }
    ensures tells { (S.view store.new).tells ≡ (S.view store.old).tells }
    ensures later { (S.view store.old).faults ≤ (S.view store.new).faults }
    ensures error { IfErr result (λ e. IsMemory e
        ⊎ HasFailedIn (S.view store.old).faults (S.view store.new).faults e) }
{
    let path = format!(in alloc; "{room}/{name}")?;
    match store.write(alloc, path.as_str(), bytes) {
        Ok(()) => Ok(()),
        Err(error) => Err(error),
    }
}

/// Plans the transfers for the lookups in a text, which it writes to the file `lookups` of the working
/// folder. Returns the number of transfers; `None` where the text is malformed, and then no file is written.
///
/// An entry is fetched if its registry uses the sparse protocol, unless the settings are offline. No cached
/// file is read.
pub fn fetch_plan<S: Store>(
    alloc: Global,
    store: &mut S,
    plan: &FetchPlan<'_>,
    text: &str,
) -> CargoResult<Option<usize>>
    ensures planned { IfOk result (λ o. MatchOption o (IsUnreadable text.now
        × SameFiles (S.view store.old).file_at (S.view store.new).file_at)
        (λ n. IsPlanned plan.now text.now n)) }
    ensures copied { IfOk result (λ o. IfSome o (λ _. (S.view store.old).tells ≡ true
        → (S.view store.new).file_at (working_file plan.now.room.now (codes "lookups")) ≡ Some text.now)) }
    ensures others { SameBut (working_file plan.now.room.now (codes "lookups"))
        (S.view store.old).file_at (S.view store.new).file_at }
    ensures tells { (S.view store.new).tells ≡ (S.view store.old).tells }
    ensures error { IfErr result (λ e. IsMemory e
        ⊎ HasFailedIn (S.view store.old).faults (S.view store.new).faults e) }
{
    let Some(lookups) = read_lookups(alloc, text)? else {
        return Ok(None);
    };
    match write_working_file(alloc, store, plan.room, "lookups", text.as_bytes()) {
        Ok(()) => Ok(Some(request_count(plan, &lookups))),
        Err(error) => Err(error),
    }
}

/// The configuration of curl for the transfers of the lookups in a text, which may hold tokens; `None` where
/// the text is malformed.
pub fn fetch_config<S: Store>(
    alloc: Global,
    store: &mut S,
    plan: &FetchPlan<'_>,
    text: &str,
) -> CargoResult<Option<Vec<u8>>>
    ensures store { OnlyReads (S.view store.old) (S.view store.new) }
    ensures config { IfOk result (λ o. MatchOption o (IsUnreadable text.now)
        (λ v. (S.view store.old).tells ≡ true
        → IsConfigOf (S.view store.old).file_at plan.now text.now v.items)) }
    ensures error { IfErr result (λ e. IsMemory e
        ⊎ HasFailed (S.view store.old).faults (S.view store.new).faults e) }
{
    let Some(lookups) = read_lookups(alloc, text)? else {
        return Ok(None);
    };
    let requests = match effective_requests(alloc, store, plan, &lookups) {
        Ok(requests) => requests,
        Err(error) => return Err(error),
    };
    let config = requests_text(alloc, plan.settings, plan.room, &requests)?;
    Ok(Some(config))
}
