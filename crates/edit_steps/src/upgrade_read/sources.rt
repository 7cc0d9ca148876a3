//! The manifests that an upgrade changes, and their configurations.
ghost use Rattle.std.specs.Prelude.{◌≡◌, ◌⊎◌, IfErr, IfOk, true};
ghost use Rattle.edit_sources.specs.Configured.{given};
ghost use Rattle.edit_store.specs.Store.{OnlyReads};
ghost use Rattle.edit_steps.specs.RequestView.{request_view};
ghost use Rattle.edit_steps.specs.Causes.{IsFailure, IsReadCause};
ghost use Rattle.edit_steps.specs.Errors.{IsSourceError};
ghost use Rattle.edit_steps.specs.Faults.{CountsFault};
ghost use Rattle.edit_steps.specs.Sources.{AreRead, MayBePlanned};

use crate::RunResult;
use crate::upgrade_read::configs::read_configurations;
use crate::upgrade_read::named::read_named;
use crate::upgrade_read::shared::SharedConfigs;
use crate::upgrade_read::source_request::SourceRequest;
use crate::upgrade_read::target::{Target, read_target};
use edit_store::Store;
use std::alloc::Global;

/// The manifests that an upgrade changes, and their configurations, as they were read.
#[derive(Drop)]
pub struct Sources {
    pub target: Target,
    /// The configurations of the inputs.
    pub configs: SharedConfigs,
}

/// Reads the manifests that an upgrade changes, and their configurations, in this order: the given metadata
/// with their manifests, else the nearest manifest; the given configuration files; the configurations of each
/// manifest. No file changes.
pub fn read_sources<S: Store>(
    alloc: Global,
    request: &SourceRequest<'_>,
    current: &str,
    cargo_home: Option<&str>,
    files: &mut S,
) -> RunResult<Sources>
    ensures store { OnlyReads (S.view files.old) (S.view files.new) }
    ensures read { IfOk result (λ s. (S.view files.old).tells ≡ true
        → AreRead (S.view files.old).file_at current.now (given cargo_home.entry)
        (request_view request.now) s) }
    // and what a plan requires, over any store
    ensures planned { IfOk result MayBePlanned }
    // of several malformed configuration files the first one is the error
    ensures error { IfErr result (λ r. IsReadCause current.now (given cargo_home.entry)
        (request_view request.now) (S.view files.old) (S.view files.new) r.error) }
    ensures counted { IfErr result (λ r. CountsFault (S.view files.old) (S.view files.new) r.error) }
    // over any store
    ensures only { IfErr result (λ r. IsFailure (S.view files.old) (S.view files.new) r.error
        ⊎ IsSourceError current.now (request_view request.now) r.error) }
{
    let target = read_target(alloc, request, current, files)?;
    let named = read_named(alloc, request, current, files)?;
    let configs = read_configurations(alloc, &named, &target.inputs, cargo_home, files)?;
    Ok(Sources { target, configs })
}
