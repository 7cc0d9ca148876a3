//! Reads the policy of the manifest in the root.
ghost use Rattle.std.specs.Prelude.{◌≢◌, ◌⊎◌, IfErr, IfOk, Option, Some, option_copied, ◌≡◌, MatchOption};
ghost use Rattle.edit_base.specs.Errors.{IsMemory, number_of};
ghost use Rattle.edit_metadata.specs.declared.input.Input.{Input};
ghost use Rattle.edit_policy.specs.Manifests.{IsManifestFault, IsManifestPolicy};
ghost use Rattle.edit_steps.specs.Sources.{AreDocuments};
ghost use Rattle.edit_program.specs.Followed.{HasFaultIn, HasPolicyFault, HasRoot, HasRootFault, IsFollowed, IsParsedFrom, IsPolicyIn, IsRootPolicy};
ghost use Rattle.edit_base.specs.declared.errors.Error.TheVariants as error;
ghost use Rattle.edit_sources.specs.Configured.{given};
ghost use Rattle.edit_program.specs.Merging.{HasNoTime, IsAgeBound, IsBoundBy, LacksTime};

use crate::upgrade_run::upgrade_args::UpgradeArgs;
use edit_base::Error;
use edit_diagnostics::{explain_age, explain_policy};
use edit_document::Document;
use edit_metadata::{Input, root_input};
use edit_policy::{Policy, PolicyError, document_policy, manifest_policy};
use edit_sources::PublishedBefore;
use edit_steps::upgrade_read::Target;
use edit_steps::{RunError, RunResult};
use std::alloc::Global;

/// The policy in a manifest, of which this is the document where it is parsed already.
fn input_policy(
    alloc: Global,
    input: &Input,
    document: Option<&Document>,
) -> Result<Policy, PolicyError>
    requires document { IsParsedFrom (Some input.now) (option_copied document) }
    ensures policy { IfOk result (IsManifestPolicy input.now.bytes.items) }
    ensures error { IfErr result (IsManifestFault input.now.bytes.items) }
{
    match document {
        Some(document) => document_policy(alloc, document),
        None => manifest_policy(alloc, &input.bytes),
    }
}

/// The policy in a manifest, of which this is the document where it is parsed already; one that says nothing
/// where there is no manifest.
fn policy_in(alloc: Global, root: Option<&Input>, document: Option<&Document>) -> RunResult<Policy>
    requires document { IsParsedFrom (option_copied root) (option_copied document) }
    ensures policy { IfOk result (IsPolicyIn (option_copied root.entry)) }
    ensures error { IfErr result (λ r. HasFaultIn (option_copied root.entry) r.error) }
    ensures counted { IfErr result (λ r. number_of r.error ≢ 3) }
{
    let Some(input) = root else {
        return Ok(Policy::empty(alloc));
    };
    match input_policy(alloc, input, document) {
        Ok(policy) => Ok(policy),
        Err(error) => Err(explain_policy(alloc, input, error)),
    }
}

/// The document of the manifest in the root, where it is parsed already: without metadata it is the only one.
fn root_document(target: &Target) -> Option<&Document>
    requires documents { AreDocuments target.now.documents.items target.now.inputs.items }
    ensures { (root : Option Input) → HasRoot target.now root → IsParsedFrom root (option_copied result) }
{
    match target.workspace {
        Some(_) => None,
        None => target.documents.first(),
    }
}

/// The policy of the manifest in the root.
fn root_policy(alloc: Global, target: &Target) -> RunResult<Policy>
    requires documents { AreDocuments target.now.documents.items target.now.inputs.items }
    ensures policy { IfOk result (IsRootPolicy target.now) }
    ensures error { IfErr result (λ r. IsMemory r.error ⊎ HasRootFault target.now r.error) }
    ensures counted { IfErr result (λ r. number_of r.error ≢ 3) }
{
    let root = root_input(alloc, target.workspace.as_ref(), target.inputs.as_slice())?;
    policy_in(alloc, root, root_document(target))
}

/// The policy of the manifest in the root; one that says nothing where it is ignored.
pub(crate) fn read_policy(alloc: Global, ignored: bool, target: &Target) -> RunResult<Policy>
    requires documents { AreDocuments target.now.documents.items target.now.inputs.items }
    ensures policy { IfOk result (IsFollowed ignored target.now) }
    ensures error { IfErr result (λ r. IsMemory r.error ⊎ HasPolicyFault ignored target.now r.error) }
    ensures counted { IfErr result (λ r. number_of r.error ≢ 3) }
{
    if ignored {
        Ok(Policy::empty(alloc))
    } else {
        root_policy(alloc, target)
    }
}

/// The bound that an age in days gives, counted back from a time; `None` where there is an age and no such
/// time.
fn age_bound(time: Option<&str>, age: Option<u32>) -> Option<Option<PublishedBefore>>
    ensures { MatchOption result (HasNoTime (given time.entry) age) (IsAgeBound (given time.entry) age) }
{
    match (age, time) {
        (None, _) => Some(None),
        (Some(_), None) => None,
        (Some(days), Some(time)) => match PublishedBefore::days_before(time, days) {
            Some(bound) => Some(Some(bound)),
            None => None,
        },
    }
}

/// The bound on the time of publication: the given one, else the one of the age that the policy sets, where
/// it sets one. `None` where that age has no time from which it counts back.
fn merge_bounds(
    bound: Option<PublishedBefore>,
    time: Option<&str>,
    age: Option<u32>,
) -> Option<Option<PublishedBefore>>
    ensures { MatchOption result (LacksTime bound (given time.entry) age)
        (IsBoundBy bound (given time.entry) age) }
{
    match bound {
        Some(bound) => Some(Some(bound)),
        None => age_bound(time, age),
    }
}

/// The error where the policy sets an age, and there is no time from which it counts back.
fn untimed_age(alloc: Global, target: &Target) -> RunError
    ensures { result.error ≡ error.Policy }
{
    match root_input(alloc, target.workspace.as_ref(), target.inputs.as_slice()) {
        Ok(Some(root)) => explain_age(alloc, root),
        Ok(None) | Err(_) => RunError::from(Error::Policy),
    }
}

/// The bound on the time of publication, from the arguments and from the age that the policy sets; an error
/// where that age has no time from which it counts back.
pub(crate) fn policy_bound(
    alloc: Global,
    args: &UpgradeArgs<'_>,
    policy: &Policy,
    target: &Target,
) -> RunResult<Option<PublishedBefore>>
    ensures bound { IfOk result
        (IsBoundBy args.now.published_before (given args.now.time) policy.now.min_age) }
    ensures error { IfErr result (λ r.
        LacksTime args.now.published_before (given args.now.time) policy.now.min_age
        × (r.error ≡ error.Policy)) }
{
    match merge_bounds(args.published_before, args.time, policy.min_age) {
        Some(bound) => Ok(bound),
        None => Err(untimed_age(alloc, target)),
    }
}
