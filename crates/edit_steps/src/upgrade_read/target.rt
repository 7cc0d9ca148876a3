//! The manifests to plan for.
ghost use Rattle.std.specs.Prelude.{◌≡◌, ◌⊎◌, ◌∷◌, [], None, IfErr, IfOk, true};
ghost use Rattle.edit_metadata.specs.Inputs.{HaveOwnPaths};
ghost use Rattle.edit_store.specs.Store.{OnlyReads};
ghost use Rattle.edit_steps.specs.RequestView.{request_view};
ghost use Rattle.edit_steps.specs.Causes.{HasNoTarget, IsFailure};
ghost use Rattle.edit_steps.specs.Errors.{IsTargetError};
ghost use Rattle.edit_steps.specs.Faults.{CountsFault};
ghost use Rattle.edit_steps.specs.Sources.{AreDocuments, IsTargetRead};

use crate::upgrade_read::found::{ReadManifest, read_manifest};
use crate::upgrade_read::source_request::SourceRequest;
use crate::{ReadWorkspace, RunResult, read_workspace};
use edit_document::Document;
use edit_metadata::{Input, Workspace};
use edit_store::Store;
use std::alloc::{AllocError, Global};

/// The manifests to plan for.
#[derive(Drop)]
pub struct Target {
    /// The given metadata, parsed.
    pub workspace: Option<Workspace>,
    pub inputs: Vec<Input>,
    /// The parsed documents of the inputs. Empty where metadata are given: an error in such a manifest is
    /// reported after errors of configurations and of the index.
    pub documents: Vec<Document>,
}

/// The target of a single manifest without metadata.
fn target_of_manifest(alloc: Global, manifest: ReadManifest) -> Result<Target, AllocError>
    requires document { manifest.document.bytes ≡ manifest.input.bytes.items }
    ensures workspace { IfOk result (λ t. t.workspace ≡ None) }
    ensures inputs { IfOk result (λ t. t.inputs.items ≡ manifest.input ∷ []) }
    ensures documents { IfOk result (λ t. AreDocuments t.documents.items t.inputs.items) }
{
    let ReadManifest { input, document } = manifest;
    let inputs = vec![in alloc; input]?;
    let documents = vec![in alloc; document]?;
    Ok(Target {
        workspace: None,
        inputs,
        documents,
    })
}

/// Reads the workspace of the given metadata, else the nearest manifest.
pub(crate) fn read_target<S: Store>(
    alloc: Global,
    request: &SourceRequest<'_>,
    current: &str,
    files: &mut S,
) -> RunResult<Target>
    ensures store { OnlyReads (S.view files.old) (S.view files.new) }
    ensures read { IfOk result (λ t. (S.view files.old).tells ≡ true
        → IsTargetRead (S.view files.old).file_at current.now (request_view request.now) t) }
    ensures paths { IfOk result (λ t. HaveOwnPaths t.inputs.items) }
    ensures documents { IfOk result (λ t. AreDocuments t.documents.items t.inputs.items) }
    ensures error { IfErr result (λ r. IsFailure (S.view files.old) (S.view files.new) r.error
        ⊎ ((S.view files.old).tells ≡ true
        → HasNoTarget (S.view files.old).file_at current.now (request_view request.now) r.error)) }
    ensures counted { IfErr result (λ r. CountsFault (S.view files.old) (S.view files.new) r.error) }
    // over any store
    ensures only { IfErr result (λ r. IsFailure (S.view files.old) (S.view files.new) r.error
        ⊎ IsTargetError current.now (request_view request.now).metadata
        (request_view request.now).manifest r.error) }
{
    let (rust, writes) = (request.rust, request.writes);
    let Some(named) = request.metadata_json else {
        let manifest = read_manifest(alloc, request.manifest_path, current, rust, writes, files)?;
        return Ok(target_of_manifest(alloc, manifest)?);
    };
    let (given, ignored) = (rust.given_version(), rust.is_ignored());
    let read = read_workspace(alloc, named, current, given, ignored, writes, files)?;
    let ReadWorkspace { workspace, inputs } = read;
    Ok(Target {
        workspace: Some(workspace),
        inputs,
        documents: Vec::new(alloc),
    })
}
