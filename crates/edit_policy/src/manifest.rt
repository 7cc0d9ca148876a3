//! The policy in the bytes of a root manifest.
ghost use Rattle.std.specs.Prelude.{IfErr, IfOk};
ghost use Rattle.edit_policy.specs.Manifests.{IsManifestFault, IsManifestPolicy};

use crate::error::PolicyError;
use crate::policy::Policy;
use edit_base::Error;
use edit_document::Document;
use std::alloc::Global;

/// Reads the policy in the document of a root manifest, as `Policy::of_manifest` does, and describes it by
/// the bytes of the document.
pub fn document_policy(alloc: Global, document: &Document) -> Result<Policy, PolicyError>
    ensures policy { IfOk result (IsManifestPolicy document.now.bytes) }
    ensures error { IfErr result (IsManifestFault document.now.bytes) }
{
    document.lemma_form();
    Policy::of_manifest(alloc, document)
}

/// Reads the policy in the bytes of a root manifest, as `document_policy` does of their document. It says
/// nothing where the bytes are no TOML document.
pub fn manifest_policy(alloc: Global, bytes: &[u8]) -> Result<Policy, PolicyError>
    ensures policy { IfOk result (IsManifestPolicy bytes.now) }
    ensures error { IfErr result (IsManifestFault bytes.now) }
{
    let Ok(text) = str::from_utf8(bytes) else {
        return Ok(Policy::empty(alloc));
    };
    match Document::read(alloc, text) {
        Ok(document) => document_policy(alloc, &document),
        Err(Error::NotToml { .. }) => Ok(Policy::empty(alloc)),
        Err(error) => Err(PolicyError::Failed(error)),
    }
}
