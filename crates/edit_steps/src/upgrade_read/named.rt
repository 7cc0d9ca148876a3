//! The configuration files that the command line gives.
ghost use Rattle.std.specs.Prelude.{◌≡◌, ◌⊎◌, IfErr, IfOk, map, option_map, string_bytes, true};
ghost use Rattle.edit_base.specs.Errors.{IsMemory};
ghost use Rattle.edit_base.specs.declared.errors.DeviceCall.TheVariants as call;
ghost use Rattle.edit_sources.specs.Configured.{given};
ghost use Rattle.edit_store.specs.Store.{OnlyReads, IsCallError};
ghost use Rattle.edit_steps.specs.RequestView.{request_view};
ghost use Rattle.edit_steps.specs.Causes.{LacksNamed};
ghost use Rattle.edit_steps.specs.Errors.{IsNamedError, IsPairError};
ghost use Rattle.edit_steps.specs.Faults.{CountsFault};
ghost use Rattle.edit_steps.specs.Named as paths;
ghost use Rattle.edit_steps.specs.Named.{ArePairRead, AreConfigsIn, HasNoFile, IsNamedRead, IsUnreadFile, pair_of, path_and_bytes, given_file_view};

use crate::upgrade_read::source_request::SourceRequest;
use crate::{RunResult, absolute_path, at_file, at_path};
use edit_base::{CargoResult, Error};
use edit_sources::Config;
use edit_store::Store;
use std::alloc::{AllocError, Global};

/// A configuration file that the command line gives, with its bytes.
#[derive(Drop)]
pub(crate) struct NamedFile {
    pub(crate) path: String,
    pub(crate) bytes: Vec<u8>,
}

/// The configuration files that the command line gives: those with the highest and with the lowest
/// precedence.
#[derive(Drop)]
pub(crate) struct NamedFiles {
    pub(crate) first: Option<NamedFile>,
    pub(crate) last: Option<NamedFile>,
}

/// Reads the given file; `None` where none is given.
fn read_file<S: Store>(
    alloc: Global,
    named: Option<&str>,
    current: &str,
    files: &mut S,
) -> RunResult<Option<NamedFile>>
    ensures store { OnlyReads (S.view files.old) (S.view files.new) }
    ensures read { IfOk result (λ f. (S.view files.old).tells ≡ true → IsNamedRead
        (S.view files.old).file_at current.now (given named.entry) (option_map path_and_bytes f)) }
    ensures error { IfErr result (λ r. IsCallError call.Read (S.view files.old) (S.view files.new) r.error
        ⊎ ((S.view files.old).tells ≡ true
        → HasNoFile (S.view files.old).file_at current.now (given named.entry) r.error)) }
    ensures counted { IfErr result (λ r. CountsFault (S.view files.old) (S.view files.new) r.error) }
    // over any store
    ensures only { IfErr result (λ r. IsCallError call.Read (S.view files.old) (S.view files.new) r.error
        ⊎ IsNamedError (given named.entry) r.error) }
{
    let Some(named) = named else {
        return Ok(None);
    };
    let path = absolute_path(alloc, current, named)?;
    match files.read_stream(alloc, path.as_str()) {
        Ok(Some(bytes)) => Ok(Some(NamedFile { path, bytes })),
        Ok(None) => Err(at_path(alloc, Error::NoPath, path.as_str())),
        Err(error) => Err(at_file(alloc, error, path.as_str(), files.reason(alloc))),
    }
}

/// Reads the given configuration files.
pub(crate) fn read_named<S: Store>(
    alloc: Global,
    request: &SourceRequest<'_>,
    current: &str,
    files: &mut S,
) -> RunResult<NamedFiles>
    ensures store { OnlyReads (S.view files.old) (S.view files.new) }
    ensures read { IfOk result (λ n. (S.view files.old).tells ≡ true → ArePairRead
        (S.view files.old).file_at current.now (request_view request.now) (pair_of n)) }
    ensures error { IfErr result (λ r. IsCallError call.Read (S.view files.old) (S.view files.new) r.error
        ⊎ ((S.view files.old).tells ≡ true
        → LacksNamed (S.view files.old).file_at current.now (request_view request.now) r.error)) }
    ensures counted { IfErr result (λ r. CountsFault (S.view files.old) (S.view files.new) r.error) }
    // over any store
    ensures only { IfErr result (λ r. IsCallError call.Read (S.view files.old) (S.view files.new) r.error
        ⊎ IsPairError (request_view request.now) r.error) }
{
    let first = read_file(alloc, request.config, current, files)?;
    let last = read_file(alloc, request.default_config, current, files)?;
    Ok(NamedFiles { first, last })
}

/// Parses the configuration of a file, where there is one. A file that is no configuration is an error.
pub(crate) fn configs_in(alloc: Global, file: Option<&NamedFile>) -> CargoResult<Vec<Config>>
    ensures content { IfOk result (λ v. AreConfigsIn (given_file_view file.entry) v.items) }
    ensures error { IfErr result (λ e. IsMemory e ⊎ IsUnreadFile (given_file_view file.entry) e) }
{
    let mut configs = Vec::new(alloc);
    if let Some(file) = file {
        match Config::read(alloc, file.path.as_str(), &file.bytes) {
            Ok(config) => configs.push(config)?,
            Err(error) => return Err(error),
        }
    }
    Ok(configs)
}

/// The path of a file, where there is one.
fn path_in(alloc: Global, file: Option<&NamedFile>) -> Result<Vec<String>, AllocError>
    ensures { IfOk result (λ v. map string_bytes v.items ≡ paths.path_in (given_file_view file.entry)) }
{
    let mut paths = Vec::new(alloc);
    if let Some(file) = file {
        paths.push(file.path.clone()?)?;
    }
    Ok(paths)
}

/// The paths of all configuration files of a manifest, in order of precedence, given those of its own.
pub(crate) fn list_paths(
    alloc: Global,
    named: &NamedFiles,
    mut own: Vec<String>,
) -> Result<Vec<String>, AllocError>
    ensures { IfOk result (λ v. map string_bytes v.items
        ≡ paths.list_paths (pair_of named.now) (map string_bytes own.items)) }
{
    let mut paths = path_in(alloc, named.first.as_ref())?;
    paths.append(&mut own)?;
    let mut last = path_in(alloc, named.last.as_ref())?;
    paths.append(&mut last)?;
    Ok(paths)
}
