//! Finds when a version was published, by the index entries of the run.

use crate::bounds::eligible_versions::INDEXES;
use cli_machine::index_files;
use edit_base::CargoResult;
use edit_base::paths::join;
use edit_sources::index_dir::{layout_path, registry_folder};
use edit_store::Store;
use serde_json::Value;
use std::alloc::Global;
use url::Url;

/// The time of publication of a version, as it is written in the lines of an index entry.
fn time_in(alloc: Global, lines: &str, version: &str) -> CargoResult<Option<String>> {
    for line in lines.lines() {
        if let Ok(value) = Value::from_str(alloc, line)
            && value.get("vers").and_then(Value::as_str) == Some(version)
            && let Some(time) = value.get("pubtime").and_then(Value::as_str)
        {
            return Ok(Some(String::from_str(alloc, time)?));
        }
    }
    Ok(None)
}

/// The time of publication of a version of a crate, if an index entry of the run has it.
pub(super) fn publication_time(
    rt: &HostRuntime,
    room: &str,
    address: &Url,
    name: &str,
    version: &str,
) -> CargoResult<Option<String>> {
    let alloc = rt.alloc();
    let registry = registry_folder(alloc, address)?;
    let path = layout_path(alloc, name)?;
    for index in INDEXES {
        let folder = join(alloc, room, index)?;
        let mut files = index_files(rt, room, Some(index))?;
        let entry = format!(in alloc; "{folder}/{registry}/{path}")?;
        if let Some(bytes) = files.read(alloc, entry.as_str())?
            && let Ok(lines) = std::str::from_utf8(&bytes)
            && let Some(time) = time_in(alloc, lines, version)?
        {
            return Ok(Some(time));
        }
    }
    Ok(None)
}
