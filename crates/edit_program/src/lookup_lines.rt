//! The lookups of an upgrade, found without an index, as lines of text.
ghost use Rattle.std.specs.Prelude.{◌≡◌, ◌⊎◌, ◌++◌, IfErr, IfOk, OnOk, string_bytes};
ghost use Rattle.std.specs.List.{flat_map};
ghost use Rattle.edit_base.specs.Errors.{IsMemory, number_of};
ghost use Rattle.edit_sources.specs.Folders.{HasBadName};
ghost use Rattle.edit_program.specs.LookupLines.{HasBadLookup, line_text, lookup_as_line};
ghost use Rattle.edit_program.specs.NoIndex.{no_view};

use edit_base::{CargoResult, Error};
use edit_sources::index::{Index, IndexKrate};
use edit_sources::index_dir::layout_path;
use edit_sources::is_crate_name;
use edit_upgrade::Look;
use std::alloc::{AllocError, Global};
use url::Url;

/// An index without any crate: every valid name is answered with "no such crate".
#[derive(Debug, Drop)]
pub struct NoIndex {}

impl Index for NoIndex {
    ghost view = { λ _. no_view };

    fn look(
        &mut self,
        alloc: Global,
        _registry: &Url,
        name: &str,
    ) -> CargoResult<Option<IndexKrate>> {
        if !is_crate_name(name) {
            return Err(Error::BadCrateName {
                name: String::from_str(alloc, name)?,
            });
        }
        Ok(None)
    }

    fn faults(&self) -> u64 {
        0
    }
}

/// Appends a line: three texts, separated by tabs.
fn push_line(text: &mut String, address: &str, name: &str, path: &str) -> Result<(), AllocError>
    ensures { OnOk result (string_bytes text.new
        ≡ string_bytes text.old ++ line_text address.now name.now path.now) }
{
    text.push_str(address)?;
    text.push('\t')?;
    text.push_str(name)?;
    text.push('\t')?;
    text.push_str(path)?;
    text.push('\n')
}

/// Appends the line of a lookup.
fn push_lookup(alloc: Global, text: &mut String, lookup: &Look) -> CargoResult<()>
    ensures ok { OnOk result (string_bytes text.new ≡ string_bytes text.old ++ lookup_as_line lookup.now) }
    ensures error { IfErr result
        (λ e. IsMemory e ⊎ HasBadName (string_bytes lookup.now.name) (number_of e)) }
{
    let path = layout_path(alloc, lookup.name.as_str())?;
    push_line(
        text,
        lookup.registry.as_str(),
        lookup.name.as_str(),
        path.as_str(),
    )?;
    Ok(())
}

/// A line for each lookup: the address, the name, and the path of the name's file in an index, separated by
/// tabs. Fails with `Error::BadCrateName` for a name that is not valid in an index.
pub fn lookup_lines_text(alloc: Global, lookups: &[Look]) -> CargoResult<String>
    ensures text { IfOk result (λ s. string_bytes s ≡ flat_map lookup_as_line lookups.now) }
    ensures error { IfErr result (λ e. IsMemory e ⊎ HasBadLookup lookups.now (number_of e)) }
{
    let mut text = String::new(alloc);
    for lookup in lookups {
        push_lookup(alloc, &mut text, lookup)?;
    }
    Ok(text)
}
