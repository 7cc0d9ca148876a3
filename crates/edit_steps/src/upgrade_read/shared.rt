//! Lists of configurations that inputs share.
ghost use Rattle.std.specs.Prelude.{◌≡◌, ◌+◌, [], IfOk, IsFalse, IsTrue, MatchOption, None, OnOk, Some, length, map, option_copied, slice_get, string_bytes};
ghost use Rattle.std.specs.Global.{Vec};
ghost use Rattle.edit_sources.specs.Configured.{paths_of};
ghost use Rattle.edit_sources.specs.declared.config.Config.{Config};
ghost use Rattle.edit_steps.specs.Shared.{AddsList, HasLists, SharesList};

use edit_sources::Config;
use std::alloc::{AllocError, Global};
use std::collections::BTreeMap;

/// The configurations of inputs; inputs under the same configuration files share a list.
#[derive(Drop)]
pub struct SharedConfigs {
    /// The lists, each in order of precedence.
    pub lists: Vec<Vec<Config>>,
    /// For each input, in order, the index of its list.
    pub which: Vec<usize>,
}

/// The lists of the inputs so far, and the index of each list by the paths of its files.
#[derive(Drop)]
pub(crate) struct ListsByFiles {
    pub(crate) shared: SharedConfigs,
    known: BTreeMap<String, usize>,
}

/// Whether the files of a list have these paths.
fn has_paths(list: &[Config], paths: &[String]) -> bool
    ensures { IsTrue result → paths_of list.now ≡ map string_bytes paths.now }
{
    if list.len() != paths.len() {
        return false;
    }
    for i in 0..list.len() {
        if list[i].path != paths[i] {
            return false;
        }
    }
    true
}

/// The paths of the files of a list.
fn paths_in(alloc: Global, list: &[Config]) -> Result<Vec<String>, AllocError> {
    let mut paths = Vec::with_capacity(alloc, list.len())?;
    for config in list {
        paths.push(config.path.clone()?)?;
    }
    Ok(paths)
}

/// The paths, a line each.
fn path_lines(alloc: Global, paths: &[String]) -> Result<String, AllocError> {
    let mut lines = String::new(alloc);
    for path in paths {
        lines.push_str(path.as_str())?;
        lines.push('\n')?;
    }
    Ok(lines)
}

impl SharedConfigs {
    /// No configurations, for no inputs.
    pub(crate) fn new(alloc: Global) -> SharedConfigs
        ensures lists { result.lists.items ≡ [] }
        ensures which { result.which.items ≡ [] }
    {
        SharedConfigs {
            lists: Vec::new(alloc),
            which: Vec::new(alloc),
        }
    }

    /// The list of an input; `None` where there are fewer inputs.
    pub fn list_of(&self, input: usize) -> Option<&Vec<Config>>
        ensures { MatchOption (slice_get self.now.which.items input) (option_copied result ≡ None)
            (λ j. option_copied result ≡ slice_get self.now.lists.items j) }
    {
        match self.which.get(input) {
            Some(index) => self.lists.get(*index),
            None => None,
        }
    }

    /// Whether the files of the list at an index have these paths.
    fn has_at(&self, index: usize, paths: &[String]) -> bool
        ensures { IsTrue result → (list : Vec Config) × (slice_get self.now.lists.items index ≡ Some list)
            × (paths_of list.items ≡ map string_bytes paths.now) }
    {
        match self.lists.get(index) {
            Some(list) => has_paths(list, paths),
            None => false,
        }
    }
}

impl ListsByFiles {
    /// No lists, for no inputs.
    pub(crate) fn new(alloc: Global) -> ListsByFiles
        ensures lists { result.shared.lists.items ≡ [] }
        ensures which { result.shared.which.items ≡ [] }
    {
        ListsByFiles {
            shared: SharedConfigs::new(alloc),
            known: BTreeMap::new(alloc),
        }
    }

    /// Gives the next input the list whose files have these paths, and returns whether there is one.
    pub(crate) fn share(&mut self, alloc: Global, paths: &[String]) -> Result<bool, AllocError>
        requires { HasLists self.old.shared }
        ensures lists { OnOk result (HasLists self.new.shared) }
        ensures each { IfOk result (λ found. IsTrue found
            → length self.new.shared.which.items ≡ length self.old.shared.which.items + 1) }
        ensures shared { IfOk result (λ found. IsTrue found
            → SharesList (map string_bytes paths.now) self.old.shared self.new.shared) }
        ensures none { IfOk result (λ found. IsFalse found → self.new.shared ≡ self.old.shared) }
    {
        let lines = path_lines(alloc, paths)?;
        let Some(index) = self.known.get(lines.as_str()).copied() else {
            return Ok(false);
        };
        if self.shared.has_at(index, paths) {
            self.shared.which.push(index)?;
            return Ok(true);
        }
        Ok(false)
    }

    /// Adds the list of the next input.
    pub(crate) fn add(&mut self, alloc: Global, own: Vec<Config>) -> Result<(), AllocError>
        requires { HasLists self.old.shared }
        ensures lists { OnOk result (HasLists self.new.shared) }
        ensures each { OnOk result
            (length self.new.shared.which.items ≡ length self.old.shared.which.items + 1) }
        ensures added { OnOk result (AddsList own self.old.shared self.new.shared) }
    {
        let paths = paths_in(alloc, &own)?;
        let lines = path_lines(alloc, &paths)?;
        let next = self.shared.lists.len();
        self.known.insert(lines, next)?;
        self.shared.lists.push(own)?;
        self.shared.which.push(next)?;
        Ok(())
    }
}
