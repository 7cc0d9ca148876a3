//! The sources of dependencies.
ghost use Rattle.std.specs.Prelude.{◌≡◌, None, Some, IfOk, IfErr, option_copied, option_map, string_bytes};
ghost use Rattle.edit_base.specs.Errors.{IsMemory};
ghost use Rattle.edit_record.specs.EntryRecords.{from_path, from_registry};
ghost use Rattle.edit_record.specs.ReadEntries.{repository};
ghost use Rattle.edit_record.specs.RecordViews.{git_in, path_in, path_view, registry_in, repository_view, source_view, workspace_in};
ghost use Rattle.edit_record.specs.Records.{source_version};
ghost use Rattle.edit_version.specs.Requirement.{cut};

use super::copies::clone_text;
use edit_base::errors::CargoResult;
use edit_version::requirement::before_plus;
use std::alloc::Global;

/// A version in a registry.
#[derive(Debug, PartialEq, Eq, PartialOrd, Ord, Hash, Drop)]
pub struct RegistrySource {
    pub version: String,
}

impl RegistrySource {
    /// Returns the source with this requirement, up to its first `+`.
    pub fn new(alloc: Global, version: &str) -> CargoResult<RegistrySource>
        ensures ok { IfOk result (λ s. string_bytes s.version ≡ cut version.now) }
        ensures error { IfErr result IsMemory }
    {
        Ok(RegistrySource {
            version: String::from_str(alloc, before_plus(version))?,
        })
    }

    /// Returns a deep copy of the source.
    pub fn try_clone(&self, _alloc: Global) -> CargoResult<RegistrySource>
        ensures ok { IfOk result (λ s. string_bytes s.version ≡ string_bytes self.now.version) }
        ensures error { IfErr result IsMemory }
    {
        Ok(RegistrySource {
            version: self.version.clone()?,
        })
    }
}

/// A folder, with an optional version requirement.
#[derive(Debug, PartialEq, Eq, PartialOrd, Ord, Hash, Drop)]
pub struct PathSource {
    /// The absolute path of the folder.
    pub path: String,
    pub version: Option<String>,
}

impl PathSource {
    /// Returns the source with this folder, without a version.
    pub fn new(alloc: Global, path: &str) -> CargoResult<PathSource>
        ensures ok { IfOk result (λ s. path_view s ≡ from_path path.now None) }
        ensures error { IfErr result IsMemory }
    {
        Ok(PathSource {
            path: String::from_str(alloc, path)?,
            version: None,
        })
    }

    /// Returns the source with this requirement, up to its first `+`.
    pub fn set_version(self, alloc: Global, version: &str) -> CargoResult<PathSource>
        ensures ok { IfOk result (λ s. path_view s
            ≡ from_path (string_bytes self.path) (Some (cut version.now))) }
        ensures error { IfErr result IsMemory }
    {
        let requirement = String::from_str(alloc, before_plus(version))?;
        Ok(PathSource {
            version: Some(requirement),
            ..self
        })
    }

    /// Returns a deep copy of the source.
    pub fn try_clone(&self, _alloc: Global) -> CargoResult<PathSource>
        ensures ok { IfOk result (λ s. path_view s ≡ path_view self.now) }
        ensures error { IfErr result IsMemory }
    {
        Ok(PathSource {
            path: self.path.clone()?,
            version: clone_text(self.version.as_ref())?,
        })
    }
}

/// A Git repository, with an optional branch, tag or revision and an optional version requirement.
#[derive(Debug, PartialEq, Eq, PartialOrd, Ord, Hash, Drop)]
pub struct GitSource {
    /// The repository's URL.
    pub git: String,
    pub branch: Option<String>,
    pub tag: Option<String>,
    pub rev: Option<String>,
    pub version: Option<String>,
}

impl GitSource {
    /// Returns the source with this repository, at its default branch and without a version.
    pub fn new(alloc: Global, git: &str) -> CargoResult<GitSource>
        ensures ok { IfOk result (λ s. repository_view s ≡ repository git.now None None None None) }
        ensures error { IfErr result IsMemory }
    {
        Ok(GitSource {
            git: String::from_str(alloc, git)?,
            branch: None,
            tag: None,
            rev: None,
            version: None,
        })
    }

    /// Returns the source with this branch; its tag and its revision are cleared.
    pub fn set_branch(self, alloc: Global, branch: &str) -> CargoResult<GitSource>
        ensures ok { IfOk result (λ s. repository_view s
            ≡ record (repository_view self) { branch = Some branch.now; tag = None; rev = None }) }
        ensures error { IfErr result IsMemory }
    {
        let branch = String::from_str(alloc, branch)?;
        Ok(GitSource {
            branch: Some(branch),
            tag: None,
            rev: None,
            ..self
        })
    }

    /// Returns the source with this tag; its branch and its revision are cleared.
    pub fn set_tag(self, alloc: Global, tag: &str) -> CargoResult<GitSource>
        ensures ok { IfOk result (λ s. repository_view s
            ≡ record (repository_view self) { branch = None; tag = Some tag.now; rev = None }) }
        ensures error { IfErr result IsMemory }
    {
        let tag = String::from_str(alloc, tag)?;
        Ok(GitSource {
            branch: None,
            tag: Some(tag),
            rev: None,
            ..self
        })
    }

    /// Returns the source with this revision; its branch and its tag are cleared.
    pub fn set_rev(self, alloc: Global, rev: &str) -> CargoResult<GitSource>
        ensures ok { IfOk result (λ s. repository_view s
            ≡ record (repository_view self) { branch = None; tag = None; rev = Some rev.now }) }
        ensures error { IfErr result IsMemory }
    {
        let rev = String::from_str(alloc, rev)?;
        Ok(GitSource {
            branch: None,
            tag: None,
            rev: Some(rev),
            ..self
        })
    }

    /// Returns the source with this requirement, up to its first `+`.
    pub fn set_version(self, alloc: Global, version: &str) -> CargoResult<GitSource>
        ensures ok { IfOk result (λ s. repository_view s
            ≡ record (repository_view self) { version = Some (cut version.now) }) }
        ensures error { IfErr result IsMemory }
    {
        let version = String::from_str(alloc, before_plus(version))?;
        Ok(GitSource {
            version: Some(version),
            ..self
        })
    }

    /// Returns a deep copy of the source.
    pub fn try_clone(&self, _alloc: Global) -> CargoResult<GitSource>
        ensures ok { IfOk result (λ s. repository_view s ≡ repository_view self.now) }
        ensures error { IfErr result IsMemory }
    {
        Ok(GitSource {
            git: self.git.clone()?,
            branch: clone_text(self.branch.as_ref())?,
            tag: clone_text(self.tag.as_ref())?,
            rev: clone_text(self.rev.as_ref())?,
            version: clone_text(self.version.as_ref())?,
        })
    }
}

/// The entry of that name in `workspace.dependencies`.
#[derive(Clone, Copy, Debug, Default, PartialEq, Eq, PartialOrd, Ord, Hash)]
pub struct WorkspaceSource;

impl WorkspaceSource {
    /// Returns the workspace source.
    pub fn new() -> WorkspaceSource
        ensures only { (other : WorkspaceSource) → result ≡ other }
    {
        WorkspaceSource
    }

    /// Returns a copy of the source.
    pub fn try_clone(&self, _alloc: Global) -> CargoResult<WorkspaceSource>
        ensures error { IfErr result IsMemory }
    {
        Ok(WorkspaceSource)
    }
}

/// The source of a dependency.
#[derive(Debug, PartialEq, Eq, PartialOrd, Ord, Hash, Drop)]
pub enum Source {
    Registry(RegistrySource),
    Path(PathSource),
    Git(GitSource),
    Workspace(WorkspaceSource),
}

impl Source {
    /// The registry source, if this is one.
    pub fn as_registry(&self) -> Option<&RegistrySource>
        ensures { option_copied result ≡ registry_in self.now }
    {
        match self {
            Source::Registry(source) => Some(source),
            Source::Path(_) | Source::Git(_) | Source::Workspace(_) => None,
        }
    }

    /// The path source, if this is one.
    pub fn as_path(&self) -> Option<&PathSource>
        ensures { option_copied result ≡ path_in self.now }
    {
        match self {
            Source::Path(source) => Some(source),
            Source::Registry(_) | Source::Git(_) | Source::Workspace(_) => None,
        }
    }

    /// The Git source, if this is one.
    pub fn as_git(&self) -> Option<&GitSource>
        ensures { option_copied result ≡ git_in self.now }
    {
        match self {
            Source::Git(source) => Some(source),
            Source::Registry(_) | Source::Path(_) | Source::Workspace(_) => None,
        }
    }

    /// The workspace source, if this is one.
    pub fn as_workspace(&self) -> Option<&WorkspaceSource>
        ensures { option_copied result ≡ workspace_in self.now }
    {
        match self {
            Source::Workspace(source) => Some(source),
            Source::Registry(_) | Source::Path(_) | Source::Git(_) => None,
        }
    }

    /// Returns a deep copy of the source.
    pub fn try_clone(&self, alloc: Global) -> CargoResult<Source>
        ensures ok { IfOk result (λ s. source_view s ≡ source_view self.now) }
        ensures error { IfErr result IsMemory }
    {
        Ok(match self {
            Source::Registry(source) => Source::Registry(source.try_clone(alloc)?),
            Source::Path(source) => Source::Path(source.try_clone(alloc)?),
            Source::Git(source) => Source::Git(source.try_clone(alloc)?),
            Source::Workspace(source) => Source::Workspace(*source),
        })
    }

    /// The version requirement; `None` for a workspace source.
    pub fn version(&self) -> Option<&str>
        ensures { option_map (λ s. s.now) result ≡ source_version self.now }
    {
        match self {
            Source::Registry(source) => Some(source.version.as_str()),
            Source::Path(source) => source.version.as_ref().map(|text| text.as_str()),
            Source::Git(source) => source.version.as_ref().map(|text| text.as_str()),
            Source::Workspace(_) => None,
        }
    }
}

/// Returns a deep copy of a source, if there is one.
pub(crate) fn clone_source(alloc: Global, source: Option<&Source>) -> CargoResult<Option<Source>>
    ensures ok { IfOk result (λ o. option_map source_view o
        ≡ option_map source_view (option_copied source.entry)) }
    ensures error { IfErr result IsMemory }
{
    match source {
        Some(source) => Ok(Some(source.try_clone(alloc)?)),
        None => Ok(None),
    }
}
