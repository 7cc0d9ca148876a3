//! Displays dependencies and their sources.
ghost use Rattle.std.specs.Prelude.{Some, codes, string_bytes};
ghost use Rattle.edit_record.specs.EntryTexts.{origin_text, record_text, repository_text};
ghost use Rattle.edit_record.specs.RecordViews.{record_view, repository_view, source_view};

use super::Dependency;
use super::sources::{GitSource, PathSource, RegistrySource, Source, WorkspaceSource};
use std::fmt;

impl fmt::Display for RegistrySource {
    ghost output = { λ s. Some (string_bytes s.version) };

    fn fmt<W: fmt::Write>(&self, f: &mut fmt::Formatter<W>) -> fmt::Result {
        f.write_str(self.version.as_str())
    }
}

impl fmt::Display for PathSource {
    ghost output = { λ s. Some (string_bytes s.path) };

    fn fmt<W: fmt::Write>(&self, f: &mut fmt::Formatter<W>) -> fmt::Result {
        f.write_str(self.path.as_str())
    }
}

impl fmt::Display for GitSource {
    ghost output = { λ s. Some (repository_text (repository_view s)) };

    fn fmt<W: fmt::Write>(&self, f: &mut fmt::Formatter<W>) -> fmt::Result {
        let git = self.git.as_str();
        if let Some(branch) = &self.branch {
            return write!(f, "{git}?branch={branch}");
        }
        if let Some(tag) = &self.tag {
            return write!(f, "{git}?tag={tag}");
        }
        match &self.rev {
            Some(rev) => write!(f, "{git}?rev={rev}"),
            None => f.write_str(git),
        }
    }
}

impl fmt::Display for WorkspaceSource {
    ghost output = { λ s. Some (codes "workspace") };

    fn fmt<W: fmt::Write>(&self, f: &mut fmt::Formatter<W>) -> fmt::Result {
        f.write_str("workspace")
    }
}

impl fmt::Display for Source {
    ghost output = { λ s. Some (origin_text (source_view s)) };

    fn fmt<W: fmt::Write>(&self, f: &mut fmt::Formatter<W>) -> fmt::Result {
        match self {
            Source::Registry(source) => write!(f, "{source}"),
            Source::Path(source) => write!(f, "{source}"),
            Source::Git(source) => write!(f, "{source}"),
            Source::Workspace(source) => write!(f, "{source}"),
        }
    }
}

impl fmt::Display for Dependency {
    ghost output = { λ d. Some (record_text (record_view d)) };

    fn fmt<W: fmt::Write>(&self, f: &mut fmt::Formatter<W>) -> fmt::Result {
        match &self.source {
            Some(source) => {
                let name = self.name.as_str();
                write!(f, "{name}@{source}")
            }
            None => f.write_str(self.toml_key()),
        }
    }
}
