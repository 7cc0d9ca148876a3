//! Converts each of the four sources into a `Source`.
ghost use Rattle.std.specs.Prelude.{◌≡◌};
ghost use Rattle.edit_record.specs.declared.dependency.sources.Source.TheVariants.{Registry, Path, Git, Workspace};

use super::sources::{GitSource, PathSource, RegistrySource, Source, WorkspaceSource};

impl From<RegistrySource> for Source {
    ghost from_gives = { λ s r. r ≡ Registry s };

    fn from(source: RegistrySource) -> Source {
        Source::Registry(source)
    }
}

impl From<PathSource> for Source {
    ghost from_gives = { λ s r. r ≡ Path s };

    fn from(source: PathSource) -> Source {
        Source::Path(source)
    }
}

impl From<GitSource> for Source {
    ghost from_gives = { λ s r. r ≡ Git s };

    fn from(source: GitSource) -> Source {
        Source::Git(source)
    }
}

impl From<WorkspaceSource> for Source {
    ghost from_gives = { λ s r. r ≡ Workspace s };

    fn from(source: WorkspaceSource) -> Source {
        Source::Workspace(source)
    }
}
