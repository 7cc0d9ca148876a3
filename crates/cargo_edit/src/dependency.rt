//! An entry of a dependency table as a `Dependency`, and the source of its crate.

pub use edit_record::{
    Dependency, GitSource, PathSource, RegistrySource, Source, WorkspaceSource, dependency_on,
};
pub use edit_update::DependencyExt;
