//! The manifests and configurations that an upgrade is requested to read.
ghost use Rattle.std.specs.Prelude.{◌≡◌, option_map};
ghost use Rattle.edit_steps.specs.RequestView.{rust_request};
ghost use Rattle.edit_version.specs.RustVersions.{numbers_of};

use edit_version::RustVersion;

/// The Rust version to plan for.
#[derive(Clone, Copy, Debug)]
pub enum RustChoice {
    /// That of each manifest, where it has one.
    Own,
    /// None, even where manifests have one.
    Ignored,
    Given(RustVersion),
}

impl RustChoice {
    /// The Rust version, where one is given.
    pub(crate) fn given_version(self) -> Option<RustVersion>
        ensures { option_map numbers_of result ≡ (rust_request self).given }
    {
        match self {
            RustChoice::Own | RustChoice::Ignored => None,
            RustChoice::Given(version) => Some(version),
        }
    }

    /// Whether the Rust versions of manifests are ignored.
    pub(crate) fn is_ignored(self) -> bool
        ensures { result ≡ (rust_request self).ignored }
    {
        match self {
            RustChoice::Ignored => true,
            RustChoice::Own | RustChoice::Given(_) => false,
        }
    }
}

/// The manifests and configurations to read. Relative paths start in the current folder.
#[derive(Clone, Copy, Debug)]
pub struct SourceRequest<'a> {
    /// A manifest, or a folder from which it is searched upwards; the current folder where `None`. Ignored
    /// where metadata are given.
    pub manifest_path: Option<&'a str>,
    /// The file with the metadata of a workspace.
    pub metadata_json: Option<&'a str>,
    /// A configuration file with the highest precedence.
    pub config: Option<&'a str>,
    /// A configuration file with the lowest precedence.
    pub default_config: Option<&'a str>,
    pub rust: RustChoice,
    /// Whether files will be written: then other runs on the same files are blocked.
    pub writes: bool,
}
