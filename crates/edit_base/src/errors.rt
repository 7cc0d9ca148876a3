//! The error type of all public calls.
ghost use Rattle.std.specs.Prelude.{◌≡◌};
ghost use Rattle.edit_base.specs.declared.errors.Error.TheVariants.{CommandLine, Io, Memory};

mod details;

pub use details::{MergedCommand, MissingKind, MissingNames};
use std::alloc::{AllocError, AllocFailed};
use std::{fmt, io};
use thiserror::Error;

/// What a call of this project answers.
pub type CargoResult<T> = Result<T, Error>;

/// Which call of a store failed.
#[derive(Clone, Copy, Debug, PartialEq, Eq)]
pub enum DeviceCall {
    Kind,
    Read,
    Write,
}

impl fmt::Display for DeviceCall {
    fn fmt<W: fmt::Write>(&self, f: &mut fmt::Formatter<W>) -> fmt::Result {
        f.write_str(match self {
            DeviceCall::Kind => "Failed to look at a path",
            DeviceCall::Read => "Failed to read a file",
            DeviceCall::Write => "Failed to write updated Cargo.toml",
        })
    }
}

/// Why a call failed. Each error has a number, given by `number`, and a message, printed by `Display`.
#[derive(Debug, Drop, Error)]
pub enum Error {
    #[error("Unable to parse Cargo.toml")]
    NotToml {
        at: usize,
    },
    #[error("Failed to read manifest contents")]
    NotUtf8,
    #[error("{0}")]
    Device(DeviceCall),
    #[error("can only edit absolute paths, got {path}")]
    NotAbsolute {
        path: String,
    },
    #[error("Failed to read manifest contents")]
    NoManifest,
    #[error("Failed to get cargo file metadata")]
    NoPath,
    #[error("Unable to find Cargo.toml for {dir}")]
    ManifestNotFound {
        dir: String,
    },
    #[error("The table `{step}` could not be found.")]
    NoTable {
        step: String,
    },
    #[error("The dependency `{name}` could not be found in `{path}`.")]
    NoDependency {
        name: String,
        path: String,
    },
    #[error("Missing version field")]
    MissingVersion,
    #[error("Expect version to be a string")]
    VersionNotString,
    #[error("Invalid dependency type")]
    InvalidDependency,
    #[error("No version literal to set")]
    NoVersionPlace,
    #[error("Invalid version requirement `{text}`")]
    InvalidRequirement {
        text: String,
    },
    #[error("Support for modifying {comparator} is currently unsupported")]
    Unsupported {
        comparator: String,
    },
    #[error("Cannot increment the {level} field for {version}")]
    ReleaseLevel {
        level: String,
        version: String,
    },
    #[error("This version scheme is not supported. Use format like `pre`, `dev` or `alpha.1` for prerelease symbol")]
    PrereleaseScheme,
    #[error("A number of {major}.{minor}.{patch} is at its end")]
    NumberAtEnd {
        major: u64,
        minor: u64,
        patch: u64,
    },
    #[error("Invalid build metadata `{text}`")]
    InvalidMetadata {
        text: String,
    },
    #[error("Invalid name `{name}`: {characters}")]
    InvalidName {
        name: String,
        characters: String,
    },
    #[error("Found {actual} for {key} when {expected} was expected for {dep}")]
    InvalidType {
        actual: String,
        key: String,
        expected: String,
        dep: String,
    },
    #[error("`{key}.workspace = false` is unsupported")]
    WorkspaceFalse {
        key: String,
    },
    #[error("Unrecognized dependency source for `{key}`")]
    UnknownSource {
        key: String,
    },
    #[error("Use of `default_features` in `{key}` is unsupported, please switch to `default-features`")]
    OldDefaultFeatures {
        key: String,
    },
    #[error("Unrecognized dependency entry format for `{key}`")]
    UnknownEntry {
        key: String,
    },
    #[error("rust-version must be a value like `1.32`")]
    BadRustVersion,
    #[error("Registry scheme `{scheme}` is not supported")]
    Scheme {
        scheme: String,
    },
    #[error("invalid file path {address}")]
    IndexPath {
        address: String,
    },
    #[error("Invalid crate name `{name}`")]
    BadCrateName {
        name: String,
    },
    #[error("Invalid index line {line}")]
    IndexLine {
        line: usize,
    },
    #[error("invalid cargo config at {path}")]
    Config {
        path: String,
    },
    #[error("The registry '{key}' could not be found")]
    RegistryNotFound {
        key: String,
    },
    #[error("The source '{key}' could not be found")]
    SourceNotFound {
        key: String,
    },
    #[error("missing `registry`")]
    MissingRegistry,
    #[error("invalid `registry` field")]
    InvalidUrl,
    #[error("Invalid workspace metadata")]
    Metadata,
    #[error("Two members share the folder {path}")]
    FolderTwice {
        path: String,
    },
    #[error("Found virtual manifest, but this command requires running against an actual package in this workspace. Try adding `--workspace`.")]
    VirtualManifest,
    #[error("{0}")]
    PackagesMissing(MissingNames),
    #[error("Cannot exclude {excluded} package(s) when {inheriting} package(s) modify `workspace.package.version`")]
    CannotExclude {
        excluded: String,
        inheriting: String,
    },
    #[error("Cannot downgrade from {current} to {requested}")]
    Downgrade {
        current: String,
        requested: String,
    },
    #[error("cannot upgrade due to `--locked`")]
    Locked,
    #[error("{0}")]
    DependenciesMissing(MissingNames),
    #[error("{0}")]
    Merged(MergedCommand),
    #[error("Failed to write message")]
    Output,
    #[error("out of memory")]
    Memory,
    #[error("{0}")]
    CommandLine(clap::Error),
    #[error("{0}")]
    Io(io::Error),
    #[error("Edit would change more than its place")]
    EditRefused,
    #[error("Invalid policy")]
    Policy,
}

impl Error {
    ghost use Rattle.edit_base.specs.Errors.{number_of};

    /// The number of the error, from 1 to 50.
    pub fn number(&self) -> u32
        ensures { result ≡ number_of self.now }
    {
        match self {
            Error::NotToml { .. } => 1,
            Error::NotUtf8 => 2,
            Error::Device(_) => 3,
            Error::NotAbsolute { .. } => 4,
            Error::NoManifest => 5,
            Error::NoPath => 6,
            Error::ManifestNotFound { .. } => 7,
            Error::NoTable { .. } => 8,
            Error::NoDependency { .. } => 9,
            Error::MissingVersion => 10,
            Error::VersionNotString => 11,
            Error::InvalidDependency => 12,
            Error::NoVersionPlace => 13,
            Error::InvalidRequirement { .. } => 14,
            Error::Unsupported { .. } => 15,
            Error::ReleaseLevel { .. } => 16,
            Error::PrereleaseScheme => 17,
            Error::NumberAtEnd { .. } => 18,
            Error::InvalidMetadata { .. } => 19,
            Error::InvalidName { .. } => 20,
            Error::InvalidType { .. } => 21,
            Error::WorkspaceFalse { .. } => 22,
            Error::UnknownSource { .. } => 23,
            Error::OldDefaultFeatures { .. } => 24,
            Error::UnknownEntry { .. } => 25,
            Error::BadRustVersion => 26,
            Error::Scheme { .. } => 27,
            Error::IndexPath { .. } => 28,
            Error::BadCrateName { .. } => 29,
            Error::IndexLine { .. } => 30,
            Error::Config { .. } => 31,
            Error::RegistryNotFound { .. } => 32,
            Error::SourceNotFound { .. } => 33,
            Error::MissingRegistry => 34,
            Error::InvalidUrl => 35,
            Error::Metadata => 36,
            Error::FolderTwice { .. } => 37,
            Error::VirtualManifest => 38,
            Error::PackagesMissing(_) => 39,
            Error::CannotExclude { .. } => 40,
            Error::Downgrade { .. } => 41,
            Error::Locked => 42,
            Error::DependenciesMissing(_) => 43,
            Error::Merged(_) => 44,
            Error::Output => 45,
            Error::Memory => 46,
            Error::CommandLine(_) => 47,
            Error::Io(_) => 48,
            Error::EditRefused => 49,
            Error::Policy => 50,
        }
    }
}

impl From<AllocError> for Error {
    ghost from_gives = { λ _ e. e ≡ Memory };

    fn from(_error: AllocError) -> Error {
        Error::Memory
    }
}

impl<T: Drop> From<AllocFailed<T>> for Error {
    ghost from_gives = { λ _ e. e ≡ Memory };

    fn from(_error: AllocFailed<T>) -> Error {
        Error::Memory
    }
}

impl From<io::Error> for Error {
    ghost from_gives = { λ x e. e ≡ Io x };

    fn from(error: io::Error) -> Error {
        Error::Io(error)
    }
}

impl From<clap::Error> for Error {
    ghost from_gives = { λ x e. e ≡ CommandLine x };

    fn from(error: clap::Error) -> Error {
        Error::CommandLine(error)
    }
}
