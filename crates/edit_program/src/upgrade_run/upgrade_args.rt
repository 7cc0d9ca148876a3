//! The arguments of `upgrade`.
ghost use Rattle.std.specs.Prelude.{◌≡◌};
ghost use Rattle.edit_steps.specs.RequestView.{request_view};
ghost use Rattle.edit_program.specs.Planned.{to_request};

use edit_choice::RowChoice;
use edit_policy::GivenChoices;
use edit_shown::Presentation;
use edit_sources::PublishedBefore;
use edit_steps::upgrade_read::{RustChoice, SourceRequest};
use edit_upgrade::Options;

/// The arguments of `upgrade`.
#[derive(Debug, Drop)]
pub struct UpgradeArgs<'a> {
    pub manifest_path: Option<&'a str>,
    /// The file with the metadata of a workspace, all of whose manifests are upgraded.
    pub metadata_json: Option<&'a str>,
    /// The file with the lines of an index, which replaces the index in `index_files`.
    pub index_file: Option<&'a str>,
    /// A folder with a folder for each registry, which replaces the index in `index_files`. Ignored where
    /// an index file is given.
    pub index_dir: Option<&'a str>,
    /// A configuration file with the highest precedence.
    pub config: Option<&'a str>,
    /// A configuration file with the lowest precedence.
    pub default_config: Option<&'a str>,
    pub rust: RustChoice,
    pub options: Options,
    /// Which of the choices in `options` are given; the others are defaults.
    pub given: GivenChoices,
    /// Whether the policy of the root manifest is ignored.
    pub no_policy: bool,
    pub presentation: Presentation,
    /// The file to which the calls of `cargo update` are written.
    pub update_calls: Option<&'a str>,
    /// The lock file that the calls must be valid for; without it all calls are made.
    pub lock_file: Option<&'a str>,
    /// Whether calls that are valid for a lock file must not fetch anything.
    pub offline: bool,
    /// Raise requirements only to versions that the lock file has, which must exist; nothing is raised where
    /// no lock file is given.
    pub to_lockfile: bool,
    /// The time by which versions have to be published, where there is one.
    pub published_before: Option<PublishedBefore>,
    /// The time from which the age that the policy sets counts back.
    pub time: Option<&'a str>,
    /// Raise differing requirements of one crate in one compatible range to the highest of them.
    pub unify: bool,
    /// The rows that change, of those that would.
    pub rows: Option<RowChoice<'a>>,
}

impl<'a> UpgradeArgs<'a> {
    /// The manifests and configurations to read.
    pub(crate) fn to_request(&self) -> SourceRequest<'a>
        ensures { request_view result ≡ to_request self.now }
    {
        SourceRequest {
            manifest_path: self.manifest_path,
            metadata_json: self.metadata_json,
            config: self.config,
            default_config: self.default_config,
            rust: self.rust,
            writes: !self.options.dry_run && !self.options.locked,
        }
    }

    /// The same where only the lookups are requested, so that no file will be written.
    pub(crate) fn to_lookup_request(&self) -> SourceRequest<'a>
        ensures { request_view result ≡ to_request self.now }
    {
        SourceRequest {
            writes: false,
            ..self.to_request()
        }
    }
}
