//! The keys of a policy, and what the value of each has to be.
ghost use Rattle.std.specs.Prelude.{◌≡◌};
ghost use Rattle.edit_policy.specs.Keys.{crate_key, expected_at, is_absent, policy_key};

use std::fmt;

/// What is expected at a place of a policy.
#[derive(Clone, Copy, Debug, PartialEq, Eq)]
pub enum Expected {
    /// Nothing, since no policy has such a key.
    Absent,
    Table,
    /// An array of strings.
    Texts,
    Text,
    Truth,
    /// Whether a kind of upgrade is allowed.
    Status,
    /// How far an upgrade may go.
    Level,
    /// A whole number of days.
    Days,
    RustVersion,
    Requirement,
}

impl fmt::Display for Expected {
    fn fmt<W: fmt::Write>(&self, f: &mut fmt::Formatter<W>) -> fmt::Result {
        f.write_str(match self {
            Expected::Absent => "is not a key of a policy",
            Expected::Table => "has to be a table",
            Expected::Texts => "has to be an array of strings",
            Expected::Text => "has to be a string",
            Expected::Truth => "has to be `true` or `false`",
            Expected::Status => "has to be \"allow\" or \"ignore\"",
            Expected::Level => "has to be \"patch\", \"minor\" or \"major\"",
            Expected::Days => "has to be a whole number of days, such as 14",
            Expected::RustVersion => "has to be a version of Rust, such as \"1.70\"",
            Expected::Requirement => "has to be a version requirement, such as \"^1\"",
        })
    }
}

/// Which keys a table may have.
#[derive(Clone, Copy)]
pub(crate) enum KeySet {
    OfPolicy,
    OfCrate,
}

/// What the value of a key of a policy has to be.
fn policy_key(name: &str) -> Expected
    ensures { result ≡ policy_key name.now }
{
    match name {
        "exclude" => Expected::Texts,
        "compatible" | "incompatible" | "pinned" => Expected::Status,
        "never-lower" => Expected::Truth,
        "level" => Expected::Level,
        "min-age" => Expected::Days,
        "rust-version" => Expected::RustVersion,
        "crates" => Expected::Table,
        _ => Expected::Absent,
    }
}

/// What the value of a key in the table of a crate has to be.
fn crate_key(name: &str) -> Expected
    ensures { result ≡ crate_key name.now }
{
    match name {
        "hold" => Expected::Requirement,
        "level" => Expected::Level,
        "reason" => Expected::Text,
        _ => Expected::Absent,
    }
}

impl KeySet {
    /// What the value of a key has to be.
    fn expected_at(self, name: &str) -> Expected
        ensures { result ≡ expected_at self name.now }
    {
        match self {
            KeySet::OfPolicy => policy_key(name),
            KeySet::OfCrate => crate_key(name),
        }
    }

    /// Whether a key is unknown.
    pub(crate) fn is_unknown(self, name: &str) -> bool
        ensures { result ≡ is_absent (expected_at self name.now) }
    {
        match self.expected_at(name) {
            Expected::Absent => true,
            _ => false,
        }
    }
}
