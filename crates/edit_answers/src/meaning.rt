//! Interprets the outcomes of transfers.
ghost use Rattle.std.specs.Prelude.{◌≡◌, ◌↔◌, IsTrue, codes};
ghost use Rattle.std.specs.Str.{bytes_eq};
ghost use Rattle.edit_answers.specs.Meanings.{IsAbsence, Means, MeansBy, new_meaning};

use crate::answers::Answer;
use crate::bodies::Damage;

/// Why an entry could not be fetched.
#[derive(Clone, Copy, Debug)]
pub enum Failure<'a> {
    /// Nothing is fetched offline.
    Offline,
    /// The registry does not use the sparse protocol.
    NotFetchable,
    /// Curl did not report on the transfer.
    Unanswered,
    /// The transfer failed, with curl's exit code and message.
    Curl(&'a str, &'a str),
    /// The registry wants a token, and none could be sent or it refused the one that was sent; with the
    /// message about that.
    Token(&'a str),
    /// The response has an HTTP status that means neither an entry nor its absence.
    Status(&'a str),
    /// The body is not a complete index file of the crate, for this reason.
    NotAnIndex(Damage),
    /// The folder of a registry on this machine does not exist.
    NoFolder,
}

/// The meaning of a transfer for its entry.
#[derive(Clone, Copy, Debug)]
pub enum Meaning<'a> {
    /// A body was received, without a redirect.
    New,
    /// A body was received after a redirect: the ETag that curl saved may be that of the redirecting
    /// response.
    Moved,
    /// The cached entry is up to date.
    NotModified,
    /// The registry has no crate of this name.
    Absent,
    /// The transfer yielded nothing usable.
    Failed(Failure<'a>),
}

/// The result of a lookup.
#[derive(Clone, Copy, Debug)]
pub enum Outcome<'a> {
    /// A new body was stored in the cache.
    Fetched,
    /// A new body, received after a redirect, was stored in the cache without an ETag.
    Moved,
    /// The cached entry is up to date.
    Current,
    /// The entry is a file in a registry on this machine.
    Local,
    /// The registry has no crate of this name.
    Absent,
    /// The entry could not be fetched, and the cached one is used.
    Cached(Failure<'a>),
    /// The entry could not be fetched, and none is cached.
    Missing(Failure<'a>),
}

/// Whether an HTTP status means that there is no crate of this name: 404, 410 or 451.
fn is_absence(code: &str) -> bool
    ensures { IsTrue result ↔ IsAbsence code.now }
{
    code == "404" || code == "410" || code == "451"
}

/// The meaning of a body, given the number of redirects before it.
fn body_meaning<'a>(redirects: &str) -> Meaning<'a>
    ensures { result ≡ new_meaning (bytes_eq redirects.now (codes "0")) }
{
    if redirects == "0" {
        Meaning::New
    } else {
        Meaning::Moved
    }
}

/// The meaning of a transfer that did not fail, by its HTTP status and its redirects.
fn meaning_by<'a>(code: &'a str, redirects: &str) -> Meaning<'a>
    ensures { MeansBy code.entry redirects.now result }
{
    if code == "200" {
        return body_meaning(redirects);
    }
    if code == "304" {
        return Meaning::NotModified;
    }
    if is_absence(code) {
        return Meaning::Absent;
    }
    Meaning::Failed(Failure::Status(code))
}

/// The meaning of a transfer, given the outcome that curl reported, if it did. In place of curl's exit code
/// stands `token` where the registry wants a token and has accepted none.
pub fn meaning_of<'a>(answer: Option<Answer<'a>>) -> Meaning<'a>
    ensures { Means answer.entry result }
{
    let Some(answer) = answer else {
        return Meaning::Failed(Failure::Unanswered);
    };
    if answer.exit == "0" {
        return meaning_by(answer.code, answer.redirects);
    }
    if answer.exit == "token" {
        return Meaning::Failed(Failure::Token(answer.message));
    }
    Meaning::Failed(Failure::Curl(answer.exit, answer.message))
}
