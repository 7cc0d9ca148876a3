//! Decides for each registry which token is sent, or why none is.

use crate::answers::{Answer, Call, Queue, answer_of, configured_answer, kind_of};
use crate::probes::{needs_probe, wanted_tokens};
use crate::providers::ProviderCommand;
use crate::registries::Registry;
use crate::replies::ReplyLine;
use crate::settings::CredentialSettings;
use edit_base::CargoResult;
use edit_fetch::{Provider, Providers, Step, next_step};

/// Which token is sent to a registry.
#[derive(Drop)]
pub(crate) enum Verdict {
    /// No token is sent, since the registry does not demand one. The text is for an answer of 401 or 403.
    Open(String),
    /// This token is sent, which comes from the place or the provider `place`.
    Found { token: String, place: String },
    /// No request is made: the registry demands a token, and none can be sent, for this reason.
    Unsendable(String),
}

/// The verdicts, or the call of a provider that is needed for them.
#[derive(Drop)]
pub(crate) enum Progress {
    /// This provider has to be run.
    Call(Call),
    /// A verdict for each registry.
    Done(Vec<Verdict>),
}

/// The verdict on one registry, or the call of a provider that is needed for it.
#[derive(Drop)]
enum Known {
    Call(Call),
    Verdict(Verdict),
}

/// The configured provider; `None` for the default one, `cargo:token`.
fn provider_of<'a>(
    registry: &'a Registry,
    settings: &'a CredentialSettings,
    provider: Provider,
) -> Option<&'a ProviderCommand> {
    match provider {
        Provider::Own => registry.own.as_ref(),
        Provider::Global(place) => settings.global.get(place),
        Provider::Default => None,
    }
}

/// The reason if no provider has a token.
fn exhausted_reason(
    rt: &HostRuntime,
    registry: &Registry,
    answers: &[Answer],
) -> CargoResult<String> {
    let shown = registry.shown(rt)?;
    let mut text = format!(in rt.alloc(); "{shown} wants a token, and none was found")?;
    let mut separator = ": ";
    for answer in answers {
        if let Answer::Nothing(words) = answer {
            text.push_str(separator)?;
            text.push_str(words.as_str())?;
            separator = "; ";
        }
    }
    Ok(text)
}

/// The verdict by the last answer; `None` if that has no token.
fn last_verdict(answers: &mut Vec<Answer>) -> Option<Verdict> {
    match answers.pop()? {
        Answer::Token { token, place } => Some(Verdict::Found { token, place }),
        Answer::Failed(words) => Some(Verdict::Unsendable(words)),
        Answer::Nothing(_) => None,
    }
}

/// Finds the token of a registry by the answers of its providers, in their order.
fn resolve(
    rt: &HostRuntime,
    settings: &CredentialSettings,
    registry: &Registry,
    queue: &mut Queue<'_>,
) -> CargoResult<Known> {
    let providers = Providers {
        own: registry.own.is_some(),
        global: settings.global.len(),
    };
    let mut replies = Vec::new(rt.alloc());
    let mut answers: Vec<Answer> = Vec::new(rt.alloc());
    for _ in 0..u32::MAX {
        let Step::Ask(provider) = next_step(providers, &replies) else {
            break;
        };
        let answer = match provider_of(registry, settings, provider) {
            Some(provider) => answer_of(rt, registry, provider, queue)?,
            None => Ok(configured_answer(rt, registry)?),
        };
        match answer {
            Ok(answer) => {
                replies.push(kind_of(&answer))?;
                answers.push(answer)?;
            }
            Err(call) => return Ok(Known::Call(call)),
        }
    }
    if let Step::Decided(_) = next_step(providers, &replies)
        && let Some(verdict) = last_verdict(&mut answers)
    {
        return Ok(Known::Verdict(verdict));
    }
    Ok(Known::Verdict(Verdict::Unsendable(exhausted_reason(rt, registry, &answers)?)))
}

/// The verdict on a registry that demands a token at an address without encryption.
fn insecure_verdict(rt: &HostRuntime, registry: &Registry) -> CargoResult<Verdict> {
    let shown = registry.shown(rt)?;
    let what = match &registry.token {
        Some(found) => {
            let place = found.place.as_str();
            format!(in rt.alloc(); "the token of {place}")?
        }
        None => String::from_str(rt.alloc(), "a token")?,
    };
    Ok(Verdict::Unsendable(format!(in rt.alloc();
        "{shown} wants a token, but {what} is not sent, since the address is neither https nor of the \
loopback interface"
    )?))
}

/// The verdict on a registry whose `config.json` was fetched.
fn probed_verdict(
    rt: &HostRuntime,
    settings: &CredentialSettings,
    registry: &Registry,
    is_wanted: bool,
    queue: &mut Queue<'_>,
) -> CargoResult<Known> {
    if !is_wanted {
        let shown = registry.shown(rt)?;
        return Ok(Known::Verdict(Verdict::Open(format!(in rt.alloc();
            "no token was sent, since the `config.json` of {shown} has no `\"auth-required\": true`"
        )?)));
    }
    if !registry.is_secure() {
        return Ok(Known::Verdict(insecure_verdict(rt, registry)?));
    }
    resolve(rt, settings, registry, queue)
}

/// The verdict on a registry for which no provider can have a token.
fn unprobed_verdict(
    rt: &HostRuntime,
    settings: &CredentialSettings,
    registry: &Registry,
) -> CargoResult<Verdict> {
    let mut queue = Queue {
        replies: &[],
        read: 0,
    };
    match resolve(rt, settings, registry, &mut queue)? {
        Known::Verdict(Verdict::Unsendable(reason)) => Ok(Verdict::Open(reason)),
        Known::Verdict(verdict) => Ok(verdict),
        Known::Call(_) => Ok(Verdict::Open(exhausted_reason(rt, registry, &[])?)),
    }
}

/// The verdict on each registry, or the first call of a provider whose answer is missing.
pub(crate) fn verdicts_of(
    rt: &HostRuntime,
    room: &str,
    settings: &CredentialSettings,
    registries: &[Registry],
    replies: &[ReplyLine<'_>],
) -> CargoResult<Progress> {
    let count = registries
        .iter()
        .filter(|registry| needs_probe(registry, settings))
        .count();
    let wanted = wanted_tokens(rt, room, count)?;
    let mut wants = wanted.iter();
    let mut queue = Queue { replies, read: 0 };
    let mut verdicts = Vec::new(rt.alloc());
    for registry in registries {
        if !needs_probe(registry, settings) {
            verdicts.push(unprobed_verdict(rt, settings, registry)?)?;
            continue;
        }
        let is_wanted = wants.next().copied().unwrap_or(false);
        match probed_verdict(rt, settings, registry, is_wanted, &mut queue)? {
            Known::Call(call) => return Ok(Progress::Call(call)),
            Known::Verdict(verdict) => verdicts.push(verdict)?,
        }
    }
    Ok(Progress::Done(verdicts))
}
