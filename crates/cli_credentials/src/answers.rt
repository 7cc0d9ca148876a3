//! The answers of credential providers for a registry, and the calls of providers that have not run yet.

use crate::protocol::request_line;
use crate::providers::ProviderCommand;
use crate::registries::Registry;
use crate::replies::ReplyLine;
use edit_base::CargoResult;
use edit_fetch::Reply;
use edit_shell::{push_arguments, push_assignment};
use std::alloc::AllocError;

/// A call of a provider.
#[derive(Drop)]
pub(crate) struct Call {
    /// `plugin` for a program that follows the protocol, `stdout` for one that prints a token.
    how: &'static str,
    address: String,
    name: String,
    /// The message for standard input.
    request: String,
    /// The program and its arguments.
    command: Vec<String>,
}

/// The answer of a provider.
#[derive(Drop)]
pub(crate) enum Answer {
    Token { token: String, place: String },
    /// It has no token; with the text for messages.
    Nothing(String),
    Failed(String),
}

/// The answers of the providers that have run, and how many of them are read.
#[derive(Drop)]
pub(crate) struct Queue<'a> {
    pub(crate) replies: &'a [ReplyLine<'a>],
    pub(crate) read: usize,
}

impl<'a> Queue<'a> {
    /// The next answer.
    fn next_reply(&mut self) -> Option<ReplyLine<'a>> {
        let reply = *self.replies.get(self.read)?;
        self.read = self.read.saturating_add(1);
        Some(reply)
    }
}

/// The text that `cargo:token` found no token of a registry, with the places that it searched.
fn searched_places(rt: &HostRuntime, registry: &Registry) -> CargoResult<String> {
    let Some(name) = &registry.name else {
        return Ok(String::from_str(
            rt.alloc(),
            "`cargo:token` finds none, since no registry of the configuration has this address",
        )?);
    };
    let variable = registry.variable.as_deref().unwrap_or("its variable");
    let key = if name.as_str() == "crates-io" {
        String::from_str(rt.alloc(), "registry.token")?
    } else {
        format!(in rt.alloc(); "registries.{name}.token")?
    };
    Ok(format!(in rt.alloc();
        "`cargo:token` looked for {variable}, and for {key} in cargo's credentials.toml and configuration \
         files"
    )?)
}

/// The answer of `cargo:token`, which has the tokens of the environment and of files.
pub(crate) fn configured_answer(rt: &HostRuntime, registry: &Registry) -> CargoResult<Answer> {
    let Some(found) = &registry.token else {
        return Ok(Answer::Nothing(searched_places(rt, registry)?));
    };
    let place = found.place.as_str();
    match &found.token {
        Some(token) => Ok(Answer::Token {
            token: String::from_str(rt.alloc(), token.as_str())?,
            place: format!(in rt.alloc(); "the token of {place}")?,
        }),
        None => Ok(Answer::Failed(format!(in rt.alloc();
            "{place} is not sent: a token has no control characters, such as a line end, and is UTF-8"
        )?)),
    }
}

/// Replaces each occurrence of a registry's configured token in a text.
fn mask(rt: &HostRuntime, registry: &Registry, text: &str) -> Result<String, AllocError> {
    if let Some(found) = &registry.token
        && let Some(token) = &found.token
        && !token.is_empty()
    {
        return text.replace(rt.alloc(), token.as_str(), "***");
    }
    String::from_str(rt.alloc(), text)
}

/// The failure of a provider, with its own error text.
fn failure(rt: &HostRuntime, registry: &Registry, name: &str, words: &str) -> CargoResult<Answer> {
    let words = mask(rt, registry, words)?;
    let shown = registry.shown(rt)?;
    Ok(Answer::Failed(format!(in rt.alloc();
        "the credential provider `{name}` of {shown} failed: {words}"
    )?))
}

/// The answer of a provider that has run.
fn program_answer(
    rt: &HostRuntime,
    registry: &Registry,
    name: &str,
    reply: ReplyLine<'_>,
) -> CargoResult<Answer> {
    match (reply.status, reply.kind) {
        ("126" | "127", _) => failure(rt, registry, name, "it cannot be started"),
        (_, "failed") => failure(rt, registry, name, reply.text),
        ("0", "token") => Ok(Answer::Token {
            token: String::from_str(rt.alloc(), reply.text)?,
            place: format!(in rt.alloc(); "the token of the credential provider `{name}`")?,
        }),
        ("0", "nothing") => Ok(Answer::Nothing(format!(in rt.alloc(); "`{name}` has none")?)),
        ("0", "unsupported") => Ok(Answer::Nothing(format!(in rt.alloc();
            "`{name}` does not serve this registry"
        )?)),
        ("0", _) => failure(rt, registry, name, "it gave no answer"),
        (status, _) => {
            let words = format!(in rt.alloc(); "it ended with status {status}")?;
            failure(rt, registry, name, words.as_str())
        }
    }
}

/// The name of a provider's program in messages, without the arguments, which may be secret.
fn program_name(provider: &ProviderCommand) -> &str {
    let words = provider.words.as_slice();
    match words {
        [first, second, ..] if first.as_str() == "cargo:token-from-stdout" => second.as_str(),
        [first, ..] => first.as_str(),
        [] => "",
    }
}

/// The call of a provider for a registry; `None` if its configuration has no program.
fn call_of(
    rt: &HostRuntime,
    registry: &Registry,
    provider: &ProviderCommand,
) -> CargoResult<Option<Call>> {
    let Some((first, arguments)) = provider.words.split_first() else {
        return Ok(None);
    };
    let is_stdout = first.as_str() == "cargo:token-from-stdout";
    let mut command = Vec::new(rt.alloc());
    if is_stdout {
        for argument in arguments {
            command.push(String::from_str(rt.alloc(), argument.as_str())?)?;
        }
    } else {
        command.push(String::from_str(rt.alloc(), first.as_str())?)?;
        command.push(String::from_str(rt.alloc(), "--cargo-plugin")?)?;
    }
    let is_program = command
        .first()
        .is_some_and(|program| !program.as_str().starts_with("-"));
    if !is_program {
        return Ok(None);
    }
    let name = registry.name.as_deref().unwrap_or("");
    Ok(Some(Call {
        how: if is_stdout { "stdout" } else { "plugin" },
        address: String::from_str(rt.alloc(), registry.address.as_str())?,
        name: String::from_str(rt.alloc(), name)?,
        request: request_line(rt.alloc(), registry, arguments)?,
        command,
    }))
}

/// The answer of a provider, or its call if it has not run yet.
pub(crate) fn answer_of(
    rt: &HostRuntime,
    registry: &Registry,
    provider: &ProviderCommand,
    queue: &mut Queue<'_>,
) -> CargoResult<Result<Answer, Call>> {
    if provider.is_cargo_token() {
        return Ok(Ok(configured_answer(rt, registry)?));
    }
    let name = program_name(provider);
    if provider.is_built_in() {
        return Ok(Ok(Answer::Nothing(format!(in rt.alloc();
            "`{name}` is built into cargo alone, while `cargo:token`, `cargo:token-from-stdout` and \
programs of the credential provider protocol work here too"
        )?)));
    }
    let Some(call) = call_of(rt, registry, provider)? else {
        return Ok(Ok(failure(rt, registry, name, "it names no program")?));
    };
    match queue.next_reply() {
        Some(reply) => Ok(Ok(program_answer(rt, registry, name, reply)?)),
        None => Ok(Err(call)),
    }
}

/// The kind of an answer.
pub(crate) fn kind_of(answer: &Answer) -> Reply {
    match answer {
        Answer::Token { .. } => Reply::Token,
        Answer::Nothing(_) => Reply::Nothing,
        Answer::Failed(_) => Reply::Failed,
    }
}

/// Appends a call as text for a shell: assignments of `how`, `registry_address`, `registry_name` and
/// `request`, and the arguments.
pub(crate) fn push_call(text: &mut Vec<u8>, call: &Call) -> CargoResult<()> {
    push_assignment(text, "how", call.how)?;
    push_assignment(text, "registry_address", call.address.as_str())?;
    push_assignment(text, "registry_name", call.name.as_str())?;
    push_assignment(text, "request", call.request.as_str())?;
    push_arguments(text, &call.command)?;
    Ok(())
}
