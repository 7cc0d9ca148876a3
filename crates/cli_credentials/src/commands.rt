//! The subcommands that find the tokens of registries: `credential-probes`, `credential-request`,
//! `credential-reply` and `fetch-config`.
ghost use Rattle.std.specs.Prelude.{◌≡◌, ◌⊎◌, ◌≤◌, IfOk};

use crate::answers::push_call;
use crate::notes::write_notes;
use crate::probes::{needs_probe, probes_config};
use crate::protocol::reply_line;
use crate::registries::{Registry, registries_of};
use crate::replies::read_replies;
use crate::settings::{CredentialSettings, read_settings};
use crate::verdicts::{Progress, Verdict, verdicts_of};
use cli_machine::{
    FetchArguments, Network, print_fetch_usage, print_usage, read_arguments, read_input,
    read_network,
};
use edit_answers::CacheStore;
use edit_base::paths::join;
use edit_base::{CargoResult, DeviceCall, Error};
use edit_fetch::{FetchPlan, Token};
use edit_lookups::{Lookup, read_lookups};
use edit_store::{HostStore, Store};
use std::io::Write;
use std::{process, str};

/// The greatest number of bytes that are read from a provider.
const LIMIT: u64 = 8192;

/// The inputs of a subcommand.
#[derive(Drop)]
struct Inputs {
    room: String,
    network: Network,
    settings: CredentialSettings,
    /// The text of the lookups.
    lookups: String,
}

/// Reads a file in the folder of the run as UTF-8; an empty text if there is none.
fn working_text(rt: &HostRuntime, room: &str, name: &str) -> CargoResult<String> {
    let path = join(rt.alloc(), room, name)?;
    let mut files = HostStore::new(rt.clone()?);
    let Some(bytes) = files.read(rt.alloc(), path.as_str())? else {
        return Ok(String::new(rt.alloc()));
    };
    match str::from_utf8(&bytes) {
        Ok(text) => Ok(String::from_str(rt.alloc(), text)?),
        Err(_) => Err(Error::NotUtf8),
    }
}

/// Reads the configurations, the settings of registries and the lookups of a run.
fn read_inputs(
    rt: &HostRuntime,
    arguments: &FetchArguments<'_>,
    current: &str,
    home: Option<&str>,
) -> CargoResult<Inputs> {
    let room = join(rt.alloc(), current, arguments.room)?;
    let mut network = read_network(rt, room.as_str(), current, home)?;
    network.settings.offline = network.settings.offline || arguments.offline;
    let settings = read_settings(rt, &network.configs, home)?;
    let lookups = working_text(rt, room.as_str(), "lookups")?;
    Ok(Inputs {
        room,
        network,
        settings,
        lookups,
    })
}

/// The lookups of a run; none offline, where nothing is fetched.
fn fetched_lookups<'a>(rt: &HostRuntime, inputs: &'a Inputs) -> CargoResult<Vec<Lookup<'a>>> {
    if inputs.network.settings.offline {
        return Ok(Vec::new(rt.alloc()));
    }
    match read_lookups(rt.alloc(), inputs.lookups.as_str())? {
        Some(lookups) => Ok(lookups),
        None => Ok(Vec::new(rt.alloc())),
    }
}

/// Writes a text to standard output.
fn print_text(rt: &HostRuntime, text: &[u8]) -> CargoResult<u8>
    ensures status { IfOk result (λ s. s ≡ 0) }
{
    match rt.stdout().write_all(text) {
        Ok(()) => Ok(0),
        Err(_) => Err(Error::Output),
    }
}

/// The registries whose `config.json` is fetched, since they may want a token.
fn probed_registries(
    rt: &HostRuntime,
    inputs: &Inputs,
    lookups: &[Lookup<'_>],
) -> CargoResult<Vec<Registry>> {
    let mut probed = Vec::new(rt.alloc());
    for registry in registries_of(rt, lookups, &inputs.network, &inputs.settings)? {
        if needs_probe(&registry, &inputs.settings) {
            probed.push(registry)?;
        }
    }
    Ok(probed)
}

/// Prints curl's configuration to fetch `config.json` of each registry for which there may be a token. The
/// files go to the folder `probes` in the folder of the run.
fn print_probes(rt: &HostRuntime, inputs: &Inputs) -> CargoResult<u8>
    ensures status { IfOk result (λ s. s ≡ 0) }
{
    let lookups = fetched_lookups(rt, inputs)?;
    let probed = probed_registries(rt, inputs, &lookups)?;
    let text = probes_config(rt, inputs.room.as_str(), &inputs.network.settings, &probed)?;
    print_text(rt, &text)
}

/// The answers of providers so far, from standard input.
fn input_text(rt: &HostRuntime) -> CargoResult<String> {
    let bytes = read_input(rt, 1024 * LIMIT)?;
    match str::from_utf8(&bytes) {
        Ok(text) => Ok(String::from_str(rt.alloc(), text)?),
        Err(_) => Err(Error::NotUtf8),
    }
}

/// Prints the next call of a provider, as text for a shell, given the answers so far on standard input;
/// nothing if no further provider has to be run.
fn print_request(rt: &HostRuntime, inputs: &Inputs) -> CargoResult<u8>
    ensures status { IfOk result (λ s. s ≡ 0) }
{
    let text = input_text(rt)?;
    let replies = read_replies(rt, text.as_str())?;
    let lookups = fetched_lookups(rt, inputs)?;
    let registries = registries_of(rt, &lookups, &inputs.network, &inputs.settings)?;
    match verdicts_of(
        rt,
        inputs.room.as_str(),
        &inputs.settings,
        &registries,
        &replies,
    )? {
        Progress::Call(call) => {
            let mut text = Vec::new(rt.alloc());
            push_call(&mut text, &call)?;
            print_text(rt, &text)
        }
        Progress::Done(_) => Ok(0),
    }
}

/// The tokens to send, with the addresses of their registries.
fn sent_tokens<'a>(
    rt: &HostRuntime,
    registries: &'a [Registry],
    verdicts: &'a [Verdict],
) -> CargoResult<Vec<Token<'a>>> {
    let mut tokens = Vec::new(rt.alloc());
    for (registry, verdict) in registries.iter().zip(verdicts.iter()) {
        if let Verdict::Found { token, .. } = verdict {
            tokens.push(Token {
                address: registry.address.as_str(),
                token: token.as_str(),
            })?;
        }
    }
    Ok(tokens)
}

/// The addresses of registries that want a token for which none can be sent.
fn withheld_addresses<'a>(
    rt: &HostRuntime,
    registries: &'a [Registry],
    verdicts: &[Verdict],
) -> CargoResult<Vec<&'a str>> {
    let mut addresses = Vec::new(rt.alloc());
    for (registry, verdict) in registries.iter().zip(verdicts.iter()) {
        if let Verdict::Unsendable(_) = verdict {
            addresses.push(registry.address.as_str())?;
        }
    }
    Ok(addresses)
}

/// Writes the notes for `fetch-store`, and prints curl's configuration for all transfers. Standard input
/// has the answers of providers, with their tokens.
fn print_config<E: Write>(
    rt: &HostRuntime,
    inputs: &Inputs,
    cache: &str,
    err: &mut E,
) -> CargoResult<u8>
    ensures status { IfOk result (λ s. s ≤ 1) }
{
    let text = input_text(rt)?;
    let replies = read_replies(rt, text.as_str())?;
    let lookups = fetched_lookups(rt, inputs)?;
    let registries = registries_of(rt, &lookups, &inputs.network, &inputs.settings)?;
    let room = inputs.room.as_str();
    let Progress::Done(verdicts) = verdicts_of(rt, room, &inputs.settings, &registries, &replies)?
    else {
        let _ = writeln!(err, "Error: a credential provider was not run");
        return Ok(1);
    };
    write_notes(rt, room, &registries, &verdicts)?;
    let tokens = sent_tokens(rt, &registries, &verdicts)?;
    let withheld = withheld_addresses(rt, &registries, &verdicts)?;
    let plan = FetchPlan {
        cache,
        room,
        settings: &inputs.network.settings,
        tokens: &tokens,
        withheld: &withheld,
    };
    let mut files = CacheStore::new(rt.clone()?, process::id(rt.process()));
    match edit_fetch::fetch_config(rt.alloc(), &mut files, &plan, inputs.lookups.as_str())? {
        Some(config) => print_text(rt, &config),
        None => {
            let _ = writeln!(err, "Error: the lookups cannot be read");
            Ok(1)
        }
    }
}

/// Runs `credential-probes`, `credential-request` or `fetch-config`, and returns the exit status: 1 for an
/// error, and 2 for a usage error.
pub fn credentials<E: Write>(
    rt: &HostRuntime,
    name: &str,
    arguments: &[&str],
    current: &str,
    home: Option<&str>,
    err: &mut E,
) -> CargoResult<u8>
    ensures status { IfOk result (λ s. s ≤ 2) }
{
    let Some(arguments) = read_arguments(arguments) else {
        return Ok(print_fetch_usage(rt.alloc(), name, err)?);
    };
    let inputs = read_inputs(rt, &arguments, current, home)?;
    match name {
        "credential-probes" => print_probes(rt, &inputs),
        "credential-request" => print_request(rt, &inputs),
        _ => {
            let cache = join(rt.alloc(), current, arguments.cache)?;
            print_config(rt, &inputs, cache.as_str(), err)
        }
    }
}

/// Runs `credential-reply HOW`: reads the output of a provider from standard input, and prints its answer
/// as one line.
pub fn credential_reply<E: Write>(
    rt: &HostRuntime,
    arguments: &[&str],
    err: &mut E,
) -> CargoResult<u8>
    ensures status { IfOk result (λ s. (s ≡ 0) ⊎ (s ≡ 2)) }
{
    let &[how @ ("plugin" | "stdout")] = arguments else {
        return Ok(print_usage("credential-reply plugin|stdout", err));
    };
    let bytes = read_input(rt, LIMIT)?;
    let line = reply_line(rt.alloc(), how, &bytes)?;
    match writeln!(rt.stdout(), "{line}") {
        Ok(()) => Ok(0),
        Err(_) => Err(Error::Output),
    }
}
