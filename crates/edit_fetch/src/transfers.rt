//! The transfers of index entries, as a configuration file of curl.
ghost use Rattle.std.specs.Prelude.{◌≡◌, ◌++◌, true, IfOk, IsSome, OnOk, decimal, map, option_map, string_bytes};
ghost use Rattle.std.specs.List.{flat_map};
ghost use Rattle.edit_fetch.specs.CurlConfig.{in_a_row, option_line, options_in, without_nuls};
ghost use Rattle.edit_fetch.specs.Transfers.{common_options, etag_options, file_options, head_options, header_text, is_header_text, is_secure, named_options, transfer_file, protocol_options, protocols, redirect_options, requests_text, sent_etag, sent_token, time_options, token_options, transfer_options};

use crate::curl_config::{push_bare, push_separator, push_valued};
use crate::secure_urls::{is_https, is_secure};
use crate::settings::NetSettings;
use std::alloc::{AllocError, Global};

/// A request for an index entry.
#[derive(Debug, Drop)]
pub struct Request<'a> {
    /// The number of its lookup, from 1.
    pub number: usize,
    /// The URL, of the scheme `http` or `https`.
    pub url: Vec<u8>,
    /// The ETag of the cached entry, if that is usable.
    pub etag: Option<String>,
    /// The token of the registry, if there is one.
    pub token: Option<&'a str>,
}

/// Whether a text is allowed in a header: it contains no control character.
pub fn is_header_text(text: &[u8]) -> bool
    ensures { result ≡ is_header_text text.now }
{
    text.iter().all(|b| 32 <= *b && *b != 127)
}

/// Returns a text if it is allowed in a header.
fn header_text<'a>(text: Option<&'a str>) -> Option<&'a str>
    ensures { option_map (λ t. t.now) result ≡ header_text (option_map (λ t. t.now) text.entry) }
{
    let text = text?;
    if is_header_text(text.as_bytes()) {
        Some(text)
    } else {
        None
    }
}

/// The token that is sent: only over TLS or to the loopback interface.
fn sent_token<'a>(request: &Request<'a>) -> Option<&'a str>
    ensures token { option_map (λ t. t.now) result ≡ sent_token request.now }
    ensures secure { IsSome result → is_secure request.now.url.items ≡ true }
{
    if is_secure(&request.url) {
        header_text(request.token)
    } else {
        None
    }
}

/// Appends the header `If-None-Match` with the ETag of the cached entry, if there is one.
#[tactic(auto, unfolding(crate::specs::Transfers::etag_options))]
fn push_etag(alloc: Global, text: &mut Vec<u8>, request: &Request<'_>) -> Result<(), AllocError>
    ensures { OnOk result (text.new.items
        ≡ text.old.items ++ flat_map option_line (etag_options (sent_etag request.now))) }
{
    let Some(etag) = header_text(request.etag.as_deref()) else {
        return Ok(());
    };
    let header = format!(in alloc; "If-None-Match: {etag}")?;
    push_valued(text, "header", header.as_bytes())?;
    Ok(())
}

/// Appends the options that follow redirects.
#[tactic(auto, unfolding(crate::specs::Transfers::redirect_options))]
fn push_redirects(text: &mut Vec<u8>) -> Result<(), AllocError>
    ensures { OnOk result (text.new.items
        ≡ text.old.items ++ flat_map option_line redirect_options) }
{
    push_bare(text, "location")?;
    push_valued(text, "max-redirs", b"5")?;
    Ok(())
}

/// Appends the header `Authorization` with the token, if there is one, which curl sends to no other scheme,
/// host or port than those of the URL.
#[tactic(auto, unfolding(crate::specs::Transfers::token_options))]
fn push_token(alloc: Global, text: &mut Vec<u8>, request: &Request<'_>) -> Result<(), AllocError>
    ensures { OnOk result (text.new.items
        ≡ text.old.items ++ flat_map option_line (token_options (sent_token request.now))) }
{
    let Some(token) = sent_token(request) else {
        return Ok(());
    };
    let header = format!(in alloc; "Authorization: {token}")?;
    push_valued(text, "header", header.as_bytes())?;
    Ok(())
}

/// The protocols that curl may use, in its syntax.
fn protocols(url: &[u8]) -> &'static str
    ensures { result.now ≡ protocols url.now }
{
    if is_https(url) {
        "=https"
    } else {
        "=http,https"
    }
}

/// Appends the options for the protocols that curl may use.
#[tactic(auto, unfolding(crate::specs::Transfers::protocol_options))]
fn push_protocols(text: &mut Vec<u8>, url: &[u8]) -> Result<(), AllocError>
    ensures { OnOk result (text.new.items
        ≡ text.old.items ++ flat_map option_line (protocol_options url.now)) }
{
    let protocols = protocols(url).as_bytes();
    push_valued(text, "proto", protocols)?;
    push_valued(text, "proto-redir", protocols)?;
    Ok(())
}

/// The path of a file of a transfer.
fn transfer_file(
    alloc: Global,
    room: &str,
    number: usize,
    ending: &str,
) -> Result<String, AllocError>
    ensures { IfOk result (λ s. string_bytes s ≡ transfer_file room.now number ending.now) }
{
    format!(in alloc; "{room}/{number}{ending}")
}

/// Appends the URL of an entry, and the options for the files with its body, its ETag and its outcome.
#[tactic(auto, unfolding(crate::specs::Transfers::file_options))]
fn push_files(
    alloc: Global,
    text: &mut Vec<u8>,
    room: &str,
    request: &Request<'_>,
) -> Result<(), AllocError>
    ensures { OnOk result (text.new.items
        ≡ text.old.items ++ flat_map option_line (file_options room.now request.now)) }
{
    let number = request.number;
    let body = transfer_file(alloc, room, number, "")?;
    let etag = transfer_file(alloc, room, number, ".etag")?;
    let outcome = format!(in alloc;
        "{number}\t%{{response_code}}\t%{{exitcode}}\t%{{num_redirects}}\t%{{time_total}}\t%{{errormsg}}\n"
    )?;
    push_valued(text, "url", &request.url)?;
    push_valued(text, "output", body.as_bytes())?;
    push_valued(text, "etag-save", etag.as_bytes())?;
    push_valued(text, "write-out", outcome.as_bytes())?;
    Ok(())
}

/// Appends the option for the file with the headers of the answers.
#[tactic(auto, unfolding(crate::specs::Transfers::head_options))]
fn push_head(
    alloc: Global,
    text: &mut Vec<u8>,
    room: &str,
    request: &Request<'_>,
) -> Result<(), AllocError>
    ensures { OnOk result (text.new.items
        ≡ text.old.items ++ flat_map option_line (head_options room.now request.now)) }
{
    let head = transfer_file(alloc, room, request.number, ".head")?;
    push_valued(text, "dump-header", head.as_bytes())?;
    Ok(())
}

/// Appends the options that all transfers share.
#[tactic(auto, unfolding(crate::specs::Transfers::common_options))]
fn push_common(text: &mut Vec<u8>) -> Result<(), AllocError>
    ensures { OnOk result (text.new.items ≡ text.old.items ++ flat_map option_line common_options) }
{
    push_bare(text, "silent")?;
    push_bare(text, "globoff")?;
    push_bare(text, "compressed")?;
    push_valued(text, "user-agent", b"cargo-edit/0.1.0")?;
    Ok(())
}

/// Appends the timeouts and the greatest size of a body.
#[tactic(auto, unfolding(crate::specs::Transfers::time_options))]
fn push_times(alloc: Global, text: &mut Vec<u8>, settings: &NetSettings) -> Result<(), AllocError>
    ensures { OnOk result (text.new.items
        ≡ text.old.items ++ flat_map option_line (time_options settings.now)) }
{
    let timeout = settings.timeout.to_string(alloc)?;
    push_valued(text, "connect-timeout", timeout.as_bytes())?;
    push_valued(text, "speed-limit", b"10")?;
    push_valued(text, "speed-time", timeout.as_bytes())?;
    push_valued(text, "max-filesize", b"104857600")?;
    Ok(())
}

/// Appends the proxy and the file of certificates, if the settings have them.
#[tactic(auto, unfolding(crate::specs::Transfers::named_options))]
fn push_named(text: &mut Vec<u8>, settings: &NetSettings) -> Result<(), AllocError>
    ensures { OnOk result (text.new.items
        ≡ text.old.items ++ flat_map option_line (named_options settings.now)) }
{
    if let Some(proxy) = &settings.proxy {
        push_valued(text, "proxy", proxy.as_bytes())?;
    }
    if let Some(cainfo) = &settings.cainfo {
        push_valued(text, "cacert", cainfo.as_bytes())?;
    }
    Ok(())
}

/// Appends the options of a transfer.
#[tactic(auto, unfolding(crate::specs::Transfers::transfer_options))]
fn push_transfer(
    alloc: Global,
    text: &mut Vec<u8>,
    settings: &NetSettings,
    room: &str,
    request: &Request<'_>,
) -> Result<(), AllocError>
    ensures { OnOk result (text.new.items
        ≡ text.old.items ++ flat_map option_line (transfer_options settings.now room.now request.now)) }
{
    push_files(alloc, text, room, request)?;
    push_head(alloc, text, room, request)?;
    push_etag(alloc, text, request)?;
    push_redirects(text)?;
    push_token(alloc, text, request)?;
    push_protocols(text, &request.url)?;
    push_common(text)?;
    push_times(alloc, text, settings)?;
    push_named(text, settings)?;
    Ok(())
}

/// The lines of the options of transfers, separated by `next`.
fn transfers_text(
    alloc: Global,
    settings: &NetSettings,
    room: &str,
    requests: &[Request<'_>],
) -> Result<Vec<u8>, AllocError>
    ensures { IfOk result (λ v. v.items ≡ requests_text settings.now room.now requests.now) }
{
    let mut text = Vec::new(alloc);
    for (i, request) in requests.iter().enumerate() {
        push_separator(&mut text, i)?;
        push_transfer(alloc, &mut text, settings, room, request)?;
    }
    Ok(text)
}

/// The configuration file of curl that fetches these entries, each into a file of the folder `room`.
pub fn requests_text(
    alloc: Global,
    settings: &NetSettings,
    room: &str,
    requests: &[Request<'_>],
) -> Result<Vec<u8>, AllocError>
    ensures text { IfOk result (λ v. v.items ≡ requests_text settings.now room.now requests.now) }
    // no value ends its string or adds an option: curl reads exactly these options
    ensures read { IfOk result (λ v. options_in v.items
        ≡ map without_nuls (in_a_row (map (transfer_options settings.now room.now) requests.now))) }
{
    let text = transfers_text(alloc, settings, room, requests)?;
    Ok(text)
}
