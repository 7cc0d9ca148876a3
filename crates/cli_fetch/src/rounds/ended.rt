//! What a round of transfers gave, by the files of the run.

use super::curl_lines::{CurlLine, read_line};
use cli_machine::machine_error;
use edit_base::paths::join;
use edit_base::{CargoResult, Error};
use edit_fetch::Attempt;
use edit_store::{HostStore, Store};
use std::io::ErrorKind;
use std::{fs, str};

/// The limit in bytes that the script sets for the size of a file.
const GREATEST_SIZE: u64 = 104_857_600;

/// The message of a transfer whose files could not be written.
pub(super) const FULL: &str = "the cache could not be written";

/// The transfers of a round that have ended: curl's line about each, and what decides whether it is tried
/// again.
#[derive(Drop)]
pub(super) struct Ended<'a> {
    pub(super) lines: Vec<CurlLine<'a>>,
    pub(super) attempts: Vec<Attempt>,
}

/// The bytes of a file of the run; none where there is no such file.
pub(super) fn room_bytes(rt: &HostRuntime, room: &str, name: &str) -> CargoResult<Vec<u8>> {
    let path = join(rt.alloc(), room, name)?;
    let mut files = HostStore::new(rt.clone()?);
    match files.read(rt.alloc(), path.as_str())? {
        Some(bytes) => Ok(bytes),
        None => Ok(Vec::new(rt.alloc())),
    }
}

/// Reads the file `again`, whose lines are `NUMBER` or `NUMBER TAB MILLISECONDS`. The result has, at the
/// position of each number, the time that this transfer took before.
pub(super) fn read_transfers(rt: &HostRuntime, text: &[u8]) -> CargoResult<Vec<Option<u64>>> {
    let mut transfers: Vec<Option<u64>> = Vec::new(rt.alloc());
    let Ok(text) = str::from_utf8(text) else {
        return Err(Error::NotUtf8);
    };
    for line in text.lines() {
        let (number, spent) = line.split_once('\t').unwrap_or((line, "0"));
        let (Ok(number), Ok(spent)) = (number.parse::<usize>(), spent.parse::<u64>()) else {
            continue;
        };
        for _ in transfers.len()..=number {
            transfers.push(None)?;
        }
        if let Some(transfer) = transfers.get_mut(number) {
            *transfer = Some(spent);
        }
    }
    Ok(transfers)
}

/// Whether the file with the body of a transfer has reached the limit of its size.
fn is_large(rt: &HostRuntime, room: &str, number: usize) -> CargoResult<bool> {
    let path = format!(in rt.alloc(); "{room}/{number}")?;
    match fs::metadata(rt, path.as_str()) {
        Ok(found) => Ok(found.len() >= GREATEST_SIZE),
        Err(error) if error.kind() == ErrorKind::OutOfMemory => Err(machine_error(error)),
        Err(_) => Ok(false),
    }
}

/// Replaces the message of curl for a file that could not be written (exit code 23) and for a body that is
/// too large (63). curl ends with 23 for such a body too if it did not know the length before.
fn corrected<'a>(rt: &HostRuntime, room: &str, line: CurlLine<'a>) -> CargoResult<CurlLine<'a>> {
    let mut line = line;
    if line.code == "23" && is_large(rt, room, line.number)? {
        line.code = "63";
    }
    if line.code == "23" {
        line.message = FULL;
    } else if line.code == "63" {
        line.message = "the body has more than 100 MB";
    }
    Ok(line)
}

/// The seconds in the header `Retry-After` of an answer (RFC 9110, 10.2.3); 0 where it has none, or a date.
fn retry_after_in(head: &[u8]) -> u64 {
    let mut seconds = 0u64;
    for line in head.split(|byte| *byte == b'\n') {
        if let Ok(line) = str::from_utf8(line)
            && let Some((name, value)) = line.split_once(':')
            && name.eq_ignore_ascii_case("retry-after")
        {
            seconds = value.trim().parse::<u64>().unwrap_or(seconds);
        }
    }
    seconds
}

/// What decides whether a transfer is tried again. `before` is the time in milliseconds that it took before
/// this round.
fn attempt_of(
    rt: &HostRuntime,
    room: &str,
    line: CurlLine<'_>,
    before: u64,
) -> CargoResult<Attempt> {
    let status = line.status.parse::<u32>().unwrap_or(0);
    let code = line.code.parse::<u32>().unwrap_or(1);
    let retry_after = if code == 0 && status >= 400 {
        let name = format!(in rt.alloc(); "{}.head", line.number)?;
        retry_after_in(&room_bytes(rt, room, name.as_str())?)
    } else {
        0
    };
    Ok(Attempt {
        status,
        code,
        spent: before.saturating_add(line.milliseconds()),
        retry_after,
    })
}

/// Reads curl's lines about the transfers of a round, and removes each of these from `transfers`. If a
/// transfer has several lines, the first one counts.
pub(super) fn read_round<'a>(
    rt: &HostRuntime,
    room: &str,
    round: &'a [u8],
    transfers: &mut Vec<Option<u64>>,
) -> CargoResult<Ended<'a>> {
    let mut ended = Ended {
        lines: Vec::new(rt.alloc()),
        attempts: Vec::new(rt.alloc()),
    };
    for bytes in round.split(|byte| *byte == b'\n') {
        let Some(line) = read_line(bytes) else {
            continue;
        };
        let Some(before) = transfers.get(line.number).copied().flatten() else {
            continue;
        };
        if let Some(transfer) = transfers.get_mut(line.number) {
            *transfer = None;
        }
        let line = corrected(rt, room, line)?;
        ended.attempts.push(attempt_of(rt, room, line, before)?)?;
        ended.lines.push(line)?;
    }
    Ok(ended)
}
