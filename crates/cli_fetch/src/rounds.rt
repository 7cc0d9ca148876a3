//! The subcommands for rounds of transfers: `fetch-round` prints curl's options for the transfers of a
//! round, and `fetch-retry` decides, after a round, which of them are tried again.
ghost use Rattle.std.specs.Prelude.{◌≡◌, ◌⊎◌, IfOk};

mod curl_lines;
mod curl_options;
mod ended;

use cli_machine::{output, print_usage, read_input};
use curl_lines::CurlLine;
use curl_options::push_options;
use edit_base::paths::join;
use edit_base::{CargoResult, Error};
use edit_fetch::{Attempt, Retrying, Verdict, end_round, fault_text, outcome_text};
use edit_store::{HostStore, Store};
use ended::{FULL, read_round, read_transfers, room_bytes};
use std::io::Write;
use std::str;

/// The most bytes that are read of curl's options for all transfers.
const OPTIONS_LIMIT: u64 = 268_435_456;

/// The arguments of `fetch-retry`.
#[derive(Clone, Copy)]
struct Arguments<'a> {
    /// The folder of the run.
    room: &'a str,
    retrying: Retrying,
    /// The exit status of curl.
    curl_status: &'a str,
}

/// The files that the next round starts from.
#[derive(Drop)]
struct Results {
    /// The transfers that are tried again.
    again: String,
    /// The outcomes of the others.
    answers: String,
}

/// Appends the outcome of a transfer, as `fetch-store` reads it.
fn push_answer(
    rt: &HostRuntime,
    answers: &mut String,
    line: CurlLine<'_>,
    code: &str,
    message: &str,
) -> CargoResult<()> {
    let CurlLine {
        number,
        status,
        redirects,
        ..
    } = line;
    let text = format!(in rt.alloc(); "{number}\t{status}\t{code}\t{redirects}\t{message}\n")?;
    answers.push_str(text.as_str())?;
    Ok(())
}

/// Appends a transfer to the files of the next round, by its verdict. Where a transfer with an answer is
/// given up, its exit code becomes 22, which curl has for answers with an error.
fn push_result(
    rt: &HostRuntime,
    results: &mut Results,
    line: CurlLine<'_>,
    attempt: &Attempt,
    verdict: Verdict,
    timing: (u64, u64),
) -> CargoResult<()> {
    let (usual, pause) = timing;
    if let Verdict::Again = verdict {
        let spent = attempt.spent.saturating_add(pause.saturating_mul(1000));
        let text = format!(in rt.alloc(); "{}\t{spent}\n", line.number)?;
        results.again.push_str(text.as_str())?;
        return Ok(());
    }
    let is_given_up = matches!(verdict, Verdict::Late | Verdict::LongWait);
    let code = if is_given_up && line.code == "0" {
        "22"
    } else {
        line.code
    };
    let message = outcome_text(rt.alloc(), usual, attempt, verdict, line.message)?;
    push_answer(rt, &mut results.answers, line, code, message.as_str())
}

/// Appends an answer for each of these transfers: its files could not be written. On a full disk curl cannot
/// write its own line about a transfer either.
fn push_unsaid(
    rt: &HostRuntime,
    results: &mut Results,
    transfers: &[Option<u64>],
) -> CargoResult<()> {
    for (number, transfer) in transfers.iter().enumerate() {
        if transfer.is_some() {
            let line = CurlLine {
                number,
                status: "000",
                code: "23",
                redirects: "0",
                seconds: "0",
                message: FULL,
            };
            push_answer(rt, &mut results.answers, line, "23", FULL)?;
        }
    }
    Ok(())
}

/// Writes the file `again` anew, and adds outcomes to the file `answers`.
fn write_results(rt: &HostRuntime, room: &str, results: &Results) -> CargoResult<()> {
    let mut answers = room_bytes(rt, room, "answers")?;
    answers.extend_from_slice(results.answers.as_bytes())?;
    let mut files = HostStore::new(rt.clone()?);
    let path = join(rt.alloc(), room, "answers")?;
    files.write(rt.alloc(), path.as_str(), &answers)?;
    let path = join(rt.alloc(), room, "again")?;
    files.write(rt.alloc(), path.as_str(), results.again.as_bytes())
}

/// Ends a round: writes the files of the next one, and returns the line to print, which has the seconds to
/// wait and the reason. It is empty where no transfer is tried again.
fn finish_round(rt: &HostRuntime, arguments: Arguments<'_>) -> CargoResult<String> {
    let Arguments { room, retrying, .. } = arguments;
    let mut transfers = read_transfers(rt, &room_bytes(rt, room, "again")?)?;
    let round = room_bytes(rt, room, "round")?;
    let ended = read_round(rt, room, &round, &mut transfers)?;
    let next = end_round(rt.alloc(), retrying, &ended.attempts)?;
    let mut results = Results {
        again: String::new(rt.alloc()),
        answers: String::new(rt.alloc()),
    };
    let timing = (retrying.usual, next.pause);
    for (index, line) in ended.lines.iter().enumerate() {
        if let Some(attempt) = ended.attempts.get(index)
            && let Some(verdict) = next.verdicts.get(index)
        {
            push_result(rt, &mut results, *line, attempt, *verdict, timing)?;
        }
    }
    if arguments.curl_status == "23" {
        push_unsaid(rt, &mut results, &transfers)?;
    }
    write_results(rt, room, &results)?;
    let Some(cause) = next.cause else {
        return Ok(String::new(rt.alloc()));
    };
    match (ended.lines.get(cause), ended.attempts.get(cause)) {
        (Some(line), Some(attempt)) if next.pause != 0 => {
            let fault = fault_text(rt.alloc(), attempt, line.message)?;
            Ok(format!(in rt.alloc(); "{} s: {fault}\n", next.pause)?)
        }
        _ => Ok(String::new(rt.alloc())),
    }
}

/// Runs `fetch-retry`, and returns the exit status: 2 for a usage error.
pub fn fetch_retry<E: Write>(
    rt: &HostRuntime,
    arguments: &[&str],
    current: &str,
    err: &mut E,
) -> CargoResult<u8>
    ensures status { IfOk result (λ s. (s ≡ 0) ⊎ (s ≡ 2)) }
{
    let usage = "fetch-retry ROOM TRIES SECONDS CURL-STATUS";
    let [room, tries, usual, curl_status] = arguments else {
        return Ok(print_usage(usage, err));
    };
    let (Ok(tries), Ok(usual)) = (tries.parse::<u32>(), usual.parse::<u64>()) else {
        return Ok(print_usage(usage, err));
    };
    let room = join(rt.alloc(), current, room)?;
    let arguments = Arguments {
        room: room.as_str(),
        retrying: Retrying { tries, usual },
        curl_status,
    };
    let line = finish_round(rt, arguments)?;
    let mut out = output(rt)?;
    match out.write_all(line.as_bytes()) {
        Ok(()) => Ok(0),
        Err(_) => Err(Error::Output),
    }
}

/// Runs `fetch-round`, and returns the exit status: 2 for a usage error.
pub fn fetch_round<E: Write>(
    rt: &HostRuntime,
    arguments: &[&str],
    current: &str,
    err: &mut E,
) -> CargoResult<u8>
    ensures status { IfOk result (λ s. (s ≡ 0) ⊎ (s ≡ 2)) }
{
    let [room] = arguments else {
        return Ok(print_usage("fetch-round ROOM", err));
    };
    let room = join(rt.alloc(), current, room)?;
    let transfers = read_transfers(rt, &room_bytes(rt, room.as_str(), "again")?)?;
    let options = read_input(rt, OPTIONS_LIMIT)?;
    let Ok(options) = str::from_utf8(&options) else {
        return Err(Error::NotUtf8);
    };
    let mut text = String::new(rt.alloc());
    push_options(&mut text, options, &transfers)?;
    match rt.stdout().write_all(text.as_bytes()) {
        Ok(()) => Ok(0),
        Err(_) => Err(Error::Output),
    }
}
