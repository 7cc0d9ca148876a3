//! Which transfers of a round are tried again, and how long is waited before that.
ghost use Rattle.std.specs.Prelude.{◌≡◌, IfOk, map, string_bytes};
ghost use Rattle.edit_fetch.specs.Retries.{fault_text, first_waiting, is_in_time, is_passing_code, is_passing_status, may_pass, outcome_text, passing_codes, pause_of, rounded_seconds, verdict_of, wait_of, wanted_pause};

use std::alloc::{AllocError, Global};

/// The seconds that the tries of a transfer and the waits between them may take before its last try.
const LIMIT: u64 = 60;

/// A transfer that has ended.
#[derive(Clone, Copy, Debug)]
pub struct Attempt {
    /// The HTTP status of its answer, 0 where it has none.
    pub status: u32,
    /// The exit code of curl, 0 where the transfer did not fail.
    pub code: u32,
    /// The milliseconds of this try, those before it, and the waits between them.
    pub spent: u64,
    /// The seconds that the server wants to be waited for, 0 where it names none.
    pub retry_after: u64,
}

/// How the retries that are left are used.
#[derive(Clone, Copy, Debug)]
pub struct Retrying {
    /// How often transfers may still be tried again.
    pub tries: u32,
    /// The seconds that are waited where no server wants more.
    pub usual: u64,
}

/// What becomes of a transfer that has ended.
#[derive(Clone, Copy, Debug)]
pub enum Verdict {
    /// Its outcome is that of this try.
    Final,
    /// It is tried again after the pause.
    Again,
    /// It is given up: with the pause it would take too long in all.
    Late,
    /// It is given up: the server wants a longer wait than a transfer may take.
    LongWait,
}

/// What follows a round of transfers.
#[derive(Debug, Drop)]
pub struct Round {
    /// The seconds that are waited before the next round; 0 if there is none.
    pub pause: u64,
    /// The position of the first transfer for which it is so long.
    pub cause: Option<usize>,
    /// What becomes of each transfer.
    pub verdicts: Vec<Verdict>,
}

/// Whether another answer may follow an HTTP status.
fn is_passing_status(status: u32) -> bool
    ensures { result ≡ is_passing_status status }
{
    status == 408 || status == 429 || (500 <= status && status <= 599)
}

/// The exit codes of curl that may be others at the next try.
fn passing_codes() -> &'static [u32]
    ensures { result.now ≡ passing_codes }
{
    &[5, 6, 7, 16, 18, 28, 35, 52, 55, 56, 92]
}

/// Whether an exit code of curl may be another one at the next try.
fn is_passing_code(code: u32) -> bool
    ensures { result ≡ is_passing_code code }
{
    passing_codes().iter().any(|passing| *passing == code)
}

/// Whether a transfer may have another outcome if it is tried again.
fn may_pass(attempt: &Attempt) -> bool
    ensures { result ≡ may_pass attempt.now }
{
    if attempt.code == 0 {
        is_passing_status(attempt.status)
    } else {
        is_passing_code(attempt.code)
    }
}

/// The seconds to wait before a transfer is tried again: the usual ones, or the server's if
/// they are more.
fn wait_of(usual: u64, attempt: &Attempt) -> u64
    ensures { result ≡ wait_of usual attempt.now }
{
    usual.max(attempt.retry_after)
}

/// Whether a transfer with a wait of so many seconds stays within the limit.
fn is_in_time(attempt: &Attempt, wait: u64) -> bool
    ensures { result ≡ is_in_time attempt.now wait }
{
    wait <= LIMIT && attempt.spent <= (LIMIT - wait) * 1000
}

/// The pause that a transfer wants; 0 where it is not tried again.
fn wanted_pause(retrying: Retrying, attempt: &Attempt) -> u64
    ensures { result ≡ wanted_pause retrying attempt.now }
{
    let wait = wait_of(retrying.usual, attempt);
    if retrying.tries != 0 && may_pass(attempt) && is_in_time(attempt, wait) {
        wait
    } else {
        0
    }
}

/// The longest pause that a transfer of the round wants.
fn pause_of(retrying: Retrying, attempts: &[Attempt]) -> u64
    ensures { result ≡ pause_of retrying attempts.now }
{
    attempts
        .iter()
        .map(|attempt| wanted_pause(retrying, attempt))
        .fold(0, |longest, pause| longest.max(pause))
}

/// The position of the first transfer that wants this pause.
fn first_waiting(retrying: Retrying, pause: u64, attempts: &[Attempt]) -> Option<usize>
    ensures { result ≡ first_waiting retrying pause attempts.now }
{
    attempts
        .iter()
        .position(|attempt| wanted_pause(retrying, attempt) == pause)
}

/// What becomes of a transfer where the round is followed by this pause.
fn verdict_of(retrying: Retrying, pause: u64, attempt: &Attempt) -> Verdict
    ensures { result ≡ verdict_of retrying pause attempt.now }
{
    let wait = wait_of(retrying.usual, attempt);
    if retrying.tries == 0 || !may_pass(attempt) {
        Verdict::Final
    } else if LIMIT < wait {
        Verdict::LongWait
    } else if is_in_time(attempt, wait.max(pause)) {
        Verdict::Again
    } else {
        Verdict::Late
    }
}

/// What follows a round of these transfers.
pub fn end_round(
    alloc: Global,
    retrying: Retrying,
    attempts: &[Attempt],
) -> Result<Round, AllocError>
    ensures pause { IfOk result (λ r. r.pause ≡ pause_of retrying attempts.now) }
    ensures cause { IfOk result (λ r. r.cause ≡ first_waiting retrying r.pause attempts.now) }
    ensures verdicts { IfOk result (λ r. r.verdicts.items ≡ map (verdict_of retrying r.pause) attempts.now) }
{
    let pause = pause_of(retrying, attempts);
    let verdicts = attempts
        .iter()
        .map(|attempt| verdict_of(retrying, pause, attempt))
        .collect(alloc)?;
    Ok(Round {
        pause,
        cause: first_waiting(retrying, pause, attempts),
        verdicts,
    })
}

/// Why a transfer failed: the status of its answer, or what curl says.
pub fn fault_text(alloc: Global, attempt: &Attempt, message: &str) -> Result<String, AllocError>
    ensures { IfOk result (λ s. string_bytes s ≡ fault_text attempt.now message.now) }
{
    if attempt.code == 0 {
        format!(in alloc; "status {}", attempt.status)
    } else {
        String::from_str(alloc, message)
    }
}

/// Milliseconds as seconds, rounded.
fn rounded_seconds(milliseconds: u64) -> u64
    ensures { result ≡ rounded_seconds milliseconds }
{
    milliseconds / 1000 + milliseconds % 1000 / 500
}

/// What is said of a transfer whose outcome this is: what curl says, behind the reason why it was given up.
pub fn outcome_text(
    alloc: Global,
    usual: u64,
    attempt: &Attempt,
    verdict: Verdict,
    message: &str,
) -> Result<String, AllocError>
    ensures { IfOk result (λ s. string_bytes s ≡ outcome_text usual attempt.now verdict message.now) }
{
    match verdict {
        Verdict::Final | Verdict::Again => String::from_str(alloc, message),
        Verdict::Late => {
            let fault = fault_text(alloc, attempt, message)?;
            let seconds = rounded_seconds(attempt.spent);
            format!(in alloc; "gave up after {seconds} s: {fault}")
        }
        Verdict::LongWait => {
            let fault = fault_text(alloc, attempt, message)?;
            let seconds = wait_of(usual, attempt);
            format!(in alloc; "it wants a wait of {seconds} s: {fault}")
        }
    }
}
