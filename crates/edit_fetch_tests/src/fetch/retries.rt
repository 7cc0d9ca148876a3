//! Tests of which transfers are tried again, and when.
use edit_fetch::{Attempt, Retrying, Round, Verdict, end_round, fault_text, outcome_text};
use std::alloc::{AllocError, Global};
use std::test::Fail;

/// A transfer without an exit code of curl.
fn attempt_with(status: u32, spent: u64, retry_after: u64) -> Attempt {
    Attempt {
        status,
        code: 0,
        spent,
        retry_after,
    }
}

/// What follows a round of five transfers.
fn mixed_round(alloc: Global) -> Result<Round, AllocError> {
    let attempts = [
        attempt_with(200, 120, 0),
        attempt_with(503, 120, 0),
        attempt_with(429, 120, 7),
        attempt_with(429, 120, 3600),
        attempt_with(503, 59_700, 0),
    ];
    end_round(alloc, Retrying { tries: 2, usual: 1 }, &attempts)
}

/// The names of verdicts, each with a space behind it.
fn names_of(alloc: Global, verdicts: &[Verdict]) -> Result<String, AllocError> {
    let mut text = String::new(alloc);
    for verdict in verdicts {
        text.push_str(match verdict {
            Verdict::Final => "final ",
            Verdict::Again => "again ",
            Verdict::Late => "late ",
            Verdict::LongWait => "long ",
        })?;
    }
    Ok(text)
}

#[test]
fn one_round(rt: HostRuntime) -> Result<(), Fail> {
    let alloc = rt.alloc();
    let round = mixed_round(alloc)?;
    let names = names_of(alloc, &round.verdicts)?;
    assert_eq!(rt; names.as_str(), "final again again long late ");
    assert_eq!(rt; round.pause, 7);
    assert_eq!(rt; round.cause, Some(2));
    Ok(())
}

#[test]
fn no_try_left(rt: HostRuntime) -> Result<(), Fail> {
    let alloc = rt.alloc();
    let last = Retrying { tries: 0, usual: 1 };
    let round = end_round(alloc, last, &[attempt_with(503, 5, 0)])?;
    let names = names_of(alloc, &round.verdicts)?;
    assert_eq!(rt; names.as_str(), "final ");
    assert_eq!(rt; round.pause, 0);
    Ok(())
}

#[test]
fn long_wait(rt: HostRuntime) -> Result<(), Fail> {
    let attempt = attempt_with(429, 120, 3600);
    let text = outcome_text(rt.alloc(), 1, &attempt, Verdict::LongWait, "")?;
    assert_eq!(rt; text.as_str(), "it wants a wait of 3600 s: status 429");
    Ok(())
}

#[test]
fn late_transfer(rt: HostRuntime) -> Result<(), Fail> {
    let attempt = attempt_with(503, 59_700, 0);
    let text = outcome_text(rt.alloc(), 1, &attempt, Verdict::Late, "")?;
    assert_eq!(rt; text.as_str(), "gave up after 60 s: status 503");
    Ok(())
}

#[test]
fn fault_of_curl(rt: HostRuntime) -> Result<(), Fail> {
    let cut = Attempt {
        code: 18,
        ..attempt_with(200, 5, 0)
    };
    let text = fault_text(rt.alloc(), &cut, "transfer closed")?;
    assert_eq!(rt; text.as_str(), "transfer closed");
    Ok(())
}
