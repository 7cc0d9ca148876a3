//! The subcommand `plan`: answers a request in JSON on standard input.

use cli_machine::{output, read_input};
use edit_base::CargoResult;
use edit_request::answer_request;
use std::io::Write;

/// The greatest number of bytes of a request.
const LIMIT: u64 = 1_000_000_000;

/// What `--help` prints.
const HELP: &str = "\
Answers a request in JSON: plans an upgrade or new versions over texts, and touches no file

Usage: cargo-edit plan < REQUEST

The request and the response are described in docs/PLAN.md and docs/plan.schema.json.
";

/// Runs `plan` with these arguments, and returns the exit status: 0 where the request was carried out, 1
/// for an error of the plan, and 2 for a malformed request or wrong options.
pub(crate) fn plan<E: Write>(rt: &HostRuntime, arguments: &[&str], err: &mut E) -> CargoResult<u8> {
    let mut out = output(rt)?;
    match arguments.first().copied() {
        Some("-h" | "--help") => {
            let _ = out.write_all(HELP.as_bytes());
            return Ok(0);
        }
        Some(argument) => {
            let _ = writeln!(
                err,
                "error: unexpected argument '{argument}' found\n\n{HELP}"
            );
            return Ok(2);
        }
        None => {}
    }
    let request = read_input(rt, LIMIT + 1)?;
    if request.len() as u64 > LIMIT {
        let _ = writeln!(err, "error: the request has more than {LIMIT} bytes");
        return Ok(2);
    }
    let answer = answer_request(rt.alloc(), &request)?;
    let is_printed = writeln!(out, "{}", answer.text).is_ok() && out.flush().is_ok();
    if is_printed {
        Ok(answer.status)
    } else {
        Err(edit_base::Error::Output)
    }
}
