//! Tests of messages to a writer, and of the exit statuses of programs.
use crate::assertion_helpers::{unwrap_alloc, unwrap_ok};
use crate::rows::{LINES, check_rows, field};
use edit_base::{CargoResult, CliError, Error};
use edit_report::{shell_print, shell_write_stderr, shell_write_stdout};
use std::alloc::Global;
use std::process::Abort;
use std::{io, str};

/// Writes a message with the call of this name.
fn write_by(out: &mut Vec<u8>, call: &str, first: &str, message: &str) -> CargoResult<()> {
    match call {
        "justified" => shell_print(out, first, message, true),
        "plain" => shell_print(out, first, message, false),
        "stderr" => shell_write_stderr(out, message),
        _ => shell_write_stdout(out, message),
    }
}

/// The contents of a writer after a message: its status and the message, with `@` for a line end.
fn message_contents(rt: &impl Abort, alloc: Global, call: &str, fields: &str) -> String {
    let mut out = Vec::new(alloc);
    unwrap_ok(
        rt,
        write_by(&mut out, call, field(fields, 0), field(fields, 1)),
    );
    let seen = str::from_utf8(&out).expect(rt, "UTF-8");
    let lines: Vec<&str> = unwrap_alloc(rt, seen.split('\n').collect(alloc));
    unwrap_alloc(rt, lines.join(alloc, "@"))
}

/// What is written, with `@` for a line's end; the call; the status; the message.
const MESSAGES: &str = "\
Error: x@|plain|Error|x
          né x@|justified|né|x
much longer than twelve x@|justified|much longer than twelve|x
a fragment|stderr||a fragment
a fragment|stdout||a fragment";

#[test]
fn writes_messages(rt: HostRuntime) {
    check_rows(&rt, rt.alloc(), MESSAGES, LINES, message_contents);
}

/// The `CliError` that the call of this name makes.
fn end_by(call: &str) -> CliError {
    match call {
        "new" => CliError::new(Error::Locked, 3),
        "code" => CliError::code(4),
        "error" => CliError::from(Error::Locked),
        _ => CliError::from(io::Error::from(io::ErrorKind::NotFound)),
    }
}

/// The exit status of that error, and whether it has a message.
fn status(rt: &impl Abort, alloc: Global, call: &str, _rest: &str) -> String {
    let end = end_by(call);
    let outcome = if end.error.is_some() { "error" } else { "none" };
    unwrap_alloc(rt, format!(in alloc; "{} {outcome}", end.exit_code))
}

/// The status and whether there is an error; the call.
const ENDS: &str = "\
3 error|new
4 none|code
101 error|error
1 error|io";

#[test]
fn ends_with_a_status(rt: HostRuntime) {
    check_rows(&rt, rt.alloc(), ENDS, LINES, status);
}
