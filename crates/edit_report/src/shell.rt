//! Messages to a writer.
ghost use Rattle.std.specs.Prelude.{◌≡◌, IfErr, OnOk, codes, false, true};
ghost use Rattle.std.specs.Io.KnownBytes.{Appends};
ghost use Rattle.edit_base.specs.declared.errors.Error.TheVariants.{Output};
ghost use Rattle.edit_report.specs.Messages.{message_text};

use edit_base::{CargoResult, Error};
use std::io;

/// Writes a text.
fn write_text<W: io::Write>(out: &mut W, text: &str) -> CargoResult<()>
    ensures bytes { OnOk result (Appends (W.contents out.old) (W.contents out.new) text.now) }
    ensures error { IfErr result (λ e. e ≡ Output) }
{
    match out.write_all(text.as_bytes()) {
        Ok(()) => Ok(()),
        Err(_) => Err(Error::Output),
    }
}

/// Writes a message after its status, which is right-aligned to twelve columns.
fn print_justified<W: io::Write>(out: &mut W, status: &str, message: &str) -> CargoResult<()>
    ensures bytes { OnOk result (Appends (W.contents out.old) (W.contents out.new)
        (message_text true status.now message.now)) }
    ensures error { IfErr result (λ e. e ≡ Output) }
{
    match writeln!(out, "{status:>12} {message}") {
        Ok(()) => Ok(()),
        Err(_) => Err(Error::Output),
    }
}

/// Writes a message after its status and a colon.
fn print_plain<W: io::Write>(out: &mut W, status: &str, message: &str) -> CargoResult<()>
    ensures bytes { OnOk result (Appends (W.contents out.old) (W.contents out.new)
        (message_text false status.now message.now)) }
    ensures error { IfErr result (λ e. e ≡ Output) }
{
    match writeln!(out, "{status}: {message}") {
        Ok(()) => Ok(()),
        Err(_) => Err(Error::Output),
    }
}

/// Writes a message after its status, which is right-aligned to twelve columns, or followed by a colon.
pub fn shell_print<W: io::Write>(
    out: &mut W,
    status: &str,
    message: &str,
    justified: bool,
) -> CargoResult<()>
    ensures bytes { OnOk result (Appends (W.contents out.old) (W.contents out.new)
        (message_text justified status.now message.now)) }
    ensures error { IfErr result (λ e. e ≡ Output) }
{
    if justified {
        print_justified(out, status, message)
    } else {
        print_plain(out, status, message)
    }
}

/// Writes a status line: an action, right-aligned to twelve columns, and a message.
pub fn shell_status<W: io::Write>(out: &mut W, action: &str, message: &str) -> CargoResult<()>
    ensures bytes { OnOk result (Appends (W.contents out.old) (W.contents out.new)
        (message_text true action.now message.now)) }
    ensures error { IfErr result (λ e. e ≡ Output) }
{
    shell_print(out, action, message, true)
}

/// Writes a warning.
pub fn shell_warn<W: io::Write>(out: &mut W, message: &str) -> CargoResult<()>
    ensures bytes { OnOk result (Appends (W.contents out.old) (W.contents out.new)
        (message_text false (codes "warning") message.now)) }
    ensures error { IfErr result (λ e. e ≡ Output) }
{
    shell_print(out, "warning", message, false)
}

/// Writes a note.
pub fn shell_note<W: io::Write>(out: &mut W, message: &str) -> CargoResult<()>
    ensures bytes { OnOk result (Appends (W.contents out.old) (W.contents out.new)
        (message_text false (codes "note") message.now)) }
    ensures error { IfErr result (λ e. e ≡ Output) }
{
    shell_print(out, "note", message, false)
}

/// Writes a fragment unchanged to `out`, the standard error of the caller.
pub fn shell_write_stderr<W: io::Write>(out: &mut W, fragment: &str) -> CargoResult<()>
    ensures bytes { OnOk result (Appends (W.contents out.old) (W.contents out.new) fragment.now) }
    ensures error { IfErr result (λ e. e ≡ Output) }
{
    write_text(out, fragment)
}

/// Writes a text unchanged to `out`, the standard output of the caller.
pub fn shell_write_stdout<W: io::Write>(out: &mut W, text: &str) -> CargoResult<()>
    ensures bytes { OnOk result (Appends (W.contents out.old) (W.contents out.new) text.now) }
    ensures error { IfErr result (λ e. e ≡ Output) }
{
    write_text(out, text)
}
