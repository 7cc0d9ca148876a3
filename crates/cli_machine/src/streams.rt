//! Standard output and standard error of the program.
ghost use Rattle.std.specs.Prelude.{◌≡◌, ◌↔◌, IsTrue, Some, codes, option_map};

use crate::color::is_colored;
use crate::machine::machine_error;
use edit_base::CargoResult;
use edit_terminal::{ReportWriter, TerminalWriter};
use either::Either;
use std::alloc::Global;
use std::io::{IsTerminal, LineWriter, Stderr, Stdout, Write};

/// A line-buffered stream of messages; for a terminal, characters that it would interpret are escaped.
pub type Stream<W> = Either<TerminalWriter<LineWriter<W>>, LineWriter<W>>;

/// A line-buffered stream of a report; for a terminal, characters that it would interpret are escaped and
/// columns are aligned, and parts are colored where that is wanted.
pub type ReportStream<W> = Either<ReportWriter<LineWriter<W>>, LineWriter<W>>;

/// The values of the options that say how a report is printed, where they are given.
#[derive(Clone, Copy)]
pub struct ReportOptions<'a> {
    pub format: Option<&'a str>,
    pub color: Option<&'a str>,
}

impl ReportOptions<'_> {
    /// Whether the report is written as JSON messages.
    pub fn is_json(self) -> bool
        ensures { IsTrue result ↔ (option_map (λ s. s.now) self.entry.format ≡ Some (codes "json")) }
    {
        self.format == Some("json")
    }
}

/// The size in bytes of the line buffer: a longer line is written in parts.
const LINE: usize = 8192;

/// A line-buffered stream over a writer.
fn line_stream<W: Write + Drop>(alloc: Global, to: W) -> CargoResult<LineWriter<W>> {
    LineWriter::with_capacity(alloc, LINE, to).map_err(machine_error)
}

/// Standard output for programs, which is not escaped for a terminal. No clause says what it writes, as of
/// the other streams of the machine here.
pub fn output(rt: &HostRuntime) -> CargoResult<LineWriter<Stdout>> {
    line_stream(rt.alloc(), rt.stdout())
}

/// Standard error.
pub fn errors(rt: &HostRuntime) -> CargoResult<Stream<Stderr>> {
    let to = rt.stderr();
    let is_terminal = to.is_terminal();
    let lines = line_stream(rt.alloc(), to)?;
    if is_terminal {
        Ok(Either::Left(TerminalWriter::new(rt.alloc(), lines)))
    } else {
        Ok(Either::Right(lines))
    }
}

/// A stream of a report over a writer, with colors where they are wanted.
fn report_stream<W: Write + Drop>(
    alloc: Global,
    to: W,
    is_terminal: bool,
    wanted: bool,
) -> CargoResult<ReportStream<W>> {
    let lines = line_stream(alloc, to)?;
    if is_terminal || wanted {
        Ok(Either::Left(ReportWriter::new(alloc, lines, wanted)))
    } else {
        Ok(Either::Right(lines))
    }
}

/// Standard output of a report: JSON messages are neither escaped nor colored, and other formats than
/// tables are not colored.
pub fn report_output(
    rt: &HostRuntime,
    options: ReportOptions<'_>,
) -> CargoResult<ReportStream<Stdout>> {
    let to = rt.stdout();
    let is_terminal = to.is_terminal();
    match options.format {
        Some("json") => report_stream(rt.alloc(), to, false, false),
        Some("markdown" | "github") => report_stream(rt.alloc(), to, is_terminal, false),
        _ => {
            let wanted = is_colored(rt, options.color, is_terminal)?;
            report_stream(rt.alloc(), to, is_terminal, wanted)
        }
    }
}

/// Standard error of a report.
pub fn report_errors(
    rt: &HostRuntime,
    options: ReportOptions<'_>,
) -> CargoResult<ReportStream<Stderr>> {
    let to = rt.stderr();
    let is_terminal = to.is_terminal();
    let wanted = is_colored(rt, options.color, is_terminal)?;
    report_stream(rt.alloc(), to, is_terminal, wanted)
}
