//! Tables of test cases: each table is one text.
use crate::assertion_helpers::check_result;
use std::alloc::Global;
use std::process::Abort;

/// The separators of the rows of a table, and of the fields of a row.
#[derive(Clone, Copy)]
pub(crate) struct Ends {
    row: char,
    field: char,
}

/// Each row is a line, and its fields are separated by bars.
pub(crate) const LINES: Ends = Ends {
    row: '\n',
    field: '|',
};

/// A row ends at a tilde, so that its fields can contain lines; they are separated by bars.
pub(crate) const TILDES: Ends = Ends {
    row: '~',
    field: '|',
};

/// The text before the first separator, and the text after it; the whole text twice where there is none.
fn cut(text: &str, end: char) -> (&str, &str) {
    text.split_once(end).unwrap_or((text, text))
}

/// A field of a row, from 0; empty where there is none.
pub(crate) fn field(row: &str, n: usize) -> &str {
    row.split('|').nth(n).unwrap_or("")
}

/// Ends a test at the first row that does not give its expected result. A row is the expected result, the
/// call, and the argument, which is the rest of the row.
pub(crate) fn check_rows<R: Abort, F: Fn(&R, Global, &str, &str) -> String + Drop>(
    rt: &R,
    alloc: Global,
    table: &str,
    ends: Ends,
    answer: F,
)
    requires { F.IsAlwaysCallable answer }
{
    'rows: for row in table.split(ends.row) {
        let (want, rest) = cut(row, ends.field);
        let (call, argument) = cut(rest, ends.field);
        let seen = answer(rt, alloc, call, argument);
        check_result(rt, row, seen.as_str(), want);
    }
}
