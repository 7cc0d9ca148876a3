//! The answers of providers, which the script collects as lines `STATUS KIND TEXT`.

use edit_base::CargoResult;

/// The answer of a provider that has run.
#[derive(Clone, Copy)]
pub(crate) struct ReplyLine<'a> {
    /// The exit status of its process.
    pub(crate) status: &'a str,
    /// `token`, `nothing`, `unsupported` or `failed`.
    pub(crate) kind: &'a str,
    pub(crate) text: &'a str,
}

/// The two parts of a line around its first space.
fn parts(line: &str) -> (&str, &str) {
    match line.split_once(' ') {
        Some(parts) => parts,
        None => (line, ""),
    }
}

/// Reads the answers, in their order.
pub(crate) fn read_replies<'a>(rt: &HostRuntime, text: &'a str) -> CargoResult<Vec<ReplyLine<'a>>> {
    let mut replies = Vec::new(rt.alloc());
    for line in text.lines() {
        let (status, rest) = parts(line);
        let (kind, text) = parts(rest);
        replies.push(ReplyLine { status, kind, text })?;
    }
    Ok(replies)
}
