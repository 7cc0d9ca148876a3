//! The output format of a plan.

/// The format of a report on standard output.
#[derive(Clone, Copy, Debug)]
pub enum MessageFormat {
    Human,
    Json,
    /// One table of GitHub Flavored Markdown.
    Markdown,
    /// Annotations of GitHub Actions.
    Github,
    /// The rows that change, numbered.
    Numbered,
}

/// What is printed of a plan on standard output.
#[derive(Clone, Copy, Debug)]
pub struct Presentation {
    pub format: MessageFormat,
    /// Whether the diff of each manifest is printed.
    pub diff: bool,
}
