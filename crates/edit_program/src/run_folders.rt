//! The folders that a run of the program depends on.

/// The folders that a run of the program depends on.
#[derive(Clone, Copy)]
pub struct RunFolders<'a> {
    /// The absolute folder that relative paths start from.
    pub current: &'a str,
    /// The home folder of cargo, whose configuration has the lowest precedence.
    pub cargo_home: Option<&'a str>,
}
