//! The details in some errors.

use std::fmt;

/// A command of the original that cargo now provides itself: `add` or `rm`.
#[derive(Clone, Copy, Debug, PartialEq, Eq)]
pub enum MergedCommand {
    Add,
    Rm,
}

impl fmt::Display for MergedCommand {
    fn fmt<W: fmt::Write>(&self, f: &mut fmt::Formatter<W>) -> fmt::Result {
        let (command, cargo, edit, version) = match self {
            MergedCommand::Add => ("add", "1.62", "0.10", "0.9.1"),
            MergedCommand::Rm => ("rm", "1.66", "0.12", "0.11"),
        };
        writeln!(
            f,
            "`cargo {command}` has been merged into cargo {cargo}+ as of cargo-edit {edit}, either"
        )?;
        writeln!(f, "- Upgrade cargo, like with `rustup update`")?;
        write!(
            f,
            "- Downgrade `cargo-edit`, like with `cargo install cargo-edit --version {version}`"
        )
    }
}

/// The kind of what is missing: a package or a dependency that no manifest has, or a row that a plan has not.
#[derive(Clone, Copy, Debug, PartialEq, Eq)]
pub enum MissingKind {
    Package,
    Dependency,
    Row,
}

/// Missing names, which print as `package a doesn't exist` or `packages a, b don't exist`.
#[derive(Debug, Drop)]
pub struct MissingNames {
    pub kind: MissingKind,
    pub names: Vec<String>,
}

impl fmt::Display for MissingNames {
    fn fmt<W: fmt::Write>(&self, f: &mut fmt::Formatter<W>) -> fmt::Result {
        let (one, many) = match self.kind {
            MissingKind::Package => ("package", "packages"),
            MissingKind::Dependency => ("dependency", "dependencies"),
            MissingKind::Row => ("row", "rows"),
        };
        match self.names.as_slice() {
            [name] => write!(f, "{one} {name} doesn't exist"),
            names => {
                write!(f, "{many} ")?;
                for (i, name) in names.iter().enumerate() {
                    if i > 0 {
                        f.write_str(", ")?;
                    }
                    write!(f, "{name}")?;
                }
                f.write_str(" don't exist")
            }
        }
    }
}
