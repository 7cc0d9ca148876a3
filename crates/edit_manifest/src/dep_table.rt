//! The dependency tables of a manifest.
ghost use Rattle.std.specs.Prelude.{◌≡◌, None, Some, IfErr, IfOk};
ghost use Rattle.edit_base.specs.Errors.{IsMemory};
ghost use Rattle.edit_manifest.specs.Kinds.{kind_name, is_kind};
ghost use Rattle.edit_manifest.specs.DepTables.{table_view};
ghost use Rattle.edit_manifest.specs.declared.dep_table.DepKind.TheVariants.{Normal};

use edit_base::errors::CargoResult;
use std::alloc::Global;

/// A kind of dependency.
#[derive(Clone, Copy, Debug, PartialEq, Eq, PartialOrd, Ord, Hash)]
pub enum DepKind {
    Normal,
    Development,
    Build,
}

/// The name of the table of normal dependencies.
pub(crate) const NORMAL: &str = "dependencies";

/// The name of the table of development dependencies.
const DEVELOPMENT: &str = "dev-dependencies";

/// The name of the table of build dependencies.
const BUILD: &str = "build-dependencies";

/// Whether a name is that of a dependency table.
pub(crate) fn is_kind(name: &str) -> bool
    ensures { result ≡ is_kind name.now }
{
    name == NORMAL || name == DEVELOPMENT || name == BUILD
}

/// A dependency table: its kind, and its target if it has one.
#[derive(Debug, PartialEq, Eq, Drop)]
pub struct DepTable {
    pub kind: DepKind,
    /// The target, if the table is specific to one.
    pub target: Option<String>,
}

impl DepTable {
    /// Returns the table of normal dependencies, for every target.
    pub fn new() -> DepTable
        ensures { result ≡ record { kind = Normal; target = None } }
    {
        DepTable {
            kind: DepKind::Normal,
            target: None,
        }
    }

    /// Returns the table with its kind replaced.
    pub fn set_kind(self, kind: DepKind) -> DepTable
        ensures { result ≡ record self { kind = kind } }
    {
        DepTable { kind, ..self }
    }

    /// Returns the table with its target set.
    pub fn set_target(self, alloc: Global, target: &str) -> CargoResult<DepTable>
        ensures ok { IfOk result (λ t. table_view t ≡ (self.kind, Some target.now)) }
        ensures error { IfErr result IsMemory }
    {
        let target = String::from_str(alloc, target)?;
        Ok(DepTable {
            target: Some(target),
            ..self
        })
    }

    /// The name of the table of this kind.
    pub fn kind_table(&self) -> &'static str
        ensures { result.now ≡ kind_name self.now.kind }
    {
        match self.kind {
            DepKind::Normal => NORMAL,
            DepKind::Development => DEVELOPMENT,
            DepKind::Build => BUILD,
        }
    }

    /// Returns a deep copy of the table.
    pub fn try_clone(&self, _alloc: Global) -> CargoResult<DepTable>
        ensures same { IfOk result (λ t. table_view t ≡ table_view self.now) }
        ensures error { IfErr result IsMemory }
    {
        let target = match &self.target {
            Some(target) => Some(target.clone()?),
            None => None,
        };
        Ok(DepTable {
            kind: self.kind,
            target,
        })
    }
}

impl Default for DepTable {
    ghost is_default = { λ t. t ≡ record { kind = Normal; target = None } };

    fn default() -> DepTable {
        DepTable::new()
    }
}

impl From<DepKind> for DepTable {
    ghost from_gives = { λ kind t. t ≡ record { kind = kind; target = None } };

    fn from(kind: DepKind) -> DepTable {
        DepTable::new().set_kind(kind)
    }
}
