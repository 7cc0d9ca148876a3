//! Headers: each opens one table and closes all others.
ghost use Rattle.std.specs.Prelude.{◌≡◌, ◌∷◌, [], ℕ, List, IfOk, IfErr};
ghost use Rattle.edit_base.specs.Errors.{IsMemory};
ghost use Rattle.edit_tree.specs.Walk.{State, table_opened, array_table_opened};
ghost use Rattle.edit_tree.specs.WalkState.{Walks, HasNextState};

use crate::assertions::add_element;
use crate::nodes::{Content, DefinedBy};
use crate::walk::Walk;
use edit_base::errors::CargoResult;
use std::alloc::{AllocError, Global};

impl Walk {
    /// Makes this the only open table.
    fn open_only(&mut self, number: usize) -> Result<(), AllocError>
        ensures turned { IfOk result (λ _. (text : List ℕ) (st : State) → Walks text self.old st
            → Walks text self.new (record st { tables = number ∷ [] })) }
    {
        self.tables.clear();
        self.tables.push(number)?;
        Ok(())
    }

    /// Opens the table that the pending `[key]` names; returns false where TOML does not allow it.
    pub(crate) fn open_header_table(&mut self, alloc: Global, text: &str) -> CargoResult<bool>
        ensures goes { (st : State) → Walks text.now self.old st
            → IfOk result (HasNextState text.now self.new (table_opened st)) }
        ensures error { IfErr result IsMemory }
    {
        let Some(number) = self.define_pending(
            alloc,
            text,
            0,
            DefinedBy::Super,
            Content::Table,
            DefinedBy::Header,
            None,
        )?
        else {
            return Ok(false);
        };
        self.open_only(number)?;
        Ok(true)
    }

    /// Opens the next element of the array of tables that the pending `[[key]]` names; returns false where
    /// the key is already defined as something else.
    pub(crate) fn open_array_table(&mut self, alloc: Global, text: &str) -> CargoResult<bool>
        ensures goes { (st : State) → Walks text.now self.old st
            → IfOk result (HasNextState text.now self.new (array_table_opened st)) }
        ensures error { IfErr result IsMemory }
    {
        let Some(number) = self.define_pending(
            alloc,
            text,
            0,
            DefinedBy::Super,
            Content::Tables,
            DefinedBy::Array,
            None,
        )?
        else {
            return Ok(false);
        };
        let Some(element) = add_element(
            alloc,
            &mut self.nodes,
            number,
            Content::Table,
            DefinedBy::Element,
            None,
        )?
        else {
            return Ok(false);
        };
        self.open_only(element)?;
        Ok(true)
    }
}
