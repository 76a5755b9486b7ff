//! Tables of constants.
ghost use Rattle.std.specs.Prelude.{◌≡◌, IfOk, OnOk, OnErr, length};
ghost use Rattle.zw_consts.specs.Table.{tables_of, no_tables, value_at, with_value, without_value, first_tables};

use crate::slot::Slot;
use crate::tables::Tables;
use std::alloc::{AllocError, Global};
use std::marker::Model;
use zw_heap::{Heap, ModuleId};
use zw_names::Name;

/// The constants of all modules (ISO/IEC 30170, 7.4). Contracts see a list of tables by the numbers of modules, and read
/// it by `tables_of`.
#[derive(Drop)]
pub struct Consts {
    slots: Tables<Slot>,
}

impl Model for Consts {
    ghost use Rattle.std.specs.Prelude.{List};
    ghost use Rattle.zw_consts.specs.Table.{Table as Entries};
    ghost use Rattle.zw_consts.specs.declared.slot.Slot.{Slot as Item};

    ghost Value = { List (Entries Item) };

    ghost view = { λ s. s.slots };
}

impl Consts {
    /// No constants.
    pub fn new(alloc: Global) -> Result<Consts, AllocError>
        ensures { IfOk result (λ made. tables_of made ≡ no_tables) }
    {
        Ok(Consts {
            slots: Tables::new(alloc),
        })
    }

    /// What stands at a name of a module's own table. It takes no memory.
    pub fn slot(&self, of: ModuleId, name: Name) -> Option<Slot>
        ensures { result ≡ value_at of.0 name.0 (tables_of self.now) }
    {
        self.slots.get(of, name)
    }

    /// Sets that one slot. A name that is there keeps its place in the table, and a new one comes last.
    pub fn set(&mut self, of: ModuleId, name: Name, slot: Slot) -> Result<(), AllocError>
        ensures set { OnOk result (tables_of self.new ≡ with_value of.0 name.0 slot (tables_of self.old)) }
        ensures unchanged { OnErr result (tables_of self.new ≡ tables_of self.old) }
    {
        self.slots.set(of, name, slot)
    }

    /// Clears that one slot. The others of the table keep their order. It takes no memory.
    pub fn clear(&mut self, of: ModuleId, name: Name)
        ensures { tables_of self.new ≡ without_value of.0 name.0 (tables_of self.old) }
    {
        self.slots.clear(of, name);
    }

    /// The present tables of the modules of a heap alone.
    pub fn copy_boot(&self, heap: &Heap) -> Result<Consts, AllocError>
        ensures { IfOk result (λ copy. tables_of copy
            ≡ first_tables (length heap.now.modules) (tables_of self.now)) }
    {
        Ok(Consts {
            slots: self.slots.copy_first(heap.module_count())?,
        })
    }
}
