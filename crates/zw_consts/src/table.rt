//! The table of one module.
ghost use Rattle.std.specs.Prelude.{◌≡◌, [], IfOk, OnOk, OnErr, nat_eq};
ghost use Rattle.std.specs.Map.{lookup, remove_entry};
ghost use Rattle.indexmap.specs.IndexMap.{insert_entry};

use indexmap::IndexMap;
use std::alloc::{AllocError, Global};
use std::marker::Model;
use zw_names::Name;

/// What stands at the names of one module, in the order in which they were first set. Contracts see the pairs of a name's
/// number and what stands there.
#[derive(Drop)]
pub(crate) struct Table<V: Copy + Drop> {
    entries: IndexMap<usize, V>,
}

impl<V: Copy + Drop> Model for Table<V> {
    ghost use Rattle.zw_consts.specs.Table.{Table as Entries};

    ghost Value = { Entries V };

    ghost view = { λ s. s.entries.entries };
}

impl<V: Copy + Drop> Table<V> {
    pub(crate) fn new(alloc: Global) -> Table<V>
        ensures { result ≡ [] }
    {
        Table {
            entries: IndexMap::new(alloc),
        }
    }

    pub(crate) fn get(&self, name: Name) -> Option<V>
        ensures { result ≡ lookup (nat_eq name.0) self.now }
    {
        self.entries.get(&name.0).copied()
    }

    pub(crate) fn set(&mut self, name: Name, value: V) -> Result<(), AllocError>
        ensures ok { OnOk result (self.new ≡ insert_entry nat_eq self.old name.0 value) }
        ensures err { OnErr result (self.new ≡ self.old) }
    {
        self.entries.insert(name.0, value)?;
        Ok(())
    }

    pub(crate) fn clear(&mut self, name: Name)
        ensures { self.new ≡ remove_entry (nat_eq name.0) self.old }
    {
        self.entries.shift_remove(&name.0);
    }

    /// The same table.
    pub(crate) fn copy(&self) -> Result<Table<V>, AllocError>
        requires exact { (x y : V) → V.is_clone x y → y ≡ x }
        ensures { IfOk result (λ copy. copy ≡ self.now) }
    {
        Ok(Table {
            entries: self.entries.clone()?,
        })
    }
}
