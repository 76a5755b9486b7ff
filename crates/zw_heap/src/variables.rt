//! Variables of one module or object.
ghost use Rattle.std.specs.Prelude.{◌≡◌, [], IfOk, OnOk, OnErr, nat_eq};
ghost use Rattle.std.specs.Map.{lookup};
ghost use Rattle.indexmap.specs.IndexMap.{insert_entry};

use crate::value::Value;
use indexmap::IndexMap;
use std::alloc::{AllocError, Global};
use std::marker::Model;
use zw_names::Name;

/// Variables by their names, in the order in which they were first set. Contracts see the pairs of a name's number and
/// a value.
#[derive(Drop)]
pub(crate) struct Variables {
    entries: IndexMap<usize, Value>,
}

impl Model for Variables {
    ghost use Rattle.std.specs.Prelude.{List, ℕ};
    ghost use Rattle.zw_heap.specs.declared.value.Value.{Value as Item};

    ghost Value = { List (ℕ × Item) };

    ghost view = { λ s. s.entries.entries };
}

impl Variables {
    pub(crate) fn new(alloc: Global) -> Variables
        ensures { result ≡ [] }
    {
        Variables {
            entries: IndexMap::new(alloc),
        }
    }

    pub(crate) fn get(&self, name: Name) -> Option<Value>
        ensures { result ≡ lookup (nat_eq name.0) self.now }
    {
        self.entries.get(&name.0).copied()
    }

    pub(crate) fn set(&mut self, name: Name, to: Value) -> Result<(), AllocError>
        ensures ok { OnOk result (self.new ≡ insert_entry nat_eq self.old name.0 to) }
        ensures err { OnErr result (self.new ≡ self.old) }
    {
        self.entries.insert(name.0, to)?;
        Ok(())
    }

    /// The same variables.
    pub(crate) fn copy(&self) -> Result<Variables, AllocError>
        ensures { IfOk result (λ copy. copy ≡ self.now) }
    {
        Ok(Variables {
            entries: self.entries.clone()?,
        })
    }
}
