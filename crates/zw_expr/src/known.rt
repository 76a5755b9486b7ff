//! The variables that are known.
ghost use Rattle.std.specs.Prelude.{◌≡◌, [], ◌∷◌, ◌++◌, OnOk, OnErr, nat_eq};
ghost use Rattle.std.specs.List.{list_any};

use indexmap::IndexSet;
use std::alloc::{AllocError, Global};
use std::marker::Model;
use zw_names::Name;

/// Variables that are known, in the order in which they became so. Contracts see the list of their numbers. Whether one
/// is among them is told in constant time.
#[derive(Drop)]
pub struct Known {
    order: Vec<Name>,
    members: IndexSet<usize>,
}

impl Model for Known {
    ghost use Rattle.std.specs.Prelude.{List, ℕ};
    ghost use Rattle.std.specs.Coded.{coded_ℕ, coded_list};
    ghost use Rattle.zw_expr.specs.Known.{numbers_of, HaveSameMembers};

    ghost Value = { List ℕ };

    ghost coded = { coded_list coded_ℕ };

    ghost view = { λ k. numbers_of k.order.items };

    ghost invariant = { λ k. HaveSameMembers k.members.keys (numbers_of k.order.items) };
}

impl Known {
    /// No variable.
    pub fn new(alloc: Global) -> Known
        ensures { result ≡ [] }
    {
        Known {
            order: Vec::new(alloc),
            members: IndexSet::new(alloc),
        }
    }

    /// One variable more is known.
    pub fn push(&mut self, name: Name) -> Result<(), AllocError>
        ensures pushed { OnOk result (self.new ≡ self.old ++ name.0 ∷ []) }
        ensures err { OnErr result (self.new ≡ self.old) }
    {
        self.order.push(name)?;
        if self.members.insert(name.0).is_err() {
            self.order.pop();
            return Err(AllocError);
        }
        Ok(())
    }

    /// Whether a variable is known.
    pub fn contains(&self, name: Name) -> bool
        ensures { result ≡ list_any (nat_eq name.0) self.now }
    {
        self.members.contains(&name.0)
    }
}
