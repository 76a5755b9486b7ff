//! Lines of modules while they are made.
ghost use Rattle.std.specs.Prelude.{◌≡◌, [], ◌∷◌, ◌++◌, IfOk, OnOk, OnErr, reverse};
ghost use Rattle.zw_consts.specs.Ancestor.{is_among, numbers_of};

use indexmap::IndexSet;
use std::alloc::{AllocError, Global};
use std::marker::Model;
use zw_heap::ModuleId;

/// Modules in the order in which they were added. Contracts see the list of their numbers. Whether one is among them is
/// told in constant time.
#[derive(Drop)]
pub(crate) struct Line {
    order: Vec<ModuleId>,
    members: IndexSet<usize>,
}

impl Model for Line {
    ghost use Rattle.std.specs.Prelude.{List, ℕ};
    ghost use Rattle.std.specs.Coded.{coded_ℕ, coded_list};
    ghost use Rattle.zw_consts.specs.Ancestor.{numbers_of};
    ghost use Rattle.zw_consts.specs.Line.{HaveSameMembers};

    ghost Value = { List ℕ };

    ghost coded = { coded_list coded_ℕ };

    ghost view = { λ l. numbers_of l.order.items };

    ghost invariant = { λ l. HaveSameMembers l.members.keys (numbers_of l.order.items) };
}

impl Line {
    /// No module.
    pub(crate) fn new(alloc: Global) -> Line
        ensures { result ≡ [] }
    {
        Line {
            order: Vec::new(alloc),
            members: IndexSet::new(alloc),
        }
    }

    /// One module more, which comes last.
    pub(crate) fn push(&mut self, added: ModuleId) -> Result<(), AllocError>
        ensures pushed { OnOk result (self.new ≡ self.old ++ added.0 ∷ []) }
        ensures err { OnErr result (self.new ≡ self.old) }
    {
        self.order.push(added)?;
        if self.members.insert(added.0).is_err() {
            self.order.pop();
            return Err(AllocError);
        }
        Ok(())
    }

    /// Whether a module is among them.
    pub(crate) fn contains(&self, module: ModuleId) -> bool
        ensures { result ≡ is_among self.now «module».0 }
    {
        self.members.contains(&module.0)
    }

    /// More modules, in their order.
    pub(crate) fn extend(&mut self, added: &[ModuleId]) -> Result<(), AllocError>
        ensures { OnOk result (self.new ≡ self.old ++ numbers_of added.now) }
    {
        for module in added {
            self.push(*module)?;
        }
        Ok(())
    }

    /// The modules from the last one on.
    pub(crate) fn reversed(&self, alloc: Global) -> Result<Vec<ModuleId>, AllocError>
        ensures { IfOk result (λ modules. numbers_of modules.items ≡ reverse self.now) }
    {
        self.order.iter().rev().copied().collect(alloc)
    }
}
