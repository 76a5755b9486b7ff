//! What makes nodes over one table of names.
ghost use Rattle.std.specs.Prelude.{◌≡◌, ◌≤◌, Some, length, IfOk};
ghost use Rattle.zw_def_syntax.specs.Tree as t;
ghost use Rattle.zw_ast.specs.Gives.{Gives};
ghost use Rattle.zw_ast.specs.Grown.{grown_seen, all_seen, forms, row_seen, tallest};
ghost use Rattle.zw_ast.specs.Named.{IsNamed, bound_of};
ghost use Rattle.zw_ast.specs.Node.{tree_seen};
ghost use Rattle.zw_ast.specs.Operator.{AreSpelled};

use crate::grown::{Built, Grown, MAX_HEIGHT, MakeFault, Malformed};
use crate::node::Node;
use sqlite_items::{Boxed, Items};
use std::alloc::{AllocError, Global};
use zw_base::Fault;
use zw_names::Names;

/// Makes nodes. What they stand for is told by the names of one table.
#[derive(Clone, Copy)]
pub struct Maker<'t> {
    pub alloc: Global,
    pub names: &'t Names,
    pub ghost spelled: { AreSpelled names.now },
}

impl<'t> Maker<'t> {
    /// A maker over names among which those of the operators are.
    pub fn new(alloc: Global, names: &'t Names) -> Maker<'t>
        requires { AreSpelled names.now }
        ensures { result.names.now ≡ names.now }
    {
        Maker { alloc, names }
    }

    /// A node over parts that are so high, where it is not too high itself.
    #[tactic(auto, unfolding(zw_def_syntax::specs::Tree::node))]
    pub(crate) fn raise(&self, form: Node, below: u8) -> Result<Built, MakeFault>
        requires named { bound_of form ≤ length self.now.names.now }
        ensures told { Gives (grown_seen self.now.names.now)
            (t.node (record { form = tree_seen self.now.names.now form; height = below })) result }
        ensures named { IfOk result (IsNamed self.now.names.now) }
    {
        if below < MAX_HEIGHT {
            let height = below + 1;
            let form = Boxed::new(self.alloc, form)?;
            Ok(Grown { form, height })
        } else {
            Err(Fault::Refused(Malformed))
        }
    }

    /// A node without parts.
    pub(crate) fn leaf(&self, form: Node) -> Result<Built, MakeFault>
        requires named { bound_of form ≤ length self.now.names.now }
        ensures told { Gives (grown_seen self.now.names.now)
            (Some (t.leaf (tree_seen self.now.names.now form))) result }
        ensures named { IfOk result (IsNamed self.now.names.now) }
    {
        let form = Boxed::new(self.alloc, form)?;
        Ok(Grown { form, height: 1 })
    }

    /// Nodes in a row, as high as the highest of them.
    #[inline(never)]
    pub(crate) fn row(&self, all: Vec<Built>) -> Result<Grown<Items<Node>>, AllocError>
        ensures told { IfOk result
            (λ row. t.row_of (all_seen self.now.names.now all.items) ≡ row_seen self.now.names.now row) }
        ensures form { IfOk result (λ row. row.form ≡ forms all.items) }
        ensures height { IfOk result (λ row. row.height ≡ tallest all.items) }
    {
        let mut nodes = Items::new(self.alloc);
        let mut height = 0u8;
        'nodes: for one in all {
            height = height.max(one.height);
            nodes.push(one.form.into_inner())?;
        }
        Ok(Grown {
            form: nodes,
            height,
        })
    }
}
