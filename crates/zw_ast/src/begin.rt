//! The nodes of `begin` forms.
ghost use Rattle.std.specs.Prelude.{◌≡◌, List};
ghost use Rattle.zw_def.specs.Text.{Text};
ghost use Rattle.zw_def_syntax.specs.Grammar.{is_begin_node};
ghost use Rattle.zw_ast.specs.Node.{tree_seen};

use crate::node::Node;

impl Node {
    /// Whether it is the node of a `begin` form (ISO/IEC 30170, 11.5.2.5).
    pub fn is_begin(&self) -> bool
        ensures { (names : List Text) → result ≡ is_begin_node (tree_seen names self.now) }
    {
        matches!(self, Node::Seq(_) | Node::Begin(_, _, _, _))
    }
}
