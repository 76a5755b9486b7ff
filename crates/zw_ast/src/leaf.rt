//! Nodes without parts. Section numbers are those of ISO/IEC 30170.
ghost use Rattle.std.specs.Prelude.{◌≡◌, Some, IfOk, string_bytes};
ghost use Rattle.zw_def_syntax.specs.Tree as t;
ghost use Rattle.zw_ast.specs.Gives.{Gives};
ghost use Rattle.zw_ast.specs.Grown.{grown_seen};
ghost use Rattle.zw_ast.specs.Named.{IsName, IsNamed};
ghost use Rattle.zw_ast.specs.Node.{name_seen};

use crate::grown::{Built, MakeFault};
use crate::maker::Maker;
use crate::node::Node;
use zw_names::Name;

impl<'t> Maker<'t> {
    /// `nil`.
    pub fn nil(&self) -> Result<Built, MakeFault>
        ensures told { Gives (grown_seen self.now.names.now) (Some (t.leaf t.nil_node)) result }
        ensures named { IfOk result (IsNamed self.now.names.now) }
    {
        self.leaf(Node::Nil)
    }

    /// `true`.
    pub fn true_node(&self) -> Result<Built, MakeFault>
        ensures told { Gives (grown_seen self.now.names.now) (Some (t.leaf t.true_node)) result }
        ensures named { IfOk result (IsNamed self.now.names.now) }
    {
        self.leaf(Node::True)
    }

    /// `false`.
    pub fn false_node(&self) -> Result<Built, MakeFault>
        ensures told { Gives (grown_seen self.now.names.now) (Some (t.leaf t.false_node)) result }
        ensures named { IfOk result (IsNamed self.now.names.now) }
    {
        self.leaf(Node::False)
    }

    /// `self`.
    pub fn self_node(&self) -> Result<Built, MakeFault>
        ensures told { Gives (grown_seen self.now.names.now) (Some (t.leaf t.self_node)) result }
        ensures named { IfOk result (IsNamed self.now.names.now) }
    {
        self.leaf(Node::SelfNode)
    }

    /// An integer (8.7.6.2).
    pub fn integer(&self, value: i64) -> Result<Built, MakeFault>
        ensures told { Gives (grown_seen self.now.names.now) (Some (t.leaf (t.int_node value))) result }
        ensures named { IfOk result (IsNamed self.now.names.now) }
    {
        self.leaf(Node::Int(value))
    }

    /// A text without interpolation (8.7.6.3).
    pub fn text(&self, text: String) -> Result<Built, MakeFault>
        ensures told { Gives (grown_seen self.now.names.now) (Some (t.leaf (t.str_node (string_bytes text)))) result }
        ensures named { IfOk result (IsNamed self.now.names.now) }
    {
        self.leaf(Node::Str(text))
    }

    /// A symbol (8.7.6.6).
    pub fn symbol(&self, name: Name) -> Result<Built, MakeFault>
        requires name { IsName self.now.names.now name }
        ensures told { Gives (grown_seen self.now.names.now)
            (Some (t.leaf (t.sym_node (name_seen self.now.names.now name)))) result }
        ensures named { IfOk result (IsNamed self.now.names.now) }
    {
        self.leaf(Node::Sym(name))
    }

    /// A variable that is known (11.5.4).
    pub fn local(&self, name: Name) -> Result<Built, MakeFault>
        requires name { IsName self.now.names.now name }
        ensures told { Gives (grown_seen self.now.names.now)
            (Some (t.leaf (t.local_node (name_seen self.now.names.now name)))) result }
        ensures named { IfOk result (IsNamed self.now.names.now) }
    {
        self.leaf(Node::Local(name))
    }

    /// A name that may be a variable or a method (11.5.4).
    pub fn ident(&self, name: Name) -> Result<Built, MakeFault>
        requires name { IsName self.now.names.now name }
        ensures told { Gives (grown_seen self.now.names.now)
            (Some (t.leaf (t.ident_node (name_seen self.now.names.now name)))) result }
        ensures named { IfOk result (IsNamed self.now.names.now) }
    {
        self.leaf(Node::Ident(name))
    }

    /// `@x`.
    pub fn instance_variable(&self, name: Name) -> Result<Built, MakeFault>
        requires name { IsName self.now.names.now name }
        ensures told { Gives (grown_seen self.now.names.now)
            (Some (t.leaf (t.ivar_node (name_seen self.now.names.now name)))) result }
        ensures named { IfOk result (IsNamed self.now.names.now) }
    {
        self.leaf(Node::InstanceVariable(name))
    }

    /// `@@x`.
    pub fn class_variable(&self, name: Name) -> Result<Built, MakeFault>
        requires name { IsName self.now.names.now name }
        ensures told { Gives (grown_seen self.now.names.now)
            (Some (t.leaf (t.cvar_node (name_seen self.now.names.now name)))) result }
        ensures named { IfOk result (IsNamed self.now.names.now) }
    {
        self.leaf(Node::ClassVariable(name))
    }

    /// `N` (11.5.4.2).
    pub fn constant(&self, name: Name) -> Result<Built, MakeFault>
        requires name { IsName self.now.names.now name }
        ensures told { Gives (grown_seen self.now.names.now)
            (Some (t.leaf (t.const_node (name_seen self.now.names.now name)))) result }
        ensures named { IfOk result (IsNamed self.now.names.now) }
    {
        self.leaf(Node::Const(name))
    }

    /// `::N` (11.5.4.2).
    pub fn top_constant(&self, name: Name) -> Result<Built, MakeFault>
        requires name { IsName self.now.names.now name }
        ensures told { Gives (grown_seen self.now.names.now)
            (Some (t.leaf (t.top_const_node (name_seen self.now.names.now name)))) result }
        ensures named { IfOk result (IsNamed self.now.names.now) }
    {
        self.leaf(Node::TopConst(name))
    }

    /// `super` alone (11.3.4).
    pub fn zsuper(&self) -> Result<Built, MakeFault>
        ensures told { Gives (grown_seen self.now.names.now) (Some (t.leaf t.zsuper_node)) result }
        ensures named { IfOk result (IsNamed self.now.names.now) }
    {
        self.leaf(Node::ZSuper)
    }

    /// `break` (11.5.2.4).
    pub fn break_node(&self) -> Result<Built, MakeFault>
        ensures told { Gives (grown_seen self.now.names.now) (Some (t.leaf t.break_node)) result }
        ensures named { IfOk result (IsNamed self.now.names.now) }
    {
        self.leaf(Node::Break)
    }

    /// `next` (11.5.2.4).
    pub fn next_node(&self) -> Result<Built, MakeFault>
        ensures told { Gives (grown_seen self.now.names.now) (Some (t.leaf t.next_node)) result }
        ensures named { IfOk result (IsNamed self.now.names.now) }
    {
        self.leaf(Node::Next)
    }

    /// `return` without a value (11.5.2.4).
    pub fn return_nothing(&self) -> Result<Built, MakeFault>
        ensures told { Gives (grown_seen self.now.names.now) (Some (t.leaf (t.return_node t.absent))) result }
        ensures named { IfOk result (IsNamed self.now.names.now) }
    {
        self.leaf(Node::Return(None))
    }
}
