//! Nodes over nodes and rows of nodes. Section numbers are those of ISO/IEC 30170.
ghost use Rattle.std.specs.Prelude.{◌≡◌, IfOk};
ghost use Rattle.zw_def_syntax.specs.Compound as c;
ghost use Rattle.zw_def_syntax.specs.Expression as e;
ghost use Rattle.zw_def_syntax.specs.Tree as t;
ghost use Rattle.zw_ast.specs.Gives.{Gives};
ghost use Rattle.zw_ast.specs.Grown.{grown_seen, all_seen};
ghost use Rattle.zw_ast.specs.Named.{IsName, IsNamed, AreNamed};
ghost use Rattle.zw_ast.specs.Node.{name_seen, order_seen};

use crate::grown::{Built, MakeFault};
use crate::maker::Maker;
use crate::node::{Node, Order};
use zw_names::Name;

impl<'t> Maker<'t> {
    /// `x = e` (11.4.2).
    #[inline(never)]
    pub fn set_local(&self, name: Name, value: Built) -> Result<Built, MakeFault>
        requires name { IsName self.now.names.now name }
        requires value { IsNamed self.now.names.now value }
        ensures told { Gives (grown_seen self.now.names.now)
            (t.over (t.set_local (name_seen self.now.names.now name)) (grown_seen self.now.names.now value))
            result }
        ensures named { IfOk result (IsNamed self.now.names.now) }
    {
        let height = value.height;
        self.raise(Node::SetLocal(name, value.form), height)
    }

    /// `@x = e`.
    #[inline(never)]
    pub fn set_instance_variable(&self, name: Name, value: Built) -> Result<Built, MakeFault>
        requires name { IsName self.now.names.now name }
        requires value { IsNamed self.now.names.now value }
        ensures told { Gives (grown_seen self.now.names.now)
            (t.over (t.set_ivar (name_seen self.now.names.now name)) (grown_seen self.now.names.now value))
            result }
        ensures named { IfOk result (IsNamed self.now.names.now) }
    {
        let height = value.height;
        self.raise(Node::SetInstanceVariable(name, value.form), height)
    }

    /// `@@x = e`.
    #[inline(never)]
    pub fn set_class_variable(&self, name: Name, value: Built) -> Result<Built, MakeFault>
        requires name { IsName self.now.names.now name }
        requires value { IsNamed self.now.names.now value }
        ensures told { Gives (grown_seen self.now.names.now)
            (t.over (t.set_cvar (name_seen self.now.names.now name)) (grown_seen self.now.names.now value))
            result }
        ensures named { IfOk result (IsNamed self.now.names.now) }
    {
        let height = value.height;
        self.raise(Node::SetClassVariable(name, value.form), height)
    }

    /// `N = e`.
    #[inline(never)]
    pub fn set_constant(&self, name: Name, value: Built) -> Result<Built, MakeFault>
        requires name { IsName self.now.names.now name }
        requires value { IsNamed self.now.names.now value }
        ensures told { Gives (grown_seen self.now.names.now)
            (t.over (t.set_const (name_seen self.now.names.now name)) (grown_seen self.now.names.now value))
            result }
        ensures named { IfOk result (IsNamed self.now.names.now) }
    {
        let height = value.height;
        self.raise(Node::SetConst(name, value.form), height)
    }

    /// `e::N` (11.5.4.2).
    #[inline(never)]
    pub fn scoped(&self, base: Built, name: Name) -> Result<Built, MakeFault>
        requires base { IsNamed self.now.names.now base }
        requires name { IsName self.now.names.now name }
        ensures told { Gives (grown_seen self.now.names.now)
            (t.over (λ b. t.scoped_node b (name_seen self.now.names.now name))
            (grown_seen self.now.names.now base)) result }
        ensures named { IfOk result (IsNamed self.now.names.now) }
    {
        let height = base.height;
        self.raise(Node::Scoped(base.form, name), height)
    }

    /// `b::N = e`.
    #[inline(never)]
    pub fn set_scoped(&self, base: Built, name: Name, value: Built) -> Result<Built, MakeFault>
        requires base { IsNamed self.now.names.now base }
        requires name { IsName self.now.names.now name }
        requires value { IsNamed self.now.names.now value }
        ensures told { Gives (grown_seen self.now.names.now)
            (t.over_both (λ b v. t.set_scoped b (name_seen self.now.names.now name) v)
            (grown_seen self.now.names.now base) (grown_seen self.now.names.now value)) result }
        ensures named { IfOk result (IsNamed self.now.names.now) }
    {
        let height = base.height.max(value.height);
        self.raise(Node::SetScoped(base.form, name, value.form), height)
    }

    /// `r.x = e`.
    #[inline(never)]
    pub fn set_attribute(
        &self,
        receiver: Built,
        name: Name,
        value: Built,
    ) -> Result<Built, MakeFault>
        requires receiver { IsNamed self.now.names.now receiver }
        requires name { IsName self.now.names.now name }
        requires value { IsNamed self.now.names.now value }
        ensures told { Gives (grown_seen self.now.names.now)
            (t.over_both (λ r v. t.set_attr r (name_seen self.now.names.now name) v)
            (grown_seen self.now.names.now receiver) (grown_seen self.now.names.now value)) result }
        ensures named { IfOk result (IsNamed self.now.names.now) }
    {
        let height = receiver.height.max(value.height);
        self.raise(Node::SetAttribute(receiver.form, name, value.form), height)
    }

    /// `!e` and `not e` (11.2.2 and 11.2.5).
    #[inline(never)]
    pub fn negation(&self, value: Built) -> Result<Built, MakeFault>
        requires value { IsNamed self.now.names.now value }
        ensures told { Gives (grown_seen self.now.names.now)
            (t.over t.not_node (grown_seen self.now.names.now value)) result }
        ensures named { IfOk result (IsNamed self.now.names.now) }
    {
        let height = value.height;
        self.raise(Node::Not(value.form), height)
    }

    /// `a && b` and `a and b` (11.2.3).
    #[inline(never)]
    pub fn conjunction(&self, left: Built, right: Built) -> Result<Built, MakeFault>
        requires left { IsNamed self.now.names.now left }
        requires right { IsNamed self.now.names.now right }
        ensures told { Gives (grown_seen self.now.names.now)
            (t.over_both t.and_node (grown_seen self.now.names.now left)
            (grown_seen self.now.names.now right)) result }
        ensures named { IfOk result (IsNamed self.now.names.now) }
    {
        let height = left.height.max(right.height);
        self.raise(Node::And(left.form, right.form), height)
    }

    /// `a || b` and `a or b` (11.2.4).
    #[inline(never)]
    pub fn disjunction(&self, left: Built, right: Built) -> Result<Built, MakeFault>
        requires left { IsNamed self.now.names.now left }
        requires right { IsNamed self.now.names.now right }
        ensures told { Gives (grown_seen self.now.names.now)
            (t.over_both t.or_node (grown_seen self.now.names.now left) (grown_seen self.now.names.now right))
            result }
        ensures named { IfOk result (IsNamed self.now.names.now) }
    {
        let height = left.height.max(right.height);
        self.raise(Node::Or(left.form, right.form), height)
    }

    /// `return e` (11.5.2.4).
    #[inline(never)]
    pub fn return_value(&self, value: Built) -> Result<Built, MakeFault>
        requires value { IsNamed self.now.names.now value }
        ensures told { Gives (grown_seen self.now.names.now)
            (t.over (λ v. t.return_node (t.present v)) (grown_seen self.now.names.now value)) result }
        ensures named { IfOk result (IsNamed self.now.names.now) }
    {
        let height = value.height;
        self.raise(Node::Return(Some(value.form)), height)
    }

    /// `[a, b]` (11.5.5).
    #[inline(never)]
    pub fn array(&self, items: Vec<Built>) -> Result<Built, MakeFault>
        requires items { AreNamed self.now.names.now items.items }
        ensures told { Gives (grown_seen self.now.names.now)
            (t.over t.array_node (t.row_of (all_seen self.now.names.now items.items))) result }
        ensures named { IfOk result (IsNamed self.now.names.now) }
    {
        let items = self.row(items)?;
        let height = items.height;
        self.raise(Node::Array(items.form), height)
    }

    /// `begin .. end` without clauses, and parentheses round none or several statements.
    #[inline(never)]
    pub fn sequence(&self, statements: Vec<Built>) -> Result<Built, MakeFault>
        requires statements { AreNamed self.now.names.now statements.items }
        ensures told { Gives (grown_seen self.now.names.now)
            (t.over t.seq_node (t.row_of (all_seen self.now.names.now statements.items))) result }
        ensures named { IfOk result (IsNamed self.now.names.now) }
    {
        let statements = self.row(statements)?;
        let height = statements.height;
        self.raise(Node::Seq(statements.form), height)
    }

    /// A call on `self` (11.3).
    #[inline(never)]
    pub fn self_call(&self, name: Name, args: Vec<Built>) -> Result<Built, MakeFault>
        requires name { IsName self.now.names.now name }
        requires args { AreNamed self.now.names.now args.items }
        ensures told { Gives (grown_seen self.now.names.now)
            (t.over (t.self_call (name_seen self.now.names.now name))
            (t.row_of (all_seen self.now.names.now args.items))) result }
        ensures named { IfOk result (IsNamed self.now.names.now) }
    {
        let args = self.row(args)?;
        let height = args.height;
        self.raise(Node::SelfCall(name, args.form), height)
    }

    /// `super` with arguments (11.3.4).
    #[inline(never)]
    pub fn super_call(&self, args: Vec<Built>) -> Result<Built, MakeFault>
        requires args { AreNamed self.now.names.now args.items }
        ensures told { Gives (grown_seen self.now.names.now)
            (t.over t.super_node (t.row_of (all_seen self.now.names.now args.items))) result }
        ensures named { IfOk result (IsNamed self.now.names.now) }
    {
        let args = self.row(args)?;
        let height = args.height;
        self.raise(Node::Super(args.form), height)
    }

    /// A call with a receiver (11.3).
    #[inline(never)]
    pub fn call(&self, receiver: Built, name: Name, args: Vec<Built>) -> Result<Built, MakeFault>
        requires receiver { IsNamed self.now.names.now receiver }
        requires name { IsName self.now.names.now name }
        requires args { AreNamed self.now.names.now args.items }
        ensures told { Gives (grown_seen self.now.names.now)
            (e.call (name_seen self.now.names.now name) (grown_seen self.now.names.now receiver)
            (all_seen self.now.names.now args.items)) result }
        ensures named { IfOk result (IsNamed self.now.names.now) }
    {
        let args = self.row(args)?;
        let height = receiver.height.max(args.height);
        self.raise(Node::Call(receiver.form, name, args.form), height)
    }

    /// A test, the body where it holds, and the body where it does not (11.5.2.2).
    #[inline(never)]
    pub fn choice(
        &self,
        order: Order,
        test: Built,
        then: Vec<Built>,
        other: Vec<Built>,
    ) -> Result<Built, MakeFault>
        requires test { IsNamed self.now.names.now test }
        requires then { AreNamed self.now.names.now then.items }
        requires other { AreNamed self.now.names.now other.items }
        ensures told { Gives (grown_seen self.now.names.now)
            (t.over_three (t.if_node (order_seen order)) (grown_seen self.now.names.now test)
            (t.row_of (all_seen self.now.names.now then.items))
            (t.row_of (all_seen self.now.names.now other.items))) result }
        ensures named { IfOk result (IsNamed self.now.names.now) }
    {
        let then = self.row(then)?;
        let other = self.row(other)?;
        let height = test.height.max(then.height).max(other.height);
        self.raise(Node::If(order, test.form, then.form, other.form), height)
    }

    /// `while` (11.5.2.3).
    #[inline(never)]
    pub fn repetition(
        &self,
        order: Order,
        test: Built,
        body: Vec<Built>,
    ) -> Result<Built, MakeFault>
        requires test { IsNamed self.now.names.now test }
        requires body { AreNamed self.now.names.now body.items }
        ensures told { Gives (grown_seen self.now.names.now)
            (c.while_tree (order_seen order) (grown_seen self.now.names.now test)
            (t.row_of (all_seen self.now.names.now body.items))) result }
        ensures named { IfOk result (IsNamed self.now.names.now) }
    {
        let body = self.row(body)?;
        let height = test.height.max(body.height);
        self.raise(Node::While(order, test.form, body.form), height)
    }
}
