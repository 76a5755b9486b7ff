//! Copies of nodes.
ghost use Rattle.std.specs.Prelude.{IfOk};
ghost use Rattle.zw_copy.specs.Copy.{IsCopy, AreCopies, IsCopyIfAny, AreCopiesIfAny, IsPartCopy, ArePartCopies, IsRescueCopy, AreRescueCopies, IsDefaultCopy, AreDefaultCopies, IsBaseCopy};

use sqlite_items::{Boxed, Items};
use std::alloc::{AllocError, Global};
use zw_ast::{Base, Default, Node, Part, Rescue};

#[cycle(copy)]
fn copy_boxed(alloc: Global, node: &Boxed<Node>) -> Result<Boxed<Node>, AllocError>
    ensures { IfOk result (IsCopy node.now) }
{
    let new = copy(alloc, node.get())?;
    Ok(Boxed::new(alloc, new)?)
}

#[cycle(copy)]
fn copy_option(
    alloc: Global,
    option: &Option<Boxed<Node>>,
) -> Result<Option<Boxed<Node>>, AllocError>
    ensures { IfOk result (IsCopyIfAny option.now) }
{
    match option {
        None => Ok(None),
        Some(node) => Ok(Some(copy_boxed(alloc, node)?)),
    }
}

#[cycle(copy)]
fn copy_row(alloc: Global, nodes: &[Node]) -> Result<Items<Node>, AllocError>
    ensures { IfOk result (AreCopies nodes.now) }
{
    let mut copies = Items::new(alloc);
    'nodes: for node in nodes {
        copies.push(copy(alloc, node)?)?;
    }
    Ok(copies)
}

#[cycle(copy)]
fn copy_branch(
    alloc: Global,
    branch: &Option<Items<Node>>,
) -> Result<Option<Items<Node>>, AllocError>
    ensures { IfOk result (AreCopiesIfAny branch.now) }
{
    match branch {
        None => Ok(None),
        Some(nodes) => Ok(Some(copy_row(alloc, nodes.as_slice())?)),
    }
}

#[cycle(copy)]
fn copy_part(alloc: Global, part: &Part<Node>) -> Result<Part<Node>, AllocError>
    ensures { IfOk result (IsPartCopy part.now) }
{
    match part {
        Part::Text(text) => Ok(Part::Text(String::from_str(alloc, text.as_str())?)),
        Part::Program(program) => Ok(Part::Program(copy_row(alloc, program.as_slice())?)),
    }
}

#[cycle(copy)]
fn copy_parts(alloc: Global, parts: &[Part<Node>]) -> Result<Items<Part<Node>>, AllocError>
    ensures { IfOk result (ArePartCopies parts.now) }
{
    let mut copies = Items::new(alloc);
    'parts: for part in parts {
        copies.push(copy_part(alloc, part)?)?;
    }
    Ok(copies)
}

#[cycle(copy)]
fn copy_rescue(alloc: Global, rescue: &Rescue<Node>) -> Result<Rescue<Node>, AllocError>
    ensures { IfOk result (IsRescueCopy rescue.now) }
{
    let paths = copy_row(alloc, rescue.paths.as_slice())?;
    let body = copy_row(alloc, rescue.body.as_slice())?;
    Ok(Rescue {
        paths,
        variable: rescue.variable,
        body,
    })
}

#[cycle(copy)]
fn copy_rescues(alloc: Global, rescues: &[Rescue<Node>]) -> Result<Items<Rescue<Node>>, AllocError>
    ensures { IfOk result (AreRescueCopies rescues.now) }
{
    let mut copies = Items::new(alloc);
    'rescues: for rescue in rescues {
        copies.push(copy_rescue(alloc, rescue)?)?;
    }
    Ok(copies)
}

#[cycle(copy)]
fn copy_default(alloc: Global, default: &Default<Node>) -> Result<Default<Node>, AllocError>
    ensures { IfOk result (IsDefaultCopy default.now) }
{
    let value = copy(alloc, &default.value)?;
    Ok(Default {
        name: default.name,
        value,
    })
}

#[cycle(copy)]
fn copy_defaults(
    alloc: Global,
    defaults: &[Default<Node>],
) -> Result<Items<Default<Node>>, AllocError>
    ensures { IfOk result (AreDefaultCopies defaults.now) }
{
    let mut copies = Items::new(alloc);
    'defaults: for default in defaults {
        copies.push(copy_default(alloc, default)?)?;
    }
    Ok(copies)
}

#[cycle(copy)]
fn copy_base(alloc: Global, base: &Base<Node>) -> Result<Base<Node>, AllocError>
    ensures { IfOk result (IsBaseCopy base.now) }
{
    match base {
        Base::Innermost => Ok(Base::Innermost),
        Base::Topmost => Ok(Base::Topmost),
        Base::Within(node) => Ok(Base::Within(copy_boxed(alloc, node)?)),
    }
}

/// The same node, in memory of its own. Its calls stand in one another at most as deep as the nodes do.
#[cycle(copy)]
pub fn copy(alloc: Global, node: &Node) -> Result<Node, AllocError>
    ensures { IfOk result (IsCopy node.now) }
{
    match node {
        Node::Nil => Ok(Node::Nil),
        Node::True => Ok(Node::True),
        Node::False => Ok(Node::False),
        Node::SelfNode => Ok(Node::SelfNode),
        Node::Int(value) => Ok(Node::Int(*value)),
        Node::Str(text) => Ok(Node::Str(String::from_str(alloc, text.as_str())?)),
        Node::Sym(name) => Ok(Node::Sym(*name)),
        Node::Interp(parts) => Ok(Node::Interp(copy_parts(alloc, parts.as_slice())?)),
        Node::Array(nodes) => Ok(Node::Array(copy_row(alloc, nodes.as_slice())?)),
        Node::Local(name) => Ok(Node::Local(*name)),
        Node::Ident(name) => Ok(Node::Ident(*name)),
        Node::InstanceVariable(name) => Ok(Node::InstanceVariable(*name)),
        Node::ClassVariable(name) => Ok(Node::ClassVariable(*name)),
        Node::Const(name) => Ok(Node::Const(*name)),
        Node::Scoped(base, name) => Ok(Node::Scoped(copy_boxed(alloc, base)?, *name)),
        Node::TopConst(name) => Ok(Node::TopConst(*name)),
        Node::SetLocal(name, value) => Ok(Node::SetLocal(*name, copy_boxed(alloc, value)?)),
        Node::SetInstanceVariable(name, value) => {
            Ok(Node::SetInstanceVariable(*name, copy_boxed(alloc, value)?))
        }
        Node::SetClassVariable(name, value) => {
            Ok(Node::SetClassVariable(*name, copy_boxed(alloc, value)?))
        }
        Node::SetConst(name, value) => Ok(Node::SetConst(*name, copy_boxed(alloc, value)?)),
        Node::SetScoped(base, name, value) => {
            let base = copy_boxed(alloc, base)?;
            Ok(Node::SetScoped(base, *name, copy_boxed(alloc, value)?))
        }
        Node::SetAttribute(receiver, name, value) => {
            let receiver = copy_boxed(alloc, receiver)?;
            Ok(Node::SetAttribute(receiver, *name, copy_boxed(alloc, value)?))
        }
        Node::Call(receiver, name, arguments) => {
            let receiver = copy_boxed(alloc, receiver)?;
            Ok(Node::Call(receiver, *name, copy_row(alloc, arguments.as_slice())?))
        }
        Node::SelfCall(name, arguments) => {
            Ok(Node::SelfCall(*name, copy_row(alloc, arguments.as_slice())?))
        }
        Node::Super(arguments) => Ok(Node::Super(copy_row(alloc, arguments.as_slice())?)),
        Node::ZSuper => Ok(Node::ZSuper),
        Node::Not(value) => Ok(Node::Not(copy_boxed(alloc, value)?)),
        Node::And(left, right) => {
            let left = copy_boxed(alloc, left)?;
            Ok(Node::And(left, copy_boxed(alloc, right)?))
        }
        Node::Or(left, right) => {
            let left = copy_boxed(alloc, left)?;
            Ok(Node::Or(left, copy_boxed(alloc, right)?))
        }
        Node::If(order, test, body, other) => {
            let test = copy_boxed(alloc, test)?;
            let body = copy_row(alloc, body.as_slice())?;
            Ok(Node::If(*order, test, body, copy_row(alloc, other.as_slice())?))
        }
        Node::While(order, test, body) => {
            let test = copy_boxed(alloc, test)?;
            Ok(Node::While(*order, test, copy_row(alloc, body.as_slice())?))
        }
        Node::Break => Ok(Node::Break),
        Node::Next => Ok(Node::Next),
        Node::Return(value) => Ok(Node::Return(copy_option(alloc, value)?)),
        Node::Seq(nodes) => Ok(Node::Seq(copy_row(alloc, nodes.as_slice())?)),
        Node::Begin(body, rescues, other, ensured) => {
            let body = copy_row(alloc, body.as_slice())?;
            let rescues = copy_rescues(alloc, rescues.as_slice())?;
            let other = copy_branch(alloc, other)?;
            Ok(Node::Begin(body, rescues, other, copy_branch(alloc, ensured)?))
        }
        Node::Def(name, required, defaults, body) => {
            let required = Items::from_slice(alloc, required.as_slice())?;
            let defaults = copy_defaults(alloc, defaults.as_slice())?;
            Ok(Node::Def(*name, required, defaults, copy_row(alloc, body.as_slice())?))
        }
        Node::SDef(name, required, defaults, body) => {
            let required = Items::from_slice(alloc, required.as_slice())?;
            let defaults = copy_defaults(alloc, defaults.as_slice())?;
            Ok(Node::SDef(*name, required, defaults, copy_row(alloc, body.as_slice())?))
        }
        Node::Class(base, name, superclass, body) => {
            let base = copy_base(alloc, base)?;
            let superclass = copy_option(alloc, superclass)?;
            Ok(Node::Class(base, *name, superclass, copy_row(alloc, body.as_slice())?))
        }
        Node::Module(base, name, body) => {
            let base = copy_base(alloc, base)?;
            Ok(Node::Module(base, *name, copy_row(alloc, body.as_slice())?))
        }
    }
}
