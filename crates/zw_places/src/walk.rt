//! The walk through a statement. Its calls stand in one another at most as deep as the nodes do.
ghost use Rattle.zw_ast.specs.Named.{bound_of, all_names, base_names, if_any, greatest, part_names, rescue_names, default_names};
ghost use Rattle.zw_places.specs.Place.{place_seen};
ghost use Rattle.zw_places.specs.Tells.{Tells, TellsWithin};
ghost use Rattle.zw_places.specs.Walk as spec;

use crate::check::Check;
use crate::place::Place;
use sqlite_items::{Boxed, Items};
use std::alloc::{AllocError, Global};
use zw_ast::{Base, Default, Node, Part, Rescue};

/// What is looked for: a node that breaks the rule.
#[derive(Clone, Copy)]
pub(crate) struct Walk {
    pub alloc: Global,
    pub check: Check,
}

/// Whether the node breaks the rule, or one within it.
#[cycle(walk)]
pub(crate) fn in_node(walk: Walk, place: Place, node: &Node) -> Result<bool, AllocError>
    ensures { Tells (λ names. spec.in_node walk.check (place_seen place) names node.now)
        (bound_of node.now) result }
{
    if walk.check.is_broken(walk.alloc, place, node)? {
        return Ok(true);
    }
    within(walk, place, node)
}

#[cycle(walk)]
fn in_row(walk: Walk, place: Place, nodes: &[Node]) -> Result<bool, AllocError>
    ensures { Tells (λ names. spec.in_row walk.check (place_seen place) names nodes.now)
        (all_names nodes.now) result }
{
    'nodes: for node in nodes {
        if in_node(walk, place, node)? {
            return Ok(true);
        }
    }
    Ok(false)
}

#[cycle(walk)]
fn in_part(walk: Walk, place: Place, part: &Part<Node>) -> Result<bool, AllocError>
    ensures { Tells (λ names. spec.in_part walk.check (place_seen place) names part.now)
        (part_names part.now) result }
{
    match part {
        Part::Text(_) => Ok(false),
        Part::Program(program) => in_row(walk, place, program.as_slice()),
    }
}

#[cycle(walk)]
fn in_parts(walk: Walk, place: Place, parts: &[Part<Node>]) -> Result<bool, AllocError>
    ensures { Tells (λ names. spec.in_parts walk.check (place_seen place) names parts.now)
        (greatest part_names parts.now) result }
{
    'parts: for part in parts {
        if in_part(walk, place, part)? {
            return Ok(true);
        }
    }
    Ok(false)
}

#[cycle(walk)]
fn in_rescue(walk: Walk, place: Place, rescue: &Rescue<Node>) -> Result<bool, AllocError>
    ensures { Tells (λ names. spec.in_rescue walk.check (place_seen place) names rescue.now)
        (rescue_names rescue.now) result }
{
    Ok(
        in_row(walk, place, rescue.paths.as_slice())?
            || in_row(walk, place, rescue.body.as_slice())?,
    )
}

#[cycle(walk)]
fn in_rescues(walk: Walk, place: Place, rescues: &[Rescue<Node>]) -> Result<bool, AllocError>
    ensures { Tells (λ names. spec.in_rescues walk.check (place_seen place) names rescues.now)
        (greatest rescue_names rescues.now) result }
{
    'rescues: for rescue in rescues {
        if in_rescue(walk, place, rescue)? {
            return Ok(true);
        }
    }
    Ok(false)
}

#[cycle(walk)]
fn in_defaults(walk: Walk, place: Place, defaults: &[Default<Node>]) -> Result<bool, AllocError>
    ensures { Tells (λ names. spec.in_defaults walk.check (place_seen place) names defaults.now)
        (greatest default_names defaults.now) result }
{
    'defaults: for default in defaults {
        if in_node(walk, place, &default.value)? {
            return Ok(true);
        }
    }
    Ok(false)
}

#[cycle(walk)]
fn in_branch(walk: Walk, place: Place, branch: &Option<Items<Node>>) -> Result<bool, AllocError>
    ensures { Tells (λ names. spec.in_branch walk.check (place_seen place) names branch.now)
        (if_any all_names branch.now) result }
{
    match branch {
        Some(body) => in_row(walk, place, body.as_slice()),
        None => Ok(false),
    }
}

#[cycle(walk)]
fn in_base(walk: Walk, place: Place, base: &Base<Node>) -> Result<bool, AllocError>
    ensures { Tells (λ names. spec.in_base walk.check (place_seen place) names base.now)
        (base_names base.now) result }
{
    match base {
        Base::Within(node) => in_node(walk, place, node.get()),
        Base::Innermost | Base::Topmost => Ok(false),
    }
}

#[cycle(walk)]
fn in_option(walk: Walk, place: Place, option: &Option<Boxed<Node>>) -> Result<bool, AllocError>
    ensures { Tells (λ names. spec.in_option walk.check (place_seen place) names option.now)
        (if_any bound_of option.now) result }
{
    match option {
        Some(node) => in_node(walk, place, node.get()),
        None => Ok(false),
    }
}

/// Whether a node within it breaks the rule.
#[cycle(walk)]
fn within(walk: Walk, place: Place, node: &Node) -> Result<bool, AllocError>
    ensures { TellsWithin (λ names. spec.is_broken walk.check (place_seen place) names node.now)
        (λ names. spec.in_node walk.check (place_seen place) names node.now) (bound_of node.now) result }
{
    match node {
        Node::Nil
        | Node::True
        | Node::False
        | Node::SelfNode
        | Node::Int(_)
        | Node::Str(_)
        | Node::Sym(_)
        | Node::Local(_)
        | Node::Ident(_)
        | Node::InstanceVariable(_)
        | Node::ClassVariable(_)
        | Node::Const(_)
        | Node::TopConst(_)
        | Node::ZSuper
        | Node::Break
        | Node::Next => Ok(false),
        Node::Array(nodes) | Node::Super(nodes) | Node::Seq(nodes) | Node::SelfCall(_, nodes) => {
            in_row(walk, place, nodes.as_slice())
        }
        Node::Scoped(part, _)
        | Node::SetLocal(_, part)
        | Node::SetInstanceVariable(_, part)
        | Node::SetClassVariable(_, part)
        | Node::SetConst(_, part)
        | Node::Not(part) => in_node(walk, place, part.get()),
        Node::SetScoped(first, _, second)
        | Node::SetAttribute(first, _, second)
        | Node::And(first, second)
        | Node::Or(first, second) => {
            Ok(in_node(walk, place, first.get())? || in_node(walk, place, second.get())?)
        }
        Node::Call(receiver, _, arguments) => Ok(
            in_node(walk, place, receiver.get())? || in_row(walk, place, arguments.as_slice())?,
        ),
        Node::If(_, test, body, other) => Ok(
            in_node(walk, place, test.get())?
                || in_row(walk, place, body.as_slice())?
                || in_row(walk, place, other.as_slice())?,
        ),
        Node::While(_, test, body) => {
            let inside = place.loop_body();
            Ok(in_node(walk, place, test.get())? || in_row(walk, inside, body.as_slice())?)
        }
        Node::Interp(parts) => in_parts(walk, place, parts.as_slice()),
        Node::Return(value) => in_option(walk, place, value),
        Node::Begin(body, rescues, other, ensured) => Ok(
            in_row(walk, place, body.as_slice())?
                || in_rescues(walk, place, rescues.as_slice())?
                || in_branch(walk, place, other)?
                || in_branch(walk, place, ensured)?,
        ),
        Node::Def(_, _, defaults, body) | Node::SDef(_, _, defaults, body) => {
            let inside = place.method_body();
            Ok(
                in_defaults(walk, inside, defaults.as_slice())?
                    || in_row(walk, inside, body.as_slice())?,
            )
        }
        Node::Class(base, _, superclass, body) => {
            let inside = place.class_body();
            Ok(
                in_base(walk, place, base)?
                    || in_option(walk, place, superclass)?
                    || in_row(walk, inside, body.as_slice())?,
            )
        }
        Node::Module(base, _, body) => {
            let inside = place.class_body();
            Ok(in_base(walk, place, base)? || in_row(walk, inside, body.as_slice())?)
        }
    }
}
