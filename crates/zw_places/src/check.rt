//! The rules on where nodes stand and what they hold. Section numbers are those of ISO/IEC 30170.
ghost use Rattle.std.specs.Prelude.{◌≡◌, List};
ghost use Rattle.zw_def.specs.Text.{Text};
ghost use Rattle.zw_def_syntax.specs.Places as d;
ghost use Rattle.zw_ast.specs.Named.{bound_of};
ghost use Rattle.zw_ast.specs.Node.{tree_seen};
ghost use Rattle.zw_places.specs.Check.{test_seen};
ghost use Rattle.zw_places.specs.Place.{place_seen};
ghost use Rattle.zw_places.specs.Tells.{Tells};

use crate::parameters::{all_parameters, has_repeat};
use crate::place::Place;
use std::alloc::{AllocError, Global};
use zw_ast::Node;

/// A rule that a node can break.
#[derive(Clone, Copy)]
pub(crate) enum Check {
    /// `return` and `super` stand in a method's body, `break` and `next` in a loop's (11.5.2.4 and 11.3.4).
    Jump,
    /// `def` stands in a class or module body, and not in a method's.
    MethodInClass,
    /// No class, module or assignment to a constant stands in a method's body (13.1.2, 13.2.2 and 11.4.2.2).
    DefinitionInMethod,
    /// No two parameters of a method have one name (13.3.2).
    RepeatedParameter,
}

fn is_misplaced_jump(place: Place, node: &Node) -> bool
    ensures { (names : List Text) →
        result ≡ d.is_misplaced_jump (place_seen place) (tree_seen names node.now) }
{
    match node {
        Node::Return(_) | Node::Super(_) | Node::ZSuper => !place.in_method,
        Node::Break | Node::Next => !place.in_loop,
        _ => false,
    }
}

fn is_misplaced_def(place: Place, node: &Node) -> bool
    ensures { (names : List Text) →
        result ≡ d.is_misplaced_def (place_seen place) (tree_seen names node.now) }
{
    match node {
        Node::Def(_, _, _, _) | Node::SDef(_, _, _, _) => place.in_method || !place.in_class,
        _ => false,
    }
}

fn is_definition_in_method(place: Place, node: &Node) -> bool
    ensures { (names : List Text) →
        result ≡ d.is_definition_in_method (place_seen place) (tree_seen names node.now) }
{
    match node {
        Node::Class(_, _, _, _)
        | Node::Module(_, _, _)
        | Node::SetConst(_, _)
        | Node::SetScoped(_, _, _) => place.in_method,
        _ => false,
    }
}

fn repeats_parameter(alloc: Global, place: Place, node: &Node) -> Result<bool, AllocError>
    ensures { Tells (λ names. d.repeats_parameter (place_seen place) (tree_seen names node.now))
        (bound_of node.now) result }
{
    match node {
        Node::Def(_, required, defaults, _) | Node::SDef(_, required, defaults, _) => {
            let all = all_parameters(alloc, required.as_slice(), defaults.as_slice())?;
            has_repeat(alloc, all.as_slice())
        }
        _ => Ok(false),
    }
}

impl Check {
    /// Whether a node that stands there breaks the rule. The nodes within it are not looked at.
    pub(crate) fn is_broken(
        self,
        alloc: Global,
        place: Place,
        node: &Node,
    ) -> Result<bool, AllocError>
        ensures { Tells (λ names. test_seen self (place_seen place) (tree_seen names node.now))
            (bound_of node.now) result }
    {
        match self {
            Check::Jump => Ok(is_misplaced_jump(place, node)),
            Check::MethodInClass => Ok(is_misplaced_def(place, node)),
            Check::DefinitionInMethod => Ok(is_definition_in_method(place, node)),
            Check::RepeatedParameter => repeats_parameter(alloc, place, node),
        }
    }
}
