//! Why a statement is refused.
ghost use Rattle.zw_def_syntax.specs.Places as d;
ghost use Rattle.zw_ast.specs.Named.{bound_of};
ghost use Rattle.zw_ast.specs.Node.{tree_seen};
ghost use Rattle.zw_places.specs.Check.{test_seen};
ghost use Rattle.zw_places.specs.Tells.{Tells, TellsFault};

use crate::check::Check;
use crate::place::Place;
use crate::walk::{Walk, in_node};
use std::alloc::{AllocError, Global};
use zw_ast::Node;
use zw_lexer::Reason;

fn breaks(alloc: Global, check: Check, statement: &Node) -> Result<bool, AllocError>
    ensures { Tells (λ names. d.some_node (test_seen check) d.at_top (tree_seen names statement.now))
        (bound_of statement.now) result }
{
    in_node(Walk { alloc, check }, Place::top(), statement)
}

/// The least reason for which a statement is refused, where there is one. Memory is taken for the names of parameters
/// alone.
pub fn fault_of(alloc: Global, statement: &Node) -> Result<Option<Reason>, AllocError>
    ensures { TellsFault (λ names. d.fault_of (tree_seen names statement.now))
        (bound_of statement.now) result }
{
    if breaks(alloc, Check::Jump, statement)? {
        return Ok(Some(Reason::MisplacedJump));
    }
    if breaks(alloc, Check::MethodInClass, statement)? {
        return Ok(Some(Reason::MisplacedDef));
    }
    if breaks(alloc, Check::DefinitionInMethod, statement)? {
        return Ok(Some(Reason::DefinitionInMethod));
    }
    if breaks(alloc, Check::RepeatedParameter, statement)? {
        return Ok(Some(Reason::RepeatedParameter));
    }
    Ok(None)
}
