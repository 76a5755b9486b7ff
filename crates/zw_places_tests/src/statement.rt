//! Statements that are refused, or not, made by hand.
use sqlite_items::{Boxed, Items};
use std::alloc::{AllocError, Global};
use std::process::Abort;
use std::test::Fail;
use zw_ast::{Base, Default, MethodName, Node, Order};
use zw_lexer::Reason;
use zw_names::Name;
use zw_places::fault_of;

const JUMP: Option<Reason> = Some(Reason::MisplacedJump);

const METHOD: Option<Reason> = Some(Reason::MisplacedDef);

const DEFINITION: Option<Reason> = Some(Reason::DefinitionInMethod);

const PARAMETER: Option<Reason> = Some(Reason::RepeatedParameter);

fn row(alloc: Global, node: Node) -> Result<Items<Node>, AllocError> {
    let mut row = Items::new(alloc);
    row.push(node)?;
    Ok(row)
}

// `while TEST; BODY; end`
fn repeat(alloc: Global, test: Node, body: Node) -> Result<Node, AllocError> {
    let body = row(alloc, body)?;
    let test = Boxed::new(alloc, test)?;
    Ok(Node::While(Order::TestFirst, test, body))
}

// `class X; BODY; end`
fn class(alloc: Global, body: Node) -> Result<Node, AllocError> {
    let body = row(alloc, body)?;
    Ok(Node::Class(Base::Innermost, Name(7), None, body))
}

// `FIRST; SECOND`, in parentheses
fn both(alloc: Global, first: Node, second: Node) -> Result<Node, AllocError> {
    let mut all = row(alloc, first)?;
    all.push(second)?;
    Ok(Node::Seq(all))
}

// `def m(REQUIRED, NAME = VALUE); BODY; end`
fn method(
    alloc: Global,
    required: &[Name],
    name: Name,
    value: Node,
    body: Node,
) -> Result<Node, AllocError> {
    let body = row(alloc, body)?;
    let mut defaults = Items::new(alloc);
    defaults.push(Default { name, value })?;
    let required = Items::from_slice(alloc, required)?;
    Ok(Node::Def(MethodName::Named(Name(0)), required, defaults, body))
}

// `class X; def m(x = nil); BODY; end; end`
fn in_method(alloc: Global, body: Node) -> Result<Node, AllocError> {
    let inner = method(alloc, &[], Name(1), Node::Nil, body)?;
    class(alloc, inner)
}

// `class X; def m(REQUIRED, NAME = nil); end; end`
fn with_parameters(alloc: Global, required: &[Name], name: Name) -> Result<Node, AllocError> {
    let inner = method(alloc, required, name, Node::Nil, Node::Nil)?;
    class(alloc, inner)
}

fn has_fault(alloc: Global, statement: Node, fault: Option<Reason>) -> Result<bool, AllocError> {
    Ok(fault_of(alloc, &statement)? == fault)
}

#[test]
fn jumps_stand_in_loops(rt: HostRuntime) -> Result<(), Fail> {
    let alloc = rt.alloc();
    assert!(rt; has_fault(alloc, Node::Break, JUMP)?);
    let inside = repeat(alloc, Node::True, Node::Next)?;
    assert!(rt; has_fault(alloc, inside, None)?);
    let in_test = repeat(alloc, Node::Break, Node::Nil)?;
    assert!(rt; has_fault(alloc, in_test, JUMP)?);
    let broken = class(alloc, Node::Break)?;
    let in_class = repeat(alloc, Node::True, broken)?;
    assert!(rt; has_fault(alloc, in_class, JUMP)?);
    Ok(())
}

#[test]
fn jumps_stand_in_methods(rt: HostRuntime) -> Result<(), Fail> {
    let alloc = rt.alloc();
    assert!(rt; has_fault(alloc, Node::ZSuper, JUMP)?);
    let inside = in_method(alloc, Node::Return(None))?;
    assert!(rt; has_fault(alloc, inside, None)?);
    let method = method(alloc, &[], Name(1), Node::Return(None), Node::Nil)?;
    let in_default = class(alloc, method)?;
    assert!(rt; has_fault(alloc, in_default, None)?);
    Ok(())
}

#[test]
fn methods_stand_in_classes(rt: HostRuntime) -> Result<(), Fail> {
    let alloc = rt.alloc();
    let inside = in_method(alloc, Node::Nil)?;
    assert!(rt; has_fault(alloc, inside, None)?);
    let at_top = method(alloc, &[], Name(1), Node::Nil, Node::Nil)?;
    assert!(rt; has_fault(alloc, at_top, METHOD)?);
    let inner = method(alloc, &[], Name(1), Node::Nil, Node::Nil)?;
    let in_other = in_method(alloc, inner)?;
    assert!(rt; has_fault(alloc, in_other, METHOD)?);
    Ok(())
}

#[test]
fn no_class_stands_in_a_method(rt: HostRuntime) -> Result<(), Fail> {
    let alloc = rt.alloc();
    let inner = class(alloc, Node::Nil)?;
    let outer = in_method(alloc, inner)?;
    assert!(rt; has_fault(alloc, outer, DEFINITION)?);
    Ok(())
}

#[test]
fn parameters_have_names_of_their_own(rt: HostRuntime) -> Result<(), Fail> {
    let alloc = rt.alloc();
    let required = with_parameters(alloc, &[Name(3), Name(1), Name(3)], Name(2))?;
    assert!(rt; has_fault(alloc, required, PARAMETER)?);
    let default = with_parameters(alloc, &[Name(3), Name(2)], Name(2))?;
    assert!(rt; has_fault(alloc, default, PARAMETER)?);
    let other = with_parameters(alloc, &[Name(3), Name(1)], Name(2))?;
    assert!(rt; has_fault(alloc, other, None)?);
    Ok(())
}

#[test]
fn the_least_reason_is_told(rt: HostRuntime) -> Result<(), Fail> {
    let alloc = rt.alloc();
    let repeated = with_parameters(alloc, &[Name(2)], Name(2))?;
    let jump = both(alloc, repeated, Node::Break)?;
    assert!(rt; has_fault(alloc, jump, JUMP)?);
    let inner = class(alloc, Node::Nil)?;
    let definition = in_method(alloc, inner)?;
    let repeated = with_parameters(alloc, &[Name(2)], Name(2))?;
    let both = both(alloc, repeated, definition)?;
    assert!(rt; has_fault(alloc, both, DEFINITION)?);
    Ok(())
}

fn many_names(alloc: Global) -> Result<Vec<Name>, AllocError> {
    let mut names = Vec::new(alloc);
    for number in 10..100_010usize {
        names.push(Name(number))?;
    }
    Ok(names)
}

#[test]
fn many_parameters_are_looked_through_in_time(rt: HostRuntime) -> Result<(), Fail> {
    let alloc = rt.alloc();
    let names = many_names(alloc)?;
    let other = with_parameters(alloc, names.as_slice(), Name(1))?;
    assert!(rt; has_fault(alloc, other, None)?);
    let last = with_parameters(alloc, names.as_slice(), Name(100_009))?;
    assert!(rt; has_fault(alloc, last, PARAMETER)?);
    Ok(())
}
