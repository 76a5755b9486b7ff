//! Copies of small nodes and programs, made by hand.
use sqlite_items::{Boxed, Items};
use std::alloc::{AllocError, Global};
use std::process::Abort;
use std::test::Fail;
use zw_ast::{Node, Order, Program, Statement};
use zw_copy::{copy, copy_program};
use zw_names::Name;

fn text(alloc: Global) -> Result<Node, AllocError> {
    Ok(Node::Str(String::from_str(alloc, "abc")?))
}

fn is_text(node: &Node) -> bool {
    match node {
        Node::Str(text) => text.as_str() == "abc",
        _ => false,
    }
}

// `while x; "abc"; end`
fn repeat(alloc: Global) -> Result<Node, AllocError> {
    let mut body = Items::new(alloc);
    body.push(text(alloc)?)?;
    let test = Boxed::new(alloc, Node::Local(Name(3)))?;
    Ok(Node::While(Order::TestFirst, test, body))
}

fn is_repeat(node: &Node) -> bool {
    match node {
        Node::While(Order::TestFirst, test, body) => {
            matches!(test.get(), Node::Local(Name(3)))
                && matches!(body.as_slice(), [one] if is_text(one))
        }
        _ => false,
    }
}

// `!!.. "abc"`
fn ends_in_text(node: &Node) -> bool {
    match node {
        Node::Not(part) => ends_in_text(part.get()),
        _ => is_text(node),
    }
}

#[test]
fn a_copy_stands_for_the_same(rt: HostRuntime) -> Result<(), Fail> {
    let alloc = rt.alloc();
    let node = repeat(alloc)?;
    let new = copy(alloc, &node)?;
    drop(node);
    assert!(rt; is_repeat(&new));
    Ok(())
}

#[test]
fn a_node_of_height_100_is_copied(rt: HostRuntime) -> Result<(), Fail> {
    let alloc = rt.alloc();
    let mut node = text(alloc)?;
    for _ in 0..99usize {
        node = Node::Not(Boxed::new(alloc, node)?);
    }
    let new = copy(alloc, &node)?;
    assert!(rt; ends_in_text(&new));
    Ok(())
}

#[test]
fn a_copied_program_has_its_lines(rt: HostRuntime) -> Result<(), Fail> {
    let alloc = rt.alloc();
    let mut statements = Vec::new(alloc);
    statements.push(Statement {
        line: 2,
        node: text(alloc)?,
    })?;
    statements.push(Statement {
        line: 5,
        node: repeat(alloc)?,
    })?;
    let new = copy_program(alloc, &Program { statements })?;
    assert_eq!(rt; new.statements.len(), 2);
    assert_eq!(rt; new.statements[0].line, 2);
    assert!(rt; is_text(&new.statements[0].node));
    assert_eq!(rt; new.statements[1].line, 5);
    assert!(rt; is_repeat(&new.statements[1].node));
    Ok(())
}
