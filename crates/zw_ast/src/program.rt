//! Programs.
use crate::node::Node;

/// A statement of a program, and the line on which it begins, from 1 on.
#[derive(Drop)]
pub struct Statement {
    pub line: usize,
    pub node: Node,
}

/// The statements of a program, in order (ISO/IEC 30170, 10.1).
#[derive(Drop)]
pub struct Program {
    pub statements: Vec<Statement>,
}
