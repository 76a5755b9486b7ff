//! What the grammar is read with: a cursor over tokens, the variables that are known, the levels of operators, and what
//! every rule stands on. It stands on the tokens of `zw_lexer`, on the nodes of `zw_ast` and on the grammar of
//! `zw_def_syntax`. It promises that each call of a cursor is the definition's own step, that `fold` makes the node that
//! the levels make of operands, however many, and that what stands within a form is read as defined, by whatever function
//! reads it. The steps of `fold` that make nodes are no part of the frame of the form that they are called from
//! (`inline(never)`).
#![tactic(auto)]

mod cursor;
mod grammar;
mod known;
mod level;
mod levels;
mod operand;
mod sign;

pub use cursor::Cursor;
pub use grammar::{Form, Grammar, Read, Within};
pub use known::Known;
pub use levels::fold;
pub use operand::Operand;
pub use sign::Sign;
