//! Programs. It stands on their definition in `zw_def_syntax`, on the rules of the grammar in `zw_grammar`, and on what
//! `zw_places` says of jumps and definitions. It promises that `parse` gives exactly the program of the tokens, or the
//! first fault in them with its line, and that all names of a program are in the table.
#![tactic(auto)]

mod program;
mod statement;
mod statements;

pub use program::{parse, read_program};
pub use statement::ParseFault;
