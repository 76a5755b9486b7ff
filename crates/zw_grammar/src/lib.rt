//! The grammar. It stands on its definition in `zw_def_syntax`, on the nodes of `zw_ast`, and on the cursor, the levels
//! and the compound forms of `zw_expr` and `zw_compound`. Each rule promises to read exactly what its definition reads.
//! Rules that do more than choose are frames of their own (`inline(never)`): below a form that stands within another lies
//! only what the rules on the way to it hold.
#![tactic(auto)]

mod ahead;
mod arguments;
mod assignment;
mod build;
mod command;
mod kind;
mod operation;
mod postfix;
mod primary;
mod program;
mod reader;
mod sight;
mod statement;
mod take;
mod top;
mod update;
mod value;
mod variable;

pub use top::top_statement;
