//! The forms that begin with a keyword: `if`, `unless`, loops, `begin`, `def`, `class` and `module`. It stands on their
//! definition in `zw_def_syntax`, on the nodes of `zw_ast`, and on the cursor of `zw_expr`. Each rule promises to read
//! exactly what its definition reads, by whatever function reads what stands within a form. Rules that do more
//! than choose are frames of their own (`inline(never)`): below a form that stands within another lies only what the rules on
//! the way to it hold.
#![tactic(auto)]

mod build;
mod choice;
mod class;
mod clause;
mod form;
mod known;
mod method;
mod param;
mod path;
mod separator;

pub use build::{only, until};
pub use form::compound;
pub use separator::{separator_next, skip_separators};
