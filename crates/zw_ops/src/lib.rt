//! The rules of one node that do not recurse (ISO/IEC 30170, 11.3 and 13.3): which method answers a call or `super`, whether
//! a class or module statement makes or reopens, where a class variable stands, and how many optional parameters are
//! given. It stands on the stores `zw_heap` and `zw_methods`, on `zw_consts` for ancestors and on `zw_calls` for faults. It
//! promises that in every world that agrees with the stores each answer is what the definition goes on with, and each
//! fault the exception that the definition raises there; and that a method that is chosen stands under its name in a table
//! of the receiver's line, `new` of Class with a receiver that makes objects.
#![tactic(auto)]

mod arguments;
mod choice;
mod class_variable;
mod fault;
mod line;
mod open;
mod written;

pub use arguments::bind_args;
pub use choice::{Chosen, Running, choose_call, choose_super};
pub use class_variable::cvar_place;
pub use fault::{OpFault, frozen, no_module};
pub use open::{OpenAct, choose_open};
pub use written::{Absent, Written};
